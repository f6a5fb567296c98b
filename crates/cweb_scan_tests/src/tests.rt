// What no clause states: reports on the scans of webs, limits, and failed allocations.
mod c_text;
mod cases;
mod codes;
mod directives;
mod ends;
mod failing;
mod hostile;
mod limbo;
mod line_ends;
mod literals;
mod macros;
mod names;
mod plain;
mod rendered;
mod rules;
mod sections;
mod spacing;
mod wanted;
mod worked;

use cases::{Case, check};
use cweb_lines::Merger;
use cweb_scan::{Scanned, scan};
use rendered::render;
use std::alloc::{AllocError, Global};
use std::process::Abort;
use std::test::Fail;
use trial::shelf_of;
use wanted::*;

/// The expected report on a scan.
#[derive(Clone, Copy)]
struct Rendering<'a> {
    text: &'a str,
}

impl Case<Fail> for Rendering<'_> {
    fn look<A: AllocGlobal + Abort>(&self, rt: &A, made: &Scanned) -> Result<(), Fail> {
        let mut rendered = String::new(rt.alloc());
        render(&mut rendered, made)?;
        same_string(rt, rendered.as_str(), self.text);
        Ok(())
    }
}

/// Checks the report on each web of one file.
fn check_each(rt: &(impl AllocGlobal + Abort), examples: &[(&[u8], &str)]) -> Result<(), Fail> {
    for (web, text) in examples {
        check(rt, &[("a.w", *web)], None, &Rendering { text: *text })?;
    }
    Ok(())
}

/// Webs of one file, and the report on each.
type Table = &'static [(&'static [u8], &'static str)];

/// Checks the report on each web of each table.
fn check_all(rt: &(impl AllocGlobal + Abort), tables: &[Table]) -> Result<(), Fail> {
    for examples in tables {
        check_each(rt, *examples)?;
    }
    Ok(())
}
