// A client of cweb_out.
ghost use Rattle.std.specs.Prelude.{◌<◌};

use crate::tests::wanted::{holds, same_string};
use cweb_lines::{MemoryShelf, Merger, Stop};
use cweb_out::{Expander, Plan, PlanFault, plan};
use cweb_scan::{Scanned, scan};
use cweb_store::{Store, Token};
use std::alloc::Global;
use std::process::Abort;

/// The number of words in the first output of a store, with all names expanded.
pub fn count_words(alloc: Global, store: &Store, main: &str) -> Result<u32, PlanFault> {
    let plan = match plan(alloc, store, main) {
        Ok(plan) => plan,
        Err(fault) => return Err(fault),
    };
    if plan.outputs() == 0 {
        return Ok(0);
    }
    let mut expander = Expander::new(alloc, store, &plan, 0)?;
    let mut words: u32 = 0;
    'tokens: for _ in 0..u32::MAX {
        let Some(token) = expander.next() else {
            break;
        };
        if let Token::Word(_) = token {
            words = words.saturating_add(1);
        }
    }
    Ok(words)
}

// Each name is used twice, so the main file has 2 ^ 4 words.
const DOUBLING: &[u8] =
    b"@ @c @<a@>@<a@>\n@ @<a@>= @<b@>@<b@>\n@ @<b@>= @<c@>@<c@>\n@ @<c@>= @<d@>@<d@>\n@ @<d@>= x;\n";

/// A scanned web, and what the merge knows of its files.
#[derive(Drop)]
pub struct ScannedWeb {
    pub made: Scanned,
    pub merger: Merger<MemoryShelf>,
}

/// Scans a web in memory.
pub fn scanned(alloc: Global, text: &[u8]) -> Result<ScannedWeb, Stop> {
    let mut shelf = MemoryShelf::new(alloc);
    shelf.put("t.w", text)?;
    let mut merger = Merger::start(alloc, &mut shelf, "t.w", None, None, None)?;
    let made = scan(alloc, &mut merger, &mut shelf)?;
    Ok(ScannedWeb { made, merger })
}

fn has_one_output(rt: &impl Abort, plan: &Plan) {
    holds(rt, plan.outputs() == 1);
    same_string(rt, plan.output_name(0), "t.c");
    holds(rt, !plan.no_text());
}

fn check_doubling(rt: &impl Abort, alloc: Global, store: &Store) {
    match count_words(alloc, store, "t.c") {
        Ok(words) => holds(rt, words == 16),
        Err(_) => holds(rt, false),
    }
    match plan(alloc, store, "t.c") {
        Ok(plan) => has_one_output(rt, &plan),
        Err(_) => holds(rt, false),
    }
}

#[test]
fn names_used_twice_are_expanded_twice(rt: HostRuntime) {
    let web = scanned(rt.alloc(), DOUBLING).expect(&rt, "scanned");
    check_doubling(&rt, rt.alloc(), &web.made.store);
}
