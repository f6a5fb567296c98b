// A client of cweb_out.
ghost use Rattle.std.specs.Prelude.{◌≡◌, ◌<◌, vec_capacity, true};
ghost use Rattle.cweb_lines.specs.surface.OpenedFileNames.{opened_file_names};
ghost use Rattle.cweb_store.specs.surface.Tokens.{token_model};
ghost use Rattle.cweb_out.specs.surface.FrameStacks.{IsFrameStack};
ghost use Rattle.cweb_out.specs.surface.Printed.{MarkFileIsNamed};
ghost use Rattle.cweb_out.specs.Printing.{Setting};

use super::outputs::scanned;
use crate::ByteSink;
use crate::tests::wanted::{holds, same_bytes};
use cweb_lines::{FileNames, Sink, SinkFault};
use cweb_out::{Expander, OutBuffer, Printer, plan};
use cweb_store::{Store, Token};
use std::alloc::Global;
use std::process::Abort;

/// Whether a line mark is of a file that was opened.
fn is_named(names: &FileNames, token: &Token<'_>) -> bool
    ensures { result ≡ true → (s : Setting) → s.files ≡ opened_file_names names.now
        → MarkFileIsNamed s (token_model token.now) }
{
    match token {
        Token::Mark(place) => place.file.0 < names.count(),
        _ => true,
    }
}

/// Writes the tokens that an expander has left.
pub fn print_all<W: Sink>(
    expander: &mut Expander<'_>,
    names: &FileNames,
    buffer: &mut OutBuffer,
    out: &mut W,
) -> Result<(), SinkFault>
    requires { IsFrameStack expander.old.store.now expander.old.frames.items
        (vec_capacity expander.old.frames) }
{
    let mut printer = Printer::new(expander.store, names);
    'tokens: for _ in 0..u32::MAX {
        expander.append(&mut printer, buffer);
        let Some(token) = expander.next() else {
            break;
        };
        if out.failures() == u64::MAX || !is_named(names, &token) {
            return Err(SinkFault);
        }
        printer.append(token, buffer, out)?;
    }
    if out.failures() == u64::MAX {
        return Err(SinkFault);
    }
    printer.finish(buffer, out)
}

const WEB: &[u8] = b"@ @c\nint x; @<Rest@>\n@ @<Rest@>=\nint y;\n";

const PRINTED: &[u8] =
    b"/*1:*/\n#line 1 \"t.w\"\n\nint x;/*2:*/\n#line 3 \"t.w\"\n\nint y;/*:2*/\n#line 2 \"t.w\"\n\n/*:1*/\n";

fn check_printed(rt: &impl Abort, alloc: Global, expander: &mut Expander<'_>, names: &FileNames)
    requires { IsFrameStack expander.old.store.now expander.old.frames.items
        (vec_capacity expander.old.frames) }
{
    let mut buffer = OutBuffer::new(alloc).expect(rt, "memory");
    let mut out = ByteSink::new(alloc);
    let ended = print_all(expander, names, &mut buffer, &mut out);
    holds(rt, ended.is_ok());
    same_bytes(rt, out.bytes.as_slice(), PRINTED);
}

fn check_web(rt: &impl Abort, alloc: Global, store: &Store, names: &FileNames) {
    let Ok(plan) = plan(alloc, store, "t.c") else {
        holds(rt, false);
        return;
    };
    holds(rt, plan.outputs() == 1);
    let mut expander = Expander::new(alloc, store, &plan, 0).expect(rt, "memory");
    check_printed(rt, alloc, &mut expander, names);
}

#[test]
fn an_output_goes_through_the_buffer_to_an_own_sink(rt: HostRuntime) {
    let web = scanned(rt.alloc(), WEB).expect(&rt, "scanned");
    check_web(&rt, rt.alloc(), &web.made.store, web.merger.names());
}
