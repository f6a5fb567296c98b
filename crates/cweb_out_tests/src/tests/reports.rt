// Reports on a store as one string: the name and the bytes of each output, or why there is no plan.
ghost use Rattle.std.specs.Prelude.{◌≡◌, ◌<◌, vec_capacity, true};
ghost use Rattle.cweb_lines.specs.surface.OpenedFileNames.{opened_file_names};
ghost use Rattle.cweb_store.specs.surface.Tokens.{token_model};
ghost use Rattle.cweb_out.specs.surface.FrameStacks.{IsFrameStack};
ghost use Rattle.cweb_out.specs.surface.Outputs.{IsPlanOf};
ghost use Rattle.cweb_out.specs.surface.Printed.{MarkFileIsNamed};
ghost use Rattle.cweb_out.specs.Printing.{Setting};

use super::wanted::holds;
use cweb_files::{Sink, SinkFault};
use cweb_lines::FileNames;
use cweb_out::{Expander, Plan, PlanFault, Printer, plan};
use cweb_store::{NameId, Store, Token};
use std::alloc::Global;
use std::process::Abort;
use trial::TrialSink;

// More tokens than any test has.
pub const MANY: u32 = 1_000_000;

fn report(rt: &impl Abort, out: &mut TrialSink, piece: &[u8]) {
    holds(rt, out.failed == 0);
    holds(rt, out.write(piece).is_ok());
}

pub fn is_named(names: &FileNames, token: &Token<'_>) -> bool
    ensures { result ≡ true → (s : Setting) → s.files ≡ opened_file_names names.now
        → MarkFileIsNamed s (token_model token.now) }
{
    match token {
        Token::Mark(place) => place.file.0 < names.count(),
        _ => true,
    }
}

/// Prints the remaining tokens of an expander as a file.
pub fn print_file<W: Sink>(
    rt: &impl Abort,
    expander: &mut Expander<'_>,
    names: &FileNames,
    out: &mut W,
) -> Result<(), SinkFault>
    requires { IsFrameStack expander.old.store.now expander.old.frames.items
        (vec_capacity expander.old.frames) }
    ensures valid { IsFrameStack expander.new.store.now expander.new.frames.items
        (vec_capacity expander.new.frames) }
    ensures store { expander.new.store ≡ expander.old.store }
    ensures plan { expander.new.plan ≡ expander.old.plan }
{
    let mut printer = Printer::new(expander.store, names);
    'tokens: for _ in 0..MANY {
        let Some(token) = expander.next() else {
            break;
        };
        assert!(rt; is_named(names, &token));
        holds(rt, out.failures() < 1000);
        printer.write(token, out)?;
    }
    holds(rt, out.failures() < 1000);
    printer.end(out)
}

fn report_name(rt: &impl Abort, store: &Store, name: NameId, out: &mut TrialSink) {
    holds(rt, name.0 < store.names());
    report(rt, out, b" <");
    report(rt, out, store.name_text(name));
    report(rt, out, b">");
}

fn report_fault(rt: &impl Abort, store: &Store, fault: &PlanFault, out: &mut TrialSink) {
    match fault {
        PlanFault::Memory => report(rt, out, b"memory"),
        PlanFault::BadName(None) => report(rt, out, b"bad main name"),
        PlanFault::BadName(Some(name)) => {
            report(rt, out, b"bad name");
            report_name(rt, store, *name, out);
        }
        PlanFault::SameName(name) => {
            report(rt, out, b"same name");
            report_name(rt, store, *name, out);
        }
        PlanFault::Cycle(names) => {
            report(rt, out, b"cycle");
            for name in names {
                report_name(rt, store, *name, out);
            }
        }
    }
}

fn report_planned(
    rt: &impl Abort,
    alloc: Global,
    store: &Store,
    plan: &Plan,
    names: &FileNames,
    out: &mut TrialSink,
)
    requires { IsPlanOf store.now plan.now }
{
    holds(rt, plan.outputs() > 0);
    let mut expander = Expander::new(alloc, store, plan, 0).expect(rt, "memory");
    'outputs: for number in 0..plan.outputs() {
        report(rt, out, plan.output_name(number).as_bytes());
        report(rt, out, b": ");
        expander.restart(number);
        holds(rt, print_file(rt, &mut expander, names, out).is_ok());
    }
    if plan.no_text() {
        report(rt, out, b"no text");
    }
}

/// Reports the outputs of a store for a main file of this name.
pub fn report_outputs(
    rt: &impl Abort,
    alloc: Global,
    store: &Store,
    names: &FileNames,
    main: &str,
    out: &mut TrialSink,
) {
    match plan(alloc, store, main) {
        Ok(plan) => report_planned(rt, alloc, store, &plan, names, out),
        Err(fault) => report_fault(rt, store, &fault, out),
    }
}
