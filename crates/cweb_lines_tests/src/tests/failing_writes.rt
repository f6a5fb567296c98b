// A write or an allocation fails within a run.
use super::*;
use failing::{CHANGED, FILES, MERGED_CHANGED};
use std::process::Abort;
use trial::TrialSink;

const MERGED: &[u8] = b"one\ntwo\nthree\n";

// A write fails after these bytes.
fn fails_after(
    rt: &impl Abort,
    merger: &mut Merger<MemoryShelf>,
    shelf: &mut MemoryShelf,
    sink: &mut TrialSink,
    written: &str,
) {
    let ended = write_all(rt, merger, shelf, sink);
    ends(rt, ended, Err(Stop::WriteFault));
    same_number(rt, sink.failures(), 1);
    same_bytes(rt, &sink.bytes, written.as_bytes());
}

// A write of at most `most` bytes fails. `written` was written before it, and `rest` comes after the line that it cut.
#[derive(Clone, Copy)]
struct Failing {
    fails_at: u64,
    most: usize,
    written: &'static str,
    rest: &'static str,
}

impl Case<MemoryShelf, Fail> for Failing {
    fn ask<A: Abort>(
        &mut self,
        rt: &A,
        merger: &mut Merger<MemoryShelf>,
        shelf: &mut MemoryShelf,
        filled: &mut Filled,
    ) -> Result<(), Fail> {
        filled.sink.most = self.most;
        filled.sink.fails_at = self.fails_at;
        fails_after(rt, merger, shelf, &mut filled.sink, self.written);
        writes(rt, merger, shelf, &mut filled.sink, self.rest.as_bytes())
    }
}

#[test]
fn a_write_that_fails(rt: HostRuntime) -> Result<(), Fail> {
    const EXAMPLES: &[(u64, usize, &str, &str)] = &[
        (1, usize::MAX, "", "two\nthree\n"),
        (2, usize::MAX, "one\n", "three\n"),
        (3, usize::MAX, "one\ntwo\n", ""),
        (6, 1, "one\nt", "three\n"),
    ];
    for (fails_at, most, written, rest) in EXAMPLES {
        let mut case = Failing {
            fails_at: *fails_at,
            most: *most,
            written: *written,
            rest: *rest,
        };
        merge_files(&rt, FILES, &WEB, &mut case)?;
    }
    Ok(())
}

// A merger that was refused memory returns the same stop, and writes nothing.
fn stays_refused(
    rt: &impl Abort,
    merger: &mut Merger<MemoryShelf>,
    shelf: &mut MemoryShelf,
    filled: &mut Filled,
) {
    let next = merger.next_line(shelf, &mut filled.line);
    stops(rt, next, Stop::Memory);
    let writes = filled.sink.writes;
    let ended = write_all(rt, merger, shelf, &mut filled.sink);
    ends(rt, ended, Err(Stop::Memory));
    same_number(rt, filled.sink.writes, writes);
}

// A run with this output and number of faults, or with a prefix of the output if memory is refused.
#[derive(Clone, Copy)]
struct Refusing {
    merged: &'static [u8],
    faults: usize,
}

impl Case<MemoryShelf, Stop> for Refusing {
    fn ask<A: Abort>(
        &mut self,
        rt: &A,
        merger: &mut Merger<MemoryShelf>,
        shelf: &mut MemoryShelf,
        filled: &mut Filled,
    ) -> Result<(), Stop> {
        filled.sink.bytes.reserve(100)?;
        let ended = write_buffered(rt, merger, shelf, &mut filled.sink, 6);
        holds(rt, self.merged.starts_with(filled.sink.bytes()));
        if ended.is_ok() {
            same_bytes(rt, filled.sink.bytes(), self.merged);
            holds(rt, merger.faults().len() == self.faults);
        } else {
            stays_refused(rt, merger, shelf, filled);
        }
        ended
    }
}

// Merges files while memory may be refused. Nothing else stops it.
fn refuse_memory(
    rt: &(impl AllocGlobal + Abort),
    files: &[(&str, &[u8])],
    change: Option<&str>,
    case: &mut Refusing,
) {
    let names = Names {
        change,
        inputs: Some("lib"),
        ..WEB
    };
    let ended = merge_files(rt, files, &names, case);
    holds(rt, matches!(ended, Ok(()) | Err(Stop::Memory)));
}

// Run by `tests/refusals`, which refuses each allocation of the runs in turn.
#[test]
fn memory_that_is_refused(rt: HostRuntime) {
    let mut case = Refusing {
        merged: MERGED,
        faults: 1,
    };
    refuse_memory(&rt, FILES, None, &mut case);
}

#[test]
fn memory_that_is_refused_within_changes(rt: HostRuntime) {
    let mut case = Refusing {
        merged: MERGED_CHANGED,
        faults: 4,
    };
    refuse_memory(&rt, CHANGED, Some("c.ch"), &mut case);
}
