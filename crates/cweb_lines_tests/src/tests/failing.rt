// A read fails within a run.
use super::*;
use std::process::Abort;
use trial::{TrialShelf, TrialSink};

pub const FILES: &[(&str, &[u8])] = &[("a.w", b"one\n@i b.w\n@i gone\nthree\n"), ("b.w", b"two\n")];

// A web with a change file. Each part of a run reports a fault.
pub const CHANGED: &[(&str, &[u8])] = &[
    ("a.w", b"one\n@i b.w\n@i gone\nthree\nfour\n"),
    ("b.w", b"two\n"),
    (
        "c.ch",
        b"@z\n@x\n@i gone\n3\n@y\n@i b.w\n@i\nthree\n@z\n@x\nfive\n@y\n@z\n",
    ),
];

pub const MERGED_CHANGED: &[u8] = b"one\ntwo\ntwo\nthree\nfour\n";

const FAULTS_CHANGED: &str =
    "MissingX in 1 at 1\nUnequal in 1 at 2: 1\nNoName in 1 at 7\nNoMatch in 1 at 10\n";

// Takes `lines` lines before a read fails.
fn takes_lines(
    rt: &impl Abort,
    merger: &mut Merger<TrialShelf>,
    shelf: &mut TrialShelf,
    line: &mut Vec<u8>,
    lines: u32,
) -> Result<(), Stop> {
    for _ in 0..lines {
        holds(rt, shelf.failed == 0);
        holds(rt, merger.next_line(shelf, line)?.is_some());
    }
    Ok(())
}

// The next read fails, and none is tried after it.
fn stops_twice(
    rt: &impl Abort,
    merger: &mut Merger<TrialShelf>,
    shelf: &mut TrialShelf,
    line: &mut Vec<u8>,
    stop: Stop,
) {
    for _ in 0..2 {
        holds(rt, shelf.failed < 2);
        stops(rt, merger.next_line(shelf, line), stop);
        holds(rt, line.is_empty());
        same_number(rt, shelf.failures(), 1);
    }
}

// Checks the number and name of the file whose read failed.
fn failed_in(
    rt: &impl Abort,
    merger: &Merger<TrialShelf>,
    shelf: &TrialShelf,
    file: u32,
    name: &str,
) {
    same_number(rt, shelf.reads, shelf.fails_at);
    same_number(rt, u64::from(shelf.failed_in), u64::from(file));
    holds(rt, file < merger.names().count());
    same_string(rt, merger.names().get(FileId(file)), name);
}

// A merger with a failed read writes nothing.
fn writes_nothing(
    rt: &impl Abort,
    merger: &mut Merger<TrialShelf>,
    shelf: &mut TrialShelf,
    sink: &mut TrialSink,
    stop: Stop,
) {
    holds(rt, shelf.failed == 1);
    ends(rt, write_all(rt, merger, shelf, sink), Err(stop));
    same_number(rt, sink.writes, 0);
}

// A read of this file fails, after `lines` lines.
#[derive(Clone, Copy)]
struct Failing {
    file: u32,
    name: &'static str,
    lines: u32,
}

impl Case<TrialShelf, Fail> for Failing {
    fn ask<A: Abort>(
        &mut self,
        rt: &A,
        merger: &mut Merger<TrialShelf>,
        shelf: &mut TrialShelf,
        filled: &mut Filled,
    ) -> Result<(), Fail> {
        takes_lines(rt, merger, shelf, &mut filled.line, self.lines)?;
        let stop = Stop::ReadFault(FileId(self.file));
        stops_twice(rt, merger, shelf, &mut filled.line, stop);
        failed_in(rt, merger, shelf, self.file, self.name);
        writes_nothing(rt, merger, shelf, &mut filled.sink, stop);
        Ok(())
    }
}

// Each file is read twice: all of its bytes, then none.
#[test]
fn a_read_that_fails(rt: HostRuntime) -> Result<(), Fail> {
    const EXAMPLES: &[(u64, u32, &str, u32)] = &[
        (1, 0, "a.w", 0),
        (2, 1, "b.w", 1),
        (3, 1, "b.w", 2),
        (4, 0, "a.w", 3),
    ];
    for (fails_at, file, name, lines) in EXAMPLES {
        let mut case = Failing {
            file: *file,
            name: *name,
            lines: *lines,
        };
        merge_reads(&rt, FILES, &WEB, usize::MAX, *fails_at, &mut case)?;
    }
    Ok(())
}

// A merger with a failed read returns the same stop, and reads no more.
fn stays_stopped(
    rt: &impl Abort,
    merger: &mut Merger<TrialShelf>,
    shelf: &mut TrialShelf,
    line: &mut Vec<u8>,
    ended: Result<(), Stop>,
) -> Result<(), Fail> {
    let stop = Stop::ReadFault(FileId(shelf.failed_in));
    ends(rt, ended, Err(stop));
    line.push(b'x')?;
    holds(rt, shelf.failed == 1);
    stops(rt, merger.next_line(shelf, line), stop);
    holds(rt, line.is_empty());
    same_number(rt, shelf.reads, shelf.fails_at);
    Ok(())
}

fn is_all(rt: &impl Abort, written: &[u8], faults: &str) {
    same_bytes(rt, written, MERGED_CHANGED);
    same_string(rt, faults, FAULTS_CHANGED);
}

fn is_prefix(rt: &impl Abort, written: &[u8], faults: &str) {
    holds(rt, MERGED_CHANGED.starts_with(written));
    holds(rt, FAULTS_CHANGED.starts_with(faults));
}

// Each run fails at a later read than the one before, and writes no fewer bytes. There is no 88th read.
#[derive(Clone, Copy)]
struct FailingReads {
    least: usize,
}

impl Case<TrialShelf, Fail> for FailingReads {
    fn ask<A: Abort>(
        &mut self,
        rt: &A,
        merger: &mut Merger<TrialShelf>,
        shelf: &mut TrialShelf,
        filled: &mut Filled,
    ) -> Result<(), Fail> {
        holds(rt, shelf.failed == 0);
        let ended = write_all(rt, merger, shelf, &mut filled.sink);
        describe_faults(&mut filled.reported, merger)?;
        let written = filled.sink.bytes();
        holds(rt, self.least <= written.len());
        self.least = written.len();
        if shelf.fails_at >= 88 {
            is_all(rt, written, filled.reported.as_str());
            ends(rt, ended, Ok(()));
            return Ok(());
        }
        is_prefix(rt, written, filled.reported.as_str());
        stays_stopped(rt, merger, shelf, &mut filled.line, ended)
    }
}

// Each read in turn, one byte at a time: all files of the web, `b.w` twice, each with its end, and the change file up
// to the first old line of the entry that waits.
#[test]
fn each_read_that_fails(rt: HostRuntime) -> Result<(), Fail> {
    let mut runs = FailingReads { least: 0 };
    for fails_at in 1..89 {
        merge_reads(&rt, CHANGED, &CHANGED_WEB, 1, fails_at, &mut runs)?;
    }
    Ok(())
}
