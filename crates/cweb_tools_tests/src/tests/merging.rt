// Runs of `wmerge` and `wdep` over files in memory, with their expected effects.
use super::tangling::ROOM;
use super::wanted::{holds, same_bytes};
use cweb_tools::{run_wdep, run_wmerge};
use std::alloc::{AllocError, Global};
use std::process::Abort;
use trial::{TrialShelf, TrialSink, shelf_of};

/// The program of a run. Both print to standard output.
#[derive(Clone, Copy)]
pub enum Program {
    Wmerge,
    Wdep,
}

/// Files: names and contents.
pub type Sources<'a> = &'a [(&'a str, &'a [u8])];

/// The words of a run, the folder of includes and the files; the expected output, log and status.
pub type Run<'a> = (
    &'a [&'a str],
    Option<&'a str>,
    Sources<'a>,
    &'a str,
    &'a str,
    u8,
);

/// What fails in a run, after this many successful calls.
#[derive(Drop)]
pub enum Failing {
    Nothing,
    Read(u64),
    Write(u64),
    Log(u64),
}

/// The devices of a run, and its status.
#[derive(Drop)]
pub struct Merge {
    pub shelf: TrialShelf,
    pub out: TrialSink,
    pub log: TrialSink,
    pub status: u8,
}

impl Merge {
    fn over(alloc: Global, texts: Sources) -> Result<Merge, AllocError> {
        let shelf = shelf_of(alloc, texts)?;
        let out = TrialSink::with_room(alloc, ROOM)?;
        let log = TrialSink::with_room(alloc, ROOM)?;
        Ok(Merge {
            shelf: TrialShelf::new(shelf),
            out,
            log,
            status: 0,
        })
    }

    fn weaken(&mut self, failing: Failing) {
        match failing {
            Failing::Nothing => {}
            Failing::Read(good) => {
                self.shelf.most = 3;
                self.shelf.fails_at = good.saturating_add(1);
            }
            Failing::Write(good) => {
                self.out.most = 2;
                self.out.fails_at = good.saturating_add(1);
            }
            Failing::Log(good) => {
                self.log.most = 2;
                self.log.fails_at = good.saturating_add(1);
            }
        }
    }

    fn run(&mut self, alloc: Global, program: Program, words: &[&str], inputs: Option<&str>) {
        match program {
            Program::Wmerge => self.run_wmerge(alloc, words, inputs),
            Program::Wdep => self.run_wdep(alloc, words, inputs),
        }
    }

    /// Runs over the devices. Failures are counted from here on.
    fn run_wmerge(&mut self, alloc: Global, words: &[&str], inputs: Option<&str>) {
        self.shelf.failed = 0;
        self.out.failed = 0;
        self.log.failed = 0;
        let (shelf, out, log) = (&mut self.shelf, &mut self.out, &mut self.log);
        self.status = run_wmerge(alloc, words, inputs, shelf, out, log);
    }

    /// Runs over the devices. Failures are counted from here on.
    fn run_wdep(&mut self, alloc: Global, words: &[&str], inputs: Option<&str>) {
        self.shelf.failed = 0;
        self.out.failed = 0;
        self.log.failed = 0;
        let (shelf, out, log) = (&mut self.shelf, &mut self.out, &mut self.log);
        self.status = run_wdep(alloc, words, inputs, shelf, out, log);
    }

    fn logs(&self, lines: &str) -> bool {
        self.log.bytes() == lines.as_bytes()
    }

    fn writes_prefix_of(&self, text: &str) -> bool {
        text.as_bytes().starts_with(self.out.bytes())
    }
}

/// A run over files in memory.
pub fn ran(
    alloc: Global,
    program: Program,
    run: &Run,
    failing: Failing,
) -> Result<Merge, AllocError> {
    let mut merge = Merge::over(alloc, run.2)?;
    merge.weaken(failing);
    merge.run(alloc, program, run.0, run.1);
    Ok(merge)
}

/// Checks the effect of a run.
fn check_left(rt: &impl Abort, left: &Merge, run: &Run) {
    same_bytes(rt, left.log.bytes(), run.4.as_bytes());
    same_bytes(rt, left.out.bytes(), run.3.as_bytes());
    holds(rt, left.status == run.5);
}

pub fn check_run(rt: &(impl Abort + AllocGlobal), program: Program, run: &Run) {
    let left = ran(rt.alloc(), program, run, Failing::Nothing).expect(rt, "memory");
    check_left(rt, &left, run);
    drop(left);
}

pub fn check_runs(rt: &(impl Abort + AllocGlobal), program: Program, runs: &[Run]) {
    for run in runs {
        check_run(rt, program, run);
    }
}

/// A run in which an allocation may fail, but nothing else.
pub fn check_refused(rt: &(impl Abort + AllocGlobal), program: Program, run: &Run) {
    if let Ok(left) = ran(rt.alloc(), program, run, Failing::Nothing) {
        check_left_refused(rt, &left, run);
        drop(left);
    }
}

fn check_left_refused(rt: &impl Abort, left: &Merge, run: &Run) {
    holds(rt, left.status == 1);
    if left.logs(run.4) {
        same_bytes(rt, left.out.bytes(), run.3.as_bytes());
    } else {
        same_bytes(rt, left.log.bytes(), b"! Out of memory\n");
        holds(rt, left.writes_prefix_of(run.3));
    }
}

/// A run in which a read fails after `good` ones: the output is a prefix, and the log has the line of one of two files.
/// Returns whether it was the first file, if a read failed.
pub fn check_read(
    rt: &(impl Abort + AllocGlobal),
    program: Program,
    run: &Run,
    lines: (&str, &str),
    good: u64,
) -> Option<bool> {
    let left = ran(rt.alloc(), program, run, Failing::Read(good)).expect(rt, "memory");
    let failed = check_left_of_read(rt, &left, run, lines);
    drop(left);
    failed
}

fn check_left_of_read(
    rt: &impl Abort,
    left: &Merge,
    run: &Run,
    lines: (&str, &str),
) -> Option<bool> {
    holds(rt, left.status == 1);
    if left.shelf.failed == 0 {
        check_left(rt, left, run);
        return None;
    }
    let is_of_first = left.logs(lines.0);
    holds(rt, is_of_first || left.logs(lines.1));
    holds(rt, left.writes_prefix_of(run.3));
    Some(is_of_first)
}

/// A run in which a write fails after `good` ones. Returns whether one failed.
pub fn check_write(
    rt: &(impl Abort + AllocGlobal),
    program: Program,
    run: &Run,
    good: u64,
) -> bool {
    let left = ran(rt.alloc(), program, run, Failing::Write(good)).expect(rt, "memory");
    let failed = check_left_of_write(rt, &left, run);
    drop(left);
    failed
}

fn check_left_of_write(rt: &impl Abort, left: &Merge, run: &Run) -> bool {
    if left.out.failed == 0 {
        check_left(rt, left, run);
        return false;
    }
    holds(rt, left.status == 1);
    same_bytes(rt, left.log.bytes(), b"! Write fault on standard output\n");
    holds(rt, left.writes_prefix_of(run.3));
    true
}

/// Runs whose log fails after more and more writes. Each writes a prefix of the log. `wmerge` writes the whole output
/// before, `wdep` writes it only after the log.
pub fn check_log_fails(rt: &(impl Abort + AllocGlobal), program: Program, run: &Run) {
    for good in 0..10 {
        let left = ran(rt.alloc(), program, run, Failing::Log(good)).expect(rt, "memory");
        check_left_of_log(rt, program, &left, run);
        drop(left);
    }
}

fn check_left_of_log(rt: &impl Abort, program: Program, left: &Merge, run: &Run) {
    holds(rt, left.status == 1);
    holds(rt, left.log.failed == 1);
    let written = match program {
        Program::Wmerge => run.3,
        Program::Wdep => "",
    };
    same_bytes(rt, left.out.bytes(), written.as_bytes());
    holds(rt, run.4.as_bytes().starts_with(left.log.bytes()));
}
