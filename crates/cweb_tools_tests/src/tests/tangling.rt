// Runs of `ctangle` over files in memory. A run's effect is one string: the log, each file after its name, the status.
use super::expected::Expected;
use super::failing::FailingBins;
use super::wanted::{holds, same_bytes};
use cweb_out::{BinFile, MemoryBins};
use cweb_tools::run_ctangle;
use std::alloc::{AllocError, Global};
use std::process::Abort;
use trial::{TrialShelf, TrialSink, shelf_of};

/// The room for a log and for each file: more than any test needs.
pub const ROOM: usize = 4096;

/// The number of files that have room.
const FILES: usize = 8;

/// The devices of a run, and its status. No device fails unless it is set to.
#[derive(Drop)]
pub struct Tangle {
    pub shelf: TrialShelf,
    pub bins: FailingBins,
    pub log: TrialSink,
    pub status: u8,
}

impl Tangle {
    pub fn over(alloc: Global, texts: &[(&str, &[u8])]) -> Result<Tangle, AllocError> {
        let shelf = shelf_of(alloc, texts)?;
        let bins = MemoryBins::with_room(alloc, FILES, ROOM)?;
        let log = TrialSink::with_room(alloc, ROOM)?;
        Ok(Tangle {
            shelf: TrialShelf::new(shelf),
            bins: FailingBins::new(bins),
            log,
            status: 0,
        })
    }

    /// Runs over the devices. Failures are counted from here on.
    pub fn run(&mut self, alloc: Global, words: &[&str]) {
        self.shelf.failed = 0;
        self.bins.failed = 0;
        self.log.failed = 0;
        self.status = run_ctangle(
            alloc,
            words,
            None,
            &mut self.shelf,
            &mut self.bins,
            &mut self.log,
        );
    }

    /// Compares the files and the status.
    pub fn feed_files(&self, expected: &mut Expected) {
        for file in self.bins.bins.files() {
            feed_file(file, expected);
        }
        expected.feed(if self.status == 0 {
            b"== 0\n"
        } else {
            b"== 1\n"
        });
    }
}

fn feed_file(file: &BinFile, expected: &mut Expected) {
    expected.feed(b"== ");
    expected.feed(file.name.as_bytes());
    expected.feed(b"\n");
    expected.feed(&file.bytes);
}

/// The effect of a run over files in memory.
fn tangled(alloc: Global, words: &[&str], texts: &[(&str, &[u8])]) -> Result<Tangle, AllocError> {
    let mut run = Tangle::over(alloc, texts)?;
    run.run(alloc, words);
    Ok(run)
}

/// The words of a run, its files, and its expected effect.
pub type Run<'a> = (&'a [&'a str], &'a [(&'a str, &'a [u8])], &'a str);

/// Checks the effect of a run. On failure the rest of the expected string is printed.
fn check_left(rt: &impl Abort, run: &Tangle, text: &str) {
    let mut expected = Expected::new(text.as_bytes());
    expected.feed(run.log.bytes());
    run.feed_files(&mut expected);
    same_bytes(rt, expected.rest, b"");
    holds(rt, expected.is_met());
}

pub fn check_run(rt: &(impl Abort + AllocGlobal), run: &Run) {
    let left = tangled(rt.alloc(), run.0, run.1).expect(rt, "memory");
    check_left(rt, &left, run.2);
    drop(left);
}

pub fn check_runs(rt: &(impl Abort + AllocGlobal), runs: &[Run]) {
    for run in runs {
        check_run(rt, run);
    }
}
