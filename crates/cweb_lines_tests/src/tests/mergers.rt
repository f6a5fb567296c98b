// Only these functions own a merger and the buffers of a case. Cases borrow them, which makes their proofs smaller.
use super::*;
use std::process::Abort;
use trial::{TrialShelf, TrialSink};

/// The names that a merger is started with.
#[derive(Clone, Copy)]
pub struct Names<'a> {
    pub web: &'a str,
    pub second: Option<&'a str>,
    pub change: Option<&'a str>,
    pub inputs: Option<&'a str>,
}

/// The web `a.w` alone.
pub const WEB: Names<'static> = Names {
    web: "a.w",
    second: None,
    change: None,
    inputs: None,
};

/// The web `a.w` with the change file `c.ch`.
pub const CHANGED_WEB: Names<'static> = Names {
    web: "a.w",
    second: None,
    change: Some("c.ch"),
    inputs: None,
};

/// The buffers of a case: a line, what a merger reports, and what is written.
#[derive(Drop)]
pub struct Filled {
    pub line: Vec<u8>,
    pub reported: String,
    pub sink: TrialSink,
}

/// What is done with a started merger and its shelf.
pub trait Case<S: Shelf, E> {
    fn ask<A: Abort>(
        &mut self,
        rt: &A,
        merger: &mut Merger<S>,
        shelf: &mut S,
        filled: &mut Filled,
    ) -> Result<(), E>;
}

/// Starts a merger for a case.
pub fn merge<S: Shelf, E: From<Stop>, C: Case<S, E>>(
    rt: &(impl AllocGlobal + Abort),
    shelf: &mut S,
    names: &Names<'_>,
    case: &mut C,
) -> Result<(), E> {
    let Names {
        web,
        second,
        change,
        inputs,
    } = *names;
    let mut merger = Merger::start(rt.alloc(), shelf, web, second, change, inputs)?;
    ask_filling(rt, &mut merger, shelf, case)
}

fn ask_filling<S: Shelf, E, C: Case<S, E>>(
    rt: &(impl AllocGlobal + Abort),
    merger: &mut Merger<S>,
    shelf: &mut S,
    case: &mut C,
) -> Result<(), E> {
    let mut filled = Filled {
        line: Vec::new(rt.alloc()),
        reported: String::new(rt.alloc()),
        sink: TrialSink::new(rt.alloc()),
    };
    case.ask(rt, merger, shelf, &mut filled)
}

/// Starts a merger with these files in memory.
pub fn merge_files<E: From<Stop> + From<AllocError>, C: Case<MemoryShelf, E>>(
    rt: &(impl AllocGlobal + Abort),
    files: &[(&str, &[u8])],
    names: &Names<'_>,
    case: &mut C,
) -> Result<(), E> {
    let mut shelf = shelf_of(rt.alloc(), files)?;
    merge(rt, &mut shelf, names, case)
}

/// Starts a merger with limited reads. One of them fails.
pub fn merge_reads<C: Case<TrialShelf, Fail>>(
    rt: &(impl AllocGlobal + Abort),
    files: &[(&str, &[u8])],
    names: &Names<'_>,
    most: usize,
    fails_at: u64,
    case: &mut C,
) -> Result<(), Fail> {
    let mut shelf = TrialShelf::new(shelf_of(rt.alloc(), files)?);
    shelf.most = most;
    shelf.fails_at = fails_at;
    merge(rt, &mut shelf, names, case)
}

// Does nothing with a merger.
#[derive(Clone, Copy)]
struct Unasked;

impl<S: Shelf> Case<S, Stop> for Unasked {
    fn ask<A: Abort>(
        &mut self,
        _: &A,
        _: &mut Merger<S>,
        _: &mut S,
        _: &mut Filled,
    ) -> Result<(), Stop> {
        Ok(())
    }
}

/// No merger starts under these names: each has its stop.
pub fn are_refused(
    rt: &(impl AllocGlobal + Abort),
    files: &[(&str, &[u8])],
    examples: &[(Names<'_>, Stop)],
) {
    for (names, stop) in examples {
        let started = merge_files(rt, files, names, &mut Unasked);
        ends(rt, started, Err(*stop));
    }
}
