// Bins in memory.
use super::wanted::{holds, same_number};
use cweb_files::Sink;
use cweb_out::{BinFault, BinFile, Bins, MemoryBins};
use std::process::Abort;

// Begins a file, writes chunks, and commits or abandons it. Returns false if a call failed.
fn put<B: Bins>(bins: &mut B, name: &str, chunks: &[&[u8]], commits: bool) -> bool {
    if bins.failures() >= 1000 || bins.start_file(name).is_err() {
        return false;
    }
    for piece in chunks {
        if bins.failures() >= 1000 || bins.write(piece).is_err() {
            return false;
        }
    }
    if !commits {
        bins.abandon_file();
        return true;
    }
    bins.failures() < 1000 && bins.commit_file().is_ok()
}

// Whether the files are these, in this order.
fn has_files(bins: &MemoryBins, files: &[(&str, &[u8])]) -> bool {
    if bins.files().len() != files.len() {
        return false;
    }
    for (file, (name, bytes)) in bins.files().iter().zip(files) {
        if !is_file(file, name, bytes) {
            return false;
        }
    }
    true
}

fn is_file(file: &BinFile, name: &str, bytes: &[u8]) -> bool {
    file.name.as_str() == name && file.bytes.as_slice() == bytes
}

// A file is replaced, and others stay.
fn replaces(rt: &impl Abort, bins: &mut MemoryBins) {
    holds(rt, put(bins, "a.c", &[b"old"], true));
    holds(rt, put(bins, "b.c", &[], true));
    holds(rt, put(bins, "a.c", &[b"new", b"er"], true));
    holds(rt, has_files(bins, &[("b.c", b""), ("a.c", b"newer")]));
}

#[test]
fn a_committed_draft_takes_the_place_of_the_file_of_its_name(rt: HostRuntime) {
    let mut bins = MemoryBins::with_room(rt.alloc(), 2, 8).expect(&rt, "memory");
    replaces(&rt, &mut bins);
}

fn abandons(rt: &impl Abort, bins: &mut MemoryBins) {
    holds(rt, put(bins, "a.c", &[b"old"], true));
    holds(rt, put(bins, "a.c", &[b"new"], false));
    holds(rt, has_files(bins, &[("a.c", b"old")]));
}

// An open draft is abandoned when another one begins.
fn leaves_open(rt: &impl Abort, bins: &mut MemoryBins) {
    if bins.failures() < 1000 {
        holds(rt, bins.start_file("b.c").is_ok());
    }
    holds(rt, put(bins, "c.c", &[b"c"], true));
    holds(rt, has_files(bins, &[("a.c", b"old"), ("c.c", b"c")]));
}

#[test]
fn an_abandoned_draft_leaves_the_files(rt: HostRuntime) {
    let mut bins = MemoryBins::with_room(rt.alloc(), 1, 8).expect(&rt, "memory");
    abandons(&rt, &mut bins);
    leaves_open(&rt, &mut bins);
}

fn fails_without_a_draft(rt: &impl Abort, bins: &mut MemoryBins) {
    if bins.failures() < 1000 {
        holds(rt, bins.write(b"x").is_err());
    }
    if bins.failures() < 1000 {
        holds(rt, bins.commit_file() == Err(BinFault::Device));
    }
    bins.abandon_file();
    same_number(rt, bins.failures(), 2);
    holds(rt, bins.files().is_empty());
}

#[test]
fn without_a_draft_writes_and_commits_fail(rt: HostRuntime) {
    let mut bins = MemoryBins::with_room(rt.alloc(), 1, 8).expect(&rt, "memory");
    fails_without_a_draft(&rt, &mut bins);
}

// Whether a file is the expected one of its name.
fn is_whole(file: &BinFile, has_a: bool, has_b: bool) -> bool {
    match file.name.as_str() {
        "a.c" => has_a && file.bytes.as_slice() == b"old".as_slice(),
        _ => has_b && file.bytes.as_slice() == b"b".as_slice(),
    }
}

fn are_whole(rt: &impl Abort, bins: &MemoryBins, has_a: bool, has_b: bool) {
    let count = bins.files().len();
    holds(rt, count == has_a as usize + has_b as usize);
    for file in bins.files() {
        holds(rt, is_whole(file, has_a, has_b));
    }
}

// If an allocation fails, each call succeeds or changes no file.
#[test]
fn a_refused_growth_leaves_the_files(rt: HostRuntime) {
    let mut bins = MemoryBins::with_room(rt.alloc(), 0, 0).expect(&rt, "memory");
    let has_a = put(&mut bins, "a.c", &[b"old"], true);
    let has_b = put(&mut bins, "b.c", &[b"b"], true);
    are_whole(&rt, &bins, has_a, has_b);
}
