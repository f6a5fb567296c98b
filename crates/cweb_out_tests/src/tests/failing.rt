// Failing sinks and allocations.
ghost use Rattle.cweb_out.specs.surface.Outputs.{IsPlanOf};

use super::buffering::print_all_buffered;
use super::cases::{Case, check_files};
use super::reports::print_file;
use super::wanted::{holds, same_bytes, same_number};
use cweb_files::{Sink, SinkFault};
use cweb_lines::FileNames;
use cweb_out::{BinFault, Bins, Expander, MemoryBins, Plan, plan};
use cweb_store::Store;
use std::alloc::{AllocError, Global};
use std::process::Abort;
use trial::TrialSink;

const NAME: &str = "s\".w";

// A web with tokens of every kind, and its expected output.
const FILE: &[u8] =
    b"# wM _ n1 $ l\"x\" # wN : [1 m1 $ wx\xc3 p- p- n10 v@ & _ wa h <A m12345 p; $ ]1 =A [2 wb <B ]2 =B l'c'";

const PRINTED: &[u8] =
    b"/*1:*/\n#line 1 \"s\\\".w\"\n\nxXC3- -10@a\n#define M 1 \\\n\"x\"\n#define N\n/*2:*/b 'c'/*:2*/\n#line 12345 \"s\\\".w\"\n;\n/*:1*/\n";

// Prints the web's main file to a sink that fails after `good` writes. Returns whether all was printed.
fn print(
    rt: &impl Abort,
    alloc: Global,
    store: &Store,
    names: &FileNames,
    buffers: bool,
    good: u64,
) -> Result<bool, AllocError> {
    match plan(alloc, store, "s.c") {
        Ok(plan) => print_plan(rt, alloc, store, &plan, names, buffers, good),
        Err(_) => Err(AllocError),
    }
}

fn print_plan(
    rt: &impl Abort,
    alloc: Global,
    store: &Store,
    plan: &Plan,
    names: &FileNames,
    buffers: bool,
    good: u64,
) -> Result<bool, AllocError>
    requires { IsPlanOf store.now plan.now }
{
    holds(rt, plan.outputs() > 0);
    let mut expander = Expander::new(alloc, store, plan, 0)?;
    let mut out = TrialSink::failing_after(alloc, 1000, good)?;
    let printed = if buffers {
        print_all_buffered(rt, alloc, &mut expander, names, &mut out)?
    } else {
        print_file(rt, &mut expander, names, &mut out)
    };
    Ok(is_whole(rt, printed, &out))
}

// The sink has all bytes, or a prefix of them if a write failed. Returns whether it has all.
fn is_whole(rt: &impl Abort, printed: Result<(), SinkFault>, out: &TrialSink) -> bool {
    if printed.is_ok() {
        same_bytes(rt, out.bytes(), PRINTED);
        same_number(rt, out.failed, 0);
        return true;
    }
    holds(rt, PRINTED.starts_with(out.bytes()));
    holds(rt, out.bytes().len() < PRINTED.len());
    same_number(rt, out.failed, 1);
    false
}

// Prints again if an allocation failed.
fn prints_all(
    rt: &impl Abort,
    alloc: Global,
    store: &Store,
    names: &FileNames,
    buffers: bool,
    good: u64,
) -> bool {
    let printed = match print(rt, alloc, store, names, buffers, good) {
        Err(_) => print(rt, alloc, store, names, buffers, good),
        printed => printed,
    };
    printed.expect(rt, "memory, or a plan")
}

// The number of writes that fail, each in turn, until all is printed.
fn faults_of(
    rt: &impl Abort,
    alloc: Global,
    store: &Store,
    names: &FileNames,
    buffers: bool,
) -> usize {
    let mut faults: usize = 0;
    for good in 0..1000 {
        if prints_all(rt, alloc, store, names, buffers, good) {
            break;
        }
        faults = faults.saturating_add(1);
    }
    faults
}

// Token by token, there are more failing writes than chunks of two bytes.
#[derive(Drop)]
struct TokenByToken;

impl Case for TokenByToken {
    fn look<A: Abort>(&self, rt: &A, alloc: Global, store: &Store, names: &FileNames) {
        let faults = faults_of(rt, alloc, store, names, false);
        holds(rt, faults > PRINTED.len() / 2);
        holds(rt, faults < 1000);
    }
}

// Also run by `rt try --test --fail-alloc N`, which fails the Nth growth. No token changes then.
#[test]
fn a_prefix_is_written_up_to_a_fault(rt: HostRuntime) {
    check_files(&rt, rt.alloc(), (NAME, None), FILE, &TokenByToken);
}

// Buffered, all is one chunk. The sink takes two bytes of it per write.
#[derive(Drop)]
struct InOneFlush;

impl Case for InOneFlush {
    fn look<A: Abort>(&self, rt: &A, alloc: Global, store: &Store, names: &FileNames) {
        let faults = faults_of(rt, alloc, store, names, true);
        holds(rt, faults == PRINTED.len() / 2 + PRINTED.len() % 2);
    }
}

#[test]
fn a_prefix_of_the_buffer_is_written(rt: HostRuntime) {
    check_files(&rt, rt.alloc(), (NAME, None), FILE, &InOneFlush);
}

// Begins a file, again after a failed allocation, which must not change the bins.
fn start(rt: &impl Abort, bins: &mut MemoryBins, name: &str) {
    holds(rt, bins.failures() == 0);
    if let Err(fault) = bins.start_file(name) {
        holds(rt, fault == BinFault::Memory);
        holds(rt, bins.failures() == 0);
        holds(rt, bins.files().is_empty());
        holds(rt, bins.start_file(name).is_ok());
    }
}

// Writes a file byte by byte.
fn write_each(rt: &impl Abort, bins: &mut MemoryBins, bytes: &[u8]) {
    for byte in bytes {
        holds(rt, bins.failures() == 0);
        holds(rt, bins.write(&[*byte]) == Ok(1));
    }
}

fn is_committed(rt: &impl Abort, bins: &mut MemoryBins) {
    holds(rt, bins.failures() == 0);
    holds(rt, bins.commit_file().is_ok());
    holds(rt, bins.files().len() == 1);
    for file in bins.files() {
        same_bytes(rt, &file.bytes, PRINTED);
    }
}

// Bins with room for one string and no file.
fn small_bins(alloc: Global) -> Result<MemoryBins, AllocError> {
    match MemoryBins::with_room(alloc, 0, PRINTED.len()) {
        Ok(bins) => Ok(bins),
        Err(_) => MemoryBins::with_room(alloc, 0, PRINTED.len()),
    }
}

#[test]
fn memory_that_is_refused_for_a_file(rt: HostRuntime) {
    let mut bins = small_bins(rt.alloc()).expect(&rt, "memory");
    start(&rt, &mut bins, "s.c");
    write_each(&rt, &mut bins, PRINTED);
    is_committed(&rt, &mut bins);
}
