// What no clause says: worked examples, the limits, and devices that fail, take little at once or never end.
mod ahead;
mod changed_files;
mod changed_lines;
mod changes;
mod chunk_edges;
mod chunked_changes;
mod chunks;
mod devices;
mod failing;
mod failing_writes;
mod files;
mod limits;
mod mergers;
mod wanted;
mod webs;

ghost use Rattle.std.specs.Prelude.{◌+◌, ◌<◌, ◌^◌};

use cweb_lines::*;
use mergers::*;
use std::alloc::{AllocError, Global};
use std::process::Abort;
use std::test::Fail;
use trial::{TrialSink, shelf_of};
use wanted::*;

/// Appends the count of a fault, if it has one, and ends its line.
fn describe_count(reported: &mut String, count: u32) -> Result<(), Fail> {
    if count > 0 {
        write!(reported, ": {count}")?;
    }
    reported.push('\n')?;
    Ok(())
}

/// Appends a fault as a line.
fn describe_fault(reported: &mut String, fault: &SourceFault) -> Result<(), Fail> {
    let place = fault.place;
    write!(
        reported,
        "{:?} in {} at {}",
        fault.kind, place.file.0, place.line
    )?;
    describe_count(reported, fault.count)
}

/// Appends the faults so far, one per line.
fn describe_faults<S: Shelf>(reported: &mut String, merger: &Merger<S>) -> Result<(), Fail> {
    for fault in merger.faults() {
        describe_fault(reported, fault)?;
    }
    Ok(())
}

/// Appends the names of the files from number `from` on, one per line.
fn describe_names<S: Shelf>(
    reported: &mut String,
    merger: &Merger<S>,
    from: u32,
) -> Result<(), Fail> {
    let names = merger.names();
    for i in from..names.count() {
        writeln!(reported, "{} is {}", i, names.get(FileId(i)))?;
    }
    Ok(())
}

/// Checks the faults and file names that a merger reports.
fn reports<S: Shelf>(
    rt: &impl Abort,
    merger: &Merger<S>,
    reported: &mut String,
    want: &str,
) -> Result<(), Fail> {
    reported.clear();
    describe_faults(reported, merger)?;
    describe_names(reported, merger, 0)?;
    same_string(rt, reported.as_str(), want);
    Ok(())
}

/// Writes the rest of a merge to a sink that has failed at most once.
fn write_all<S: Shelf>(
    rt: &impl Abort,
    merger: &mut Merger<S>,
    shelf: &mut S,
    sink: &mut TrialSink,
) -> Result<(), Stop>
    requires { (S.model shelf.old).failed + 1 < 2 ^ 64 }
{
    holds(rt, sink.failed < 2);
    write_merged(merger, shelf, sink)
}

/// Writes the rest of a merge in chunks of `room` bytes.
fn write_buffered<S: Shelf>(
    rt: &impl Abort,
    merger: &mut Merger<S>,
    shelf: &mut S,
    sink: &mut TrialSink,
    room: usize,
) -> Result<(), Stop>
    requires { (S.model shelf.old).failed + 1 < 2 ^ 64 }
{
    holds(rt, sink.failed < 2);
    write_merged_in_chunks(merger, shelf, sink, room)
}

/// Checks the rest of a merge.
fn writes(
    rt: &impl Abort,
    merger: &mut Merger<MemoryShelf>,
    shelf: &mut MemoryShelf,
    sink: &mut TrialSink,
    want: &[u8],
) -> Result<(), Fail> {
    sink.bytes.clear();
    write_all(rt, merger, shelf, sink)?;
    same_bytes(rt, &sink.bytes, want);
    Ok(())
}
