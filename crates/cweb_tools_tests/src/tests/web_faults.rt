// Log lines for the faults of a web's files and source.
use super::wanted::{holds, same_bytes};
use cweb_lines::{FileId, FileNames, MemoryShelf, Merger, Place, SourceFault, SourceKind, Stop};
use cweb_rules::{ScanFault, ScanKind};
use cweb_tools::{LogText, write_log};
use std::alloc::Global;
use std::process::Abort;
use trial::{TrialSink, shelf_of};

const FAULT: ScanFault = ScanFault {
    kind: ScanKind::StringDidNotEnd,
    place: Place {
        file: FileId(0),
        line: 12,
    },
};

const LINES: &[u8] = b"u.w:12: ! String did not end\nu.w:12: ! String did not end\n";

const SOURCE_FAULT: SourceFault = SourceFault {
    kind: SourceKind::Unequal,
    place: Place {
        file: FileId(0),
        line: 7,
    },
    count: 3,
};

const SOURCE_LINES: &[u8] =
    b"u.w:7: ! Lines that failed to match: 3\nu.w:7: ! Lines that failed to match: 3\n";

fn check_lines(rt: &(impl Abort + AllocGlobal), names: &FileNames) {
    let mut log = TrialSink::new(rt.alloc());
    let text = LogText::ScanFaults(names, &[FAULT, FAULT]);
    holds(rt, write_log(&mut log, text).is_ok());
    same_bytes(rt, log.bytes(), LINES);
}

fn check_source_lines(rt: &(impl Abort + AllocGlobal), names: &FileNames) {
    let mut log = TrialSink::new(rt.alloc());
    let text = LogText::SourceFaults(names, &[SOURCE_FAULT, SOURCE_FAULT]);
    holds(rt, write_log(&mut log, text).is_ok());
    same_bytes(rt, log.bytes(), SOURCE_LINES);
}

fn begun(alloc: Global) -> Result<Merger<MemoryShelf>, Stop> {
    let mut shelf = shelf_of(alloc, &[("u.w", b"")])?;
    Merger::start(alloc, &mut shelf, "u.w", None, None, None)
}

#[test]
fn lines_of_scan_faults(rt: HostRuntime) {
    let merger = begun(rt.alloc()).expect(&rt, "a web");
    check_lines(&rt, merger.names());
    drop(merger);
}

#[test]
fn lines_of_source_faults(rt: HostRuntime) {
    let merger = begun(rt.alloc()).expect(&rt, "a web");
    check_source_lines(&rt, merger.names());
    drop(merger);
}
