// Runs of `wmerge` over files in memory and over failing devices.
use super::merging::{
    Program, Run, Sources, check_log_fails, check_read, check_refused, check_run, check_runs,
    check_write,
};
use super::wanted::{holds, same_bytes};
use cweb_lines::{FileId, Stop};
use cweb_tools::{LogLine, LogText, write_log};
use std::process::Abort;
use trial::TrialSink;

const USAGE: &str = "! Usage: wmerge webfile[.w] [{changefile[.ch]|-}]\n";

#[test]
fn merged_lines_and_their_log(rt: HostRuntime) {
    const RUNS: &[Run] = &[
        // blanks at line ends are dropped, and the last line may lack its newline
        (&["a"], None, &[("a.w", b"x \r\n\ny\t")], "x\n\ny\n", "", 0),
        (&["a"], None, &[("a.w", b"")], "", "", 0),
        // the second name is tried if the first isn't there and the word has no extension
        (&["a"], None, &[("a.web", b"x\n")], "x\n", "", 0),
        (
            &["a.w"],
            None,
            &[("a.w.web", b"x\n")],
            "",
            "! Cannot open web file a.w\n",
            1,
        ),
        (
            &["gone"],
            None,
            &[],
            "",
            "! Cannot open web file gone.w\n",
            1,
        ),
        (&[], None, &[], "", USAGE, 1),
        (&["-"], None, &[("-.w", b"x\n")], "", USAGE, 1),
        (&["-h"], None, &[], "", USAGE, 1),
        (&["+"], None, &[("+.w", b"x\n")], "x\n", "", 0),
    ];
    check_runs(&rt, Program::Wmerge, RUNS);
}

#[test]
fn included_files(rt: HostRuntime) {
    const RUNS: &[Run] = &[
        (
            &["a"],
            Some("lib"),
            &[
                ("a.w", b"one\n@i b.w\nthree\n@i gone\n@i\n"),
                ("lib/b.w", b"two\n"),
            ],
            "one\ntwo\nthree\n",
            "a.w:4: ! Cannot open include file\na.w:5: ! Include file name not given\n",
            1,
        ),
        // an empty folder name means that no folder is searched
        (
            &["a"],
            Some(""),
            &[("a.w", b"@i b.w\n"), ("/b.w", b"two\n")],
            "",
            "a.w:1: ! Cannot open include file\n",
            1,
        ),
        // a file that includes itself, twenty deep
        (
            &["a"],
            None,
            &[("a.w", b"P\n@i a.w\nQ\n")],
            "P\nP\nP\nP\nP\nP\nP\nP\nP\nP\nP\nP\nP\nP\nP\nP\nP\nP\nP\nP\nQ\nQ\nQ\nQ\nQ\nQ\nQ\nQ\nQ\nQ\nQ\nQ\nQ\nQ\nQ\nQ\nQ\nQ\nQ\nQ\n",
            "a.w:2: ! Too many nested includes\n",
            1,
        ),
    ];
    check_runs(&rt, Program::Wmerge, RUNS);
}

fn check_long(rt: &(impl Abort + AllocGlobal), line: &str) {
    let web = ["short\n", line].concat(rt.alloc()).expect(rt, "memory");
    let texts: Sources = &[("long.w", web.as_bytes())];
    let stop = "! Line too long in long.w\n";
    check_run(
        rt,
        Program::Wmerge,
        &(&["long"], None, texts, "short\n", stop, 1),
    );
}

#[test]
fn a_line_too_long(rt: HostRuntime) {
    let line = "x".repeat(rt.alloc(), 1_048_576).expect(&rt, "memory");
    check_long(&rt, line.as_str());
}

fn check_stop(rt: &(impl Abort + AllocGlobal), stop: Stop, line: &str) {
    let mut log = TrialSink::new(rt.alloc());
    let text = LogText::Line(LogLine::Stopped(stop, "n"));
    holds(rt, write_log(&mut log, text).is_ok());
    same_bytes(rt, log.bytes(), line.as_bytes());
}

#[test]
fn lines_of_stops(rt: HostRuntime) {
    const STOPS: &[(Stop, &str)] = &[
        (Stop::Usage, "! Usage: n\n"),
        (Stop::WebNotOpened, "! Cannot open web file n\n"),
        (Stop::ChangeNotOpened, "! Cannot open change file n\n"),
        (Stop::ReadFault(FileId(1)), "! Read fault on n\n"),
        (Stop::LineTooLong(FileId(1)), "! Line too long in n\n"),
        (Stop::TooMuchText, "! Too much text\n"),
        (Stop::Memory, "! Out of memory\n"),
        (Stop::OutNotOpened, "! Cannot open output file n\n"),
        (Stop::WriteFault, "! Write fault on n\n"),
        (Stop::LogFault, ""),
    ];
    for (stop, line) in STOPS {
        check_stop(&rt, *stop, *line);
    }
}

/// The run in which something fails, and its effect without failures.
const RUN: Run = (
    &["a"],
    Some("lib"),
    &[
        ("a.w", b"one\n@i b.w\nthree\n@i gone\n"),
        ("lib/b.w", b"two\n"),
    ],
    "one\ntwo\nthree\n",
    "a.w:4: ! Cannot open include file\n",
    1,
);

// Also run with each allocation failing in turn.
#[test]
fn memory_refused(rt: HostRuntime) {
    check_refused(&rt, Program::Wmerge, &RUN);
}

#[test]
fn a_read_fails(rt: HostRuntime) {
    const LINES: (&str, &str) = ("! Read fault on a.w\n", "! Read fault on lib/b.w\n");
    let mut last_fault = 0;
    for good in 0..20 {
        if check_read(&rt, Program::Wmerge, &RUN, LINES, good).is_some() {
            last_fault = good;
        }
    }
    holds(&rt, last_fault > 5);
}

#[test]
fn a_write_fails(rt: HostRuntime) {
    const COPIED: Run = (
        &["a"],
        None,
        &[("a.w", b"one\ntwo\nthree\n")],
        "one\ntwo\nthree\n",
        "",
        0,
    );
    let mut last_fault = 0;
    for good in 0..20 {
        if check_write(&rt, Program::Wmerge, &COPIED, good) {
            last_fault = good;
        }
    }
    holds(&rt, last_fault == 6);
}

#[test]
fn the_log_fails(rt: HostRuntime) {
    check_log_fails(&rt, Program::Wmerge, &RUN);
}
