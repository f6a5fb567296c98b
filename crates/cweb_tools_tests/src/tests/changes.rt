// Runs with a change file.
use super::merging::{
    Program, Run, Sources, check_log_fails, check_read, check_refused, check_run, check_runs,
};
use super::wanted::holds;
use std::process::Abort;

/// The contents of `m.w`, `c.ch` and `inc.w`, and the expected output and log.
type Change<'a> = (&'a str, &'a str, &'a str, &'a str, &'a str);

/// Checks one run over `m.w`, `c.ch` and `inc.w`.
fn check_change(rt: &(impl Abort + AllocGlobal), change: &Change) {
    let texts: Sources = &[
        ("m.w", change.0.as_bytes()),
        ("c.ch", change.1.as_bytes()),
        ("inc.w", change.2.as_bytes()),
    ];
    let status = u8::from(!change.4.is_empty());
    check_run(
        rt,
        Program::Wmerge,
        &(&["m", "c"], None, texts, change.3, change.4, status),
    );
}

fn check_changes(rt: &(impl Abort + AllocGlobal), changes: &[Change]) {
    for change in changes {
        check_change(rt, change);
    }
}

#[test]
fn changes_that_match(rt: HostRuntime) {
    const CHANGES: &[Change] = &[
        // an include line is compared before it is executed
        (
            "A\n@i gone.w\nB\n",
            "@x\n@i gone.w\n@y\nnew\n@z\n",
            "",
            "A\nnew\nB\n",
            "",
        ),
        // a new line may include a file, whose lines don't match
        (
            "A\nB\n",
            "@x\nA\n@y\n@i inc.w\n@z\n@x\nB\n@y\nC\n@z\n",
            "B\n",
            "B\nC\n",
            "",
        ),
        // a change file without entries
        ("A\nB\n", "", "", "A\nB\n", ""),
        ("A\nB\n", "on this file\n", "", "A\nB\n", ""),
    ];
    check_changes(&rt, CHANGES);
}

#[test]
fn faults_of_change_files(rt: HostRuntime) {
    const CHANGES: &[Change] = &[
        // old lines across the end of an included file
        (
            "@i inc.w\nL2\nL3\n",
            "@x\nI2\nLX\n@y\nN\n@z\n",
            "I1\nI2\n",
            "I1\nN\nL3\n",
            "c.ch:1: ! Lines that failed to match: 1\n",
        ),
        (
            "A\n",
            "@x\n",
            "",
            "A\n",
            "c.ch:1: ! No old lines after @x\n",
        ),
        (
            "A\n",
            "@x\nZ\n@y\n@z\n",
            "",
            "A\n",
            "c.ch:1: ! Change entry did not match\n",
        ),
        (
            "A\nB\n",
            "@y\n@x\nA\n@x\nQ\n@y\nN\n@y\nM\n@z\n",
            "",
            "N\nM\n",
            "c.ch:1: ! Missing @x in change file\nc.ch:4: ! Where is @y?\nc.ch:2: ! Lines that failed to match: 1\nc.ch:8: ! Where is @z?\n",
        ),
        // the change file ends, or the web does
        (
            "A\n",
            "@x\nA\nB\nC\n",
            "",
            "",
            "c.ch:1: ! Change file ended before @y\nc.ch:1: ! Web ended during a change\n",
        ),
        (
            "A\n",
            "@x\nA\n@y\nN\n",
            "",
            "N\n",
            "c.ch:1: ! Change file ended before @z\n",
        ),
    ];
    check_changes(&rt, CHANGES);
}

#[test]
fn files_that_are_not_there(rt: HostRuntime) {
    const HERE: Sources = &[("m.w", b"x\n"), ("n.web", b"x\n"), ("c.x.ch", b"")];
    const NO_CHANGE: &str = "! Cannot open change file gone.ch\n";
    const RUNS: &[Run] = &[
        (&["m", "gone"], None, HERE, "", NO_CHANGE, 1),
        (&["n", "gone"], None, HERE, "", NO_CHANGE, 1),
        // there is no second try
        (
            &["m", "c.x"],
            None,
            HERE,
            "",
            "! Cannot open change file c.x\n",
            1,
        ),
        // the web comes first
        (
            &["o", "gone"],
            None,
            HERE,
            "",
            "! Cannot open web file o.w\n",
            1,
        ),
    ];
    check_runs(&rt, Program::Wmerge, RUNS);
}

#[test]
fn a_change_file_is_sought_by_its_name_alone(rt: HostRuntime) {
    const RUN: Run = (
        &["m", "c"],
        Some("lib"),
        &[("m.w", b"x\n"), ("lib/c.ch", b"")],
        "",
        "! Cannot open change file c.ch\n",
        1,
    );
    check_run(&rt, Program::Wmerge, &RUN);
}

#[test]
fn a_line_of_a_change_file_too_long(rt: HostRuntime) {
    let change = "x".repeat(rt.alloc(), 1_048_576).expect(&rt, "memory");
    let stop = "! Line too long in c.ch\n";
    check_change(&rt, &("A\n", change.as_str(), "", "", stop));
}

const SOURCES: Sources = &[
    ("m.w", b"one\ntwo\nthree\n@i gone\n"),
    ("c.ch", b"@x\ntwo\n@y\n2\n@z\n@x\nfour\n@y\n@z\n"),
];

/// The run in which something fails, and its effect without failures.
const RUN: Run = (
    &["m", "c"],
    None,
    SOURCES,
    "one\n2\nthree\n",
    "m.w:4: ! Cannot open include file\nc.ch:6: ! Change entry did not match\n",
    1,
);

// Also run with each allocation failing in turn.
#[test]
fn memory_refused_in_a_change(rt: HostRuntime) {
    check_refused(&rt, Program::Wmerge, &RUN);
}

#[test]
fn a_read_fails_in_a_change(rt: HostRuntime) {
    const LINES: (&str, &str) = ("! Read fault on m.w\n", "! Read fault on c.ch\n");
    let mut in_web = false;
    let mut in_change = false;
    for good in 0..40 {
        let failed = check_read(&rt, Program::Wmerge, &RUN, LINES, good);
        in_web |= failed == Some(true);
        in_change |= failed == Some(false);
    }
    holds(&rt, in_web && in_change);
}

#[test]
fn the_log_fails_without_a_change_file(rt: HostRuntime) {
    const GONE: Run = (
        &["m", "gone"],
        None,
        SOURCES,
        "",
        "! Cannot open change file gone.ch\n",
        1,
    );
    check_log_fails(&rt, Program::Wmerge, &GONE);
}
