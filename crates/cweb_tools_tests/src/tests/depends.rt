// Runs of `wdep` over files in memory and over failing devices.
use super::merging::{
    Program, Run, check_log_fails, check_read, check_refused, check_runs, check_write,
};
use super::wanted::holds;

const USAGE: &str = "! Usage: wdep [options] webfile[.w] [{changefile[.ch]|-} [outfile[.c]]]\n";

#[test]
fn outputs_and_inputs_in_order(rt: HostRuntime) {
    const RUNS: &[Run] = &[
        (
            &["a"],
            None,
            &[("a.w", b"@ T.\n@c\nint x;\n")],
            "a.c: a.w\n",
            "",
            0,
        ),
        // options have no effect, and the third word names the main output
        (
            &["-bph", "+s", "a", "-", "b"],
            None,
            &[("a.w", b"@* T.\n@c\nint x;\n")],
            "b.c: a.w\n",
            "",
            0,
        ),
        // the second name of the web, and outputs of their own
        (
            &["a"],
            None,
            &[(
                "a.web",
                b"@ T.\n@c\n@<V@>\n@ @<V@>=\nv\n@ @(a.h@>=\nh\n@ @(s/b.h@>=\nb\n",
            )],
            "a.c a.h s/b.h: a.web\n",
            "",
            0,
        ),
        // a file that is included twice, nested files, and one from the folder of included files
        (
            &["a"],
            Some("lib"),
            &[
                ("a.w", b"@ T.\n@c\n@i b.w\n@i c.w\n@i b.w\n"),
                ("b.w", b"int b;\n"),
                ("lib/c.w", b"@i d.w\n"),
                ("d.w", b"int d;\n"),
            ],
            "a.c: a.w b.w lib/c.w d.w\nb.w:\nlib/c.w:\nd.w:\n",
            "",
            0,
        ),
        // a change file, whose new lines include a file
        (
            &["a", "a"],
            None,
            &[
                ("a.w", b"@ T.\n@c\nint x;\n"),
                ("a.ch", b"@x\nint x;\n@y\n@i n.w\n@z\n"),
                ("n.w", b"int n;\n"),
            ],
            "a.c: a.w a.ch n.w\na.ch:\nn.w:\n",
            "",
            0,
        ),
    ];
    check_runs(&rt, Program::Wdep, RUNS);
}

#[test]
fn names_as_make_reads_them(rt: HostRuntime) {
    const RUNS: &[Run] = &[(
        &["a b.w", "-", "o%\\%#:$.c"],
        None,
        &[
            (
                "a b.w",
                b"@ T.\n@c\n@i \"c\\\td\"\n@i \"e\\f\\\"\n@i \"g%\\\\\"\n",
            ),
            ("c\\\td", b""),
            ("e\\f\\", b""),
            ("g%\\\\", b""),
        ],
        "o\\%\\\\\\%\\#\\:$$.c: a\\ b.w c\\\\\\\td e\\f\\\\ g%\\\\ \nc\\\\\\\td:\ne\\f\\\\:\ng\\%\\\\\\\\:\n",
        "",
        0,
    )];
    check_runs(&rt, Program::Wdep, RUNS);
}

#[test]
fn long_lines_continue(rt: HostRuntime) {
    const RUNS: &[Run] = &[
        // 78 bytes fit
        (
            &["a"],
            None,
            &[
                (
                    "a.w",
                    b"@ T.\n@c\n@i a234567890123456789012345678901234567890123456789012345678901234567.w\n@i b\n",
                ),
                (
                    "a234567890123456789012345678901234567890123456789012345678901234567.w",
                    b"",
                ),
                ("b", b""),
            ],
            "a.c: a.w a234567890123456789012345678901234567890123456789012345678901234567.w \\\n b\na234567890123456789012345678901234567890123456789012345678901234567.w:\nb:\n",
            "",
            0,
        ),
        (
            &["a"],
            None,
            &[
                (
                    "a.w",
                    b"@ T.\n@c\n@i a2345678901234567890123456789012345678901234567890123456789012345678.w\n",
                ),
                (
                    "a2345678901234567890123456789012345678901234567890123456789012345678.w",
                    b"",
                ),
            ],
            "a.c: a.w \\\n a2345678901234567890123456789012345678901234567890123456789012345678.w\na2345678901234567890123456789012345678901234567890123456789012345678.w:\n",
            "",
            0,
        ),
    ];
    check_runs(&rt, Program::Wdep, RUNS);
}

#[test]
fn faults_and_refused_plans(rt: HostRuntime) {
    const RUNS: &[Run] = &[
        (
            &["a"],
            None,
            &[("a.w", b"@ T.\n")],
            "a.c: a.w\n",
            "! No program text\n",
            0,
        ),
        (
            &["a"],
            None,
            &[("a.w", b"@ T.\n@c\n@i gone\n@<V@>\n")],
            "a.c: a.w\n",
            "a.w:3: ! Cannot open include file\n! Not present: <V>\n",
            1,
        ),
        (
            &["a"],
            None,
            &[("a.w", b"@ T.\n@c\n@<V@>\n@ @<V@>=\n@<V@>\n")],
            "",
            "! Cycle: <V> <V>\n",
            1,
        ),
        (&[], None, &[], "", USAGE, 1),
        (
            &["gone"],
            None,
            &[],
            "",
            "! Cannot open web file gone.w\n",
            1,
        ),
        (
            &["a", "gone"],
            None,
            &[("a.w", b"")],
            "",
            "! Cannot open change file gone.ch\n",
            1,
        ),
    ];
    check_runs(&rt, Program::Wdep, RUNS);
}

/// The run in which something fails, and its effect without failures.
const RUN: Run = (
    &["a"],
    None,
    &[
        ("a.w", b"@ T.\n@c\n@i b.w\n@i gone\n"),
        ("b.w", b"int b;\n"),
    ],
    "a.c: a.w b.w\nb.w:\n",
    "a.w:4: ! Cannot open include file\n",
    1,
);

// Also run with each allocation failing in turn.
#[test]
fn memory_refused_to_wdep(rt: HostRuntime) {
    check_refused(&rt, Program::Wdep, &RUN);
}

#[test]
fn a_read_of_wdep_fails(rt: HostRuntime) {
    const LINES: (&str, &str) = ("! Read fault on a.w\n", "! Read fault on b.w\n");
    let mut last_fault = 0;
    for good in 0..20 {
        if check_read(&rt, Program::Wdep, &RUN, LINES, good).is_some() {
            last_fault = good;
        }
    }
    holds(&rt, last_fault > 5);
}

#[test]
fn a_write_of_wdep_fails(rt: HostRuntime) {
    const CLEAN: Run = (
        &["a"],
        None,
        &[("a.w", b"@ T.\n@c\nint x;\n")],
        "a.c: a.w\n",
        "",
        0,
    );
    let mut last_fault = 0;
    for good in 0..20 {
        if check_write(&rt, Program::Wdep, &CLEAN, good) {
            last_fault = good;
        }
    }
    holds(&rt, last_fault == 4);
}

#[test]
fn the_log_of_wdep_fails(rt: HostRuntime) {
    check_log_fails(&rt, Program::Wdep, &RUN);
}
