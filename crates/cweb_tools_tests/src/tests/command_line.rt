// The command line of `wmerge`.
use super::merging::{Program, Run, check_run};
use super::wanted::{same_name, same_string};
use cweb_tools::MergeWords;
use std::process::Abort;

/// Words, and the expected names: the web's first and second, and the change file's.
type Example<'a> = (&'a [&'a str], &'a str, Option<&'a str>, Option<&'a str>);

fn check_words(rt: &(impl Abort + AllocGlobal), row: &Example) {
    let read = MergeWords::read(rt.alloc(), row.0).expect(rt, "words");
    same_string(rt, read.web.as_str(), row.1);
    same_name(rt, read.second(), row.2);
    same_name(rt, read.change(), row.3);
}

#[test]
fn names_of_words(rt: HostRuntime) {
    const EXAMPLES: &[Example] = &[
        (&["m"], "m.w", Some("m.web"), None),
        (&["m.w"], "m.w", None, None),
        (&["m", "c"], "m.w", Some("m.web"), Some("c.ch")),
        (&["m.w", "c.x"], "m.w", None, Some("c.x")),
        // only a dot in the last part of a path counts
        (&["a/m.x", "d.d/c"], "a/m.x", None, Some("d.d/c.ch")),
        (&["m.w", "d/c."], "m.w", None, Some("d/c.")),
        (&["m.w", "d.d/"], "m.w", None, Some("d.d/.ch")),
        // a lone `-` means no change file, and a lone `+` is an ordinary word
        (&["m", "-"], "m.w", Some("m.web"), None),
        (&["+", "+"], "+.w", Some("+.web"), Some("+.ch")),
        (&["m.w", "c-+"], "m.w", None, Some("c-+.ch")),
    ];
    for row in EXAMPLES {
        check_words(&rt, row);
    }
}

#[test]
fn words_that_are_refused(rt: HostRuntime) {
    const REFUSED: &[&[&str]] = &[
        &[],
        &[""],
        &["-"],
        &["-b"],
        &["m\n"],
        &["m\u{7f}"],
        &["", "c"],
        &["-", "c"],
        &["-", "-"],
        &["+b", "c"],
        &["m", ""],
        &["m", "-b"],
        &["m", "+b"],
        &["m", "c\u{1f}"],
        &["m", "\u{7f}"],
        &["m", "c", "x"],
    ];
    const SOURCES: &[(&str, &[u8])] = &[("m.w", b"x\n"), ("c.ch", b""), ("-.w", b"x\n")];
    const USAGE: &str = "! Usage: wmerge webfile[.w] [{changefile[.ch]|-}]\n";
    for words in REFUSED {
        check_run(&rt, Program::Wmerge, &(*words, None, SOURCES, "", USAGE, 1));
    }
}

// A file named `-` or `-.ch` is no change file.
#[test]
fn a_dash_opens_nothing(rt: HostRuntime) {
    const CHANGE: &[u8] = b"@x\nA\n@y\n@z\n";
    const SOURCES: &[(&str, &[u8])] = &[("m.w", b"A\n"), ("-", CHANGE), ("-.ch", CHANGE)];
    const RUN: Run = (&["m", "-"], None, SOURCES, "A\n", "", 0);
    check_run(&rt, Program::Wmerge, &RUN);
}
