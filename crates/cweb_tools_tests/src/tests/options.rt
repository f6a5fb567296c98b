// The command line of `ctangle`.
use super::wanted::{holds, same_name, same_string};
use cweb_lines::Stop;
use cweb_tools::{Options, Shown, as_slices};
use std::alloc::Global;
use std::process::Abort;

/// The options for the log: banner, progress, closing line and statistics.
fn shown(words: &[&str]) -> Option<[bool; 4]> {
    let shown = Shown::read(words)?;
    Some([
        shown.banner,
        shown.progress,
        shown.closing,
        shown.statistics,
    ])
}

#[test]
fn options_anywhere_last_letter_wins(rt: HostRuntime) {
    const EXAMPLES: &[(&[&str], Option<[bool; 4]>)] = &[
        (&[], Some([true, true, true, false])),
        (&["a", "+s", "-bph"], Some([false, false, false, true])),
        (&["-b", "a", "+b", "-p+", "x"], None),
        (&["-b", "a", "+b", "-p"], Some([true, false, true, false])),
        (&["-zQ", "a"], Some([true, true, true, false])),
        (&["a"], Some([true, true, true, false])),
        (&["-b-", "a"], None),
        // words of one byte, and words without a sign first, are no option words
        (&["-", "+", "b-", ""], Some([true, true, true, false])),
    ];
    for (words, want) in EXAMPLES {
        holds(&rt, shown(*words) == *want);
    }
}

/// Words, and the expected names: the web's first and second, the change file's, and the main output's.
type Example<'a> = (
    &'a [&'a str],
    &'a str,
    Option<&'a str>,
    Option<&'a str>,
    &'a str,
);

fn check_names(rt: &(impl Abort + AllocGlobal), row: &Example) {
    let read = Options::read(rt.alloc(), row.0).expect(rt, "options");
    same_string(rt, read.web.as_str(), row.1);
    same_name(rt, read.second(), row.2);
    same_name(rt, read.change(), row.3);
    same_string(rt, read.main.as_str(), row.4);
}

#[test]
fn names_of_webs_and_outputs(rt: HostRuntime) {
    const EXAMPLES: &[Example] = &[
        // the main output is named after the last part of the web's path, up to its last dot
        (
            &["x.y/web"],
            "x.y/web.w",
            Some("x.y/web.web"),
            None,
            "web.c",
        ),
        (&["d/a.b.w"], "d/a.b.w", None, None, "a.b.c"),
        (&["a", "-", "out"], "a.w", Some("a.web"), None, "out.c"),
        (
            &["-b", "a", "c", "+s", "d.d/o.h"],
            "a.w",
            Some("a.web"),
            Some("c.ch"),
            "d.d/o.h",
        ),
        (&["/.w"], "/.w", None, None, ".c"),
    ];
    for row in EXAMPLES {
        check_names(&rt, row);
    }
}

fn is_refused(alloc: Global, words: &[&str]) -> bool {
    matches!(Options::read(alloc, words), Err(Stop::Usage))
}

#[test]
fn command_lines_that_are_refused(rt: HostRuntime) {
    const REFUSED: &[&[&str]] = &[
        &[],
        &["-b"],
        &["-b-", "a"],
        &["a", "-", "-"],
        &["-", "a"],
        &["a", "c", ""],
        &["a", "c", "o\n"],
        &["a", "c", "o", "x"],
    ];
    for words in REFUSED {
        holds(&rt, is_refused(rt.alloc(), *words));
    }
}

#[test]
fn arguments_become_slices(rt: HostRuntime) {
    let mut args = Vec::new(rt.alloc());
    for word in ["-b", "", "web.w"] {
        let arg = String::from_str(rt.alloc(), word).expect(&rt, "an argument");
        args.push(arg).expect(&rt, "arguments");
    }
    let words = as_slices(rt.alloc(), &args).expect(&rt, "slices");
    holds(&rt, words.len() == 3);
    same_string(&rt, words[0], "-b");
    same_string(&rt, words[1], "");
    same_string(&rt, words[2], "web.w");
}
