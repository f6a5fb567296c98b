// Worked webs: merged lines, faults and names of files.
use super::*;
use std::process::Abort;

// Checks what is written, then the faults and files.
#[derive(Clone, Copy)]
struct Telling<'a> {
    text: &'a str,
}

impl Case<MemoryShelf, Fail> for Telling<'_> {
    fn ask<A: Abort>(
        &mut self,
        rt: &A,
        merger: &mut Merger<MemoryShelf>,
        shelf: &mut MemoryShelf,
        filled: &mut Filled,
    ) -> Result<(), Fail> {
        write_all(rt, merger, shelf, &mut filled.sink)?;
        describe_bytes(&mut filled.reported, filled.sink.bytes())?;
        describe_faults(&mut filled.reported, merger)?;
        describe_names(&mut filled.reported, merger, 0)?;
        same_string(rt, filled.reported.as_str(), self.text);
        Ok(())
    }
}

fn describe_bytes(reported: &mut String, bytes: &[u8]) -> Result<(), Fail> {
    reported.push_str(str::from_utf8(bytes)?)?;
    Ok(())
}

// The files of a shelf, the second name of the web, the folder, and the expected output.
struct Web {
    files: &'static [(&'static str, &'static [u8])],
    second: Option<&'static str>,
    inputs: Option<&'static str>,
    text: &'static str,
}

fn compare_all(rt: &(impl AllocGlobal + Abort), webs: &[Web]) -> Result<(), Fail> {
    for web in webs {
        let names = Names {
            second: web.second,
            inputs: web.inputs,
            ..WEB
        };
        merge_files(rt, web.files, &names, &mut Telling { text: web.text })?;
    }
    Ok(())
}

// Webs that can include two files, with their expected output.
fn compare_including(
    rt: &(impl AllocGlobal + Abort),
    examples: &[(&[u8], &str)],
) -> Result<(), Fail> {
    for (web, text) in examples {
        let files = [("a.w", *web), ("b", b"bee"), ("b c", b"quoted\n")];
        merge_files(rt, &files, &WEB, &mut Telling { text: *text })?;
    }
    Ok(())
}

#[test]
fn lines(rt: HostRuntime) -> Result<(), Fail> {
    const EXAMPLES: &[(&[u8], &str)] = &[
        // trailing blanks are dropped, and a tab is one
        (b"x \r\n\ny\t", "x\n\ny\n0 is a.w\n"),
        // vertical tabs and form feeds too, but not at the start and within a line
        (b" x\x0b\x0c \n\t\ty  z\r\r\n", " x\n\t\ty  z\n0 is a.w\n"),
        (b"", "0 is a.w\n"),
        (b"\n", "\n0 is a.w\n"),
        // a last line of blanks alone is an empty line
        (b"x\n  ", "x\n\n0 is a.w\n"),
        (b"x\ny", "x\ny\n0 is a.w\n"),
        (b"x\r\ny\r\n", "x\ny\n0 is a.w\n"),
        // a carriage return alone ends no line
        (b"x\ry\n", "x\ry\n0 is a.w\n"),
    ];
    compare_including(&rt, EXAMPLES)
}

#[test]
fn include_lines(rt: HostRuntime) -> Result<(), Fail> {
    const EXAMPLES: &[(&[u8], &str)] = &[
        (b"@i\n", "NoName in 0 at 1\n0 is a.w\n"),
        (b"1\n@i \t \n2\n", "1\n2\nNoName in 0 at 2\n0 is a.w\n"),
        (b"@i \"\"b\n", "NoName in 0 at 1\n0 is a.w\n"),
        (b"@i \"b c\"d\n", "quoted\n0 is a.w\n1 is b c\n"),
        // a quote that isn't closed
        (b"@i \"b c\n", "quoted\n0 is a.w\n1 is b c\n"),
        (b"@i b\"c\n", "bee\n0 is a.w\n1 is b\n"),
        (b"@i b c\n", "bee\n0 is a.w\n1 is b\n"),
        (b"@ib\n", "bee\n0 is a.w\n1 is b\n"),
        (b"@I b\n", "bee\n0 is a.w\n1 is b\n"),
        (b"@I\tb\tc\n", "bee\n0 is a.w\n1 is b\n"),
        (b"@i \xff\n", "NotThere in 0 at 1\n0 is a.w\n"),
        // no include lines
        (b" @i b\n@@i b\n@j b\n", " @i b\n@@i b\n@j b\n0 is a.w\n"),
    ];
    compare_including(&rt, EXAMPLES)
}

#[test]
fn a_file_that_includes_itself(rt: HostRuntime) -> Result<(), Fail> {
    const EXAMPLE: (&[u8], &str) = (
        b"P\n@i a.w\nQ\n",
        "P\nP\nP\nP\nP\nP\nP\nP\nP\nP\nP\nP\nP\nP\nP\nP\nP\nP\nP\nP\nQ\nQ\nQ\nQ\nQ\nQ\nQ\nQ\nQ\nQ\nQ\nQ\nQ\nQ\nQ\nQ\nQ\nQ\nQ\nQ\nTooDeep in 19 at 2\n0 is a.w\n1 is a.w\n2 is a.w\n3 is a.w\n4 is a.w\n5 is a.w\n6 is a.w\n7 is a.w\n8 is a.w\n9 is a.w\n10 is a.w\n11 is a.w\n12 is a.w\n13 is a.w\n14 is a.w\n15 is a.w\n16 is a.w\n17 is a.w\n18 is a.w\n19 is a.w\n",
    );
    compare_including(&rt, &[EXAMPLE])
}

// The faults in the deepest file have these kinds.
fn has_deepest(merger: &Merger<MemoryShelf>, kinds: &[SourceKind]) -> bool {
    let mut rest = kinds;
    for fault in merger.faults() {
        if fault.place.file == FileId(19) {
            match rest {
                [kind, more @ ..] if *kind == fault.kind => rest = more,
                _ => return false,
            }
        }
    }
    rest.is_empty()
}

// No line, this number of faults, and these kinds in the deepest file.
#[derive(Clone, Copy)]
struct Deepest<'a> {
    faults: usize,
    deepest: &'a [SourceKind],
}

impl Case<MemoryShelf, Fail> for Deepest<'_> {
    fn ask<A: Abort>(
        &mut self,
        rt: &A,
        merger: &mut Merger<MemoryShelf>,
        shelf: &mut MemoryShelf,
        filled: &mut Filled,
    ) -> Result<(), Fail> {
        let next = merger.next_line(shelf, &mut filled.line)?;
        holds(rt, next.is_none());
        holds(rt, merger.faults().len() == self.faults);
        holds(rt, has_deepest(merger, self.deepest));
        Ok(())
    }
}

// In the deepest file, a missing name comes before the depth, and the depth before a missing file.
#[test]
fn faults_at_the_full_depth(rt: HostRuntime) -> Result<(), Fail> {
    const FILES: &[(&str, &[u8])] = &[("a.w", b"@i a.w\n@i\n@i gone\n")];
    const DEEPEST: &[SourceKind] = &[SourceKind::TooDeep, SourceKind::NoName, SourceKind::TooDeep];
    let mut case = Deepest {
        faults: 41,
        deepest: DEEPEST,
    };
    merge_files(&rt, FILES, &WEB, &mut case)
}

#[test]
fn folders(rt: HostRuntime) -> Result<(), Fail> {
    const WEB: (&str, &[u8]) = ("a.w", b"one\n@i b.w\nthree\n@i gone");
    const WEBS: &[Web] = &[
        Web {
            files: &[WEB, ("lib/b.w", b"two\n")],
            second: None,
            inputs: Some("lib"),
            text: "one\ntwo\nthree\nNotThere in 0 at 4\n0 is a.w\n1 is lib/b.w\n",
        },
        Web {
            files: &[WEB, ("lib/b.w", b"two\n")],
            second: None,
            inputs: None,
            text: "one\nthree\nNotThere in 0 at 2\nNotThere in 0 at 4\n0 is a.w\n",
        },
        // the name itself comes first
        Web {
            files: &[WEB, ("lib/b.w", b"two\n"), ("b.w", b"deux")],
            second: None,
            inputs: Some("lib"),
            text: "one\ndeux\nthree\nNotThere in 0 at 4\n0 is a.w\n1 is b.w\n",
        },
    ];
    compare_all(&rt, WEBS)
}

// The web isn't sought in the folder.
const NOT_OPENED: &[(Names<'static>, Stop)] = &[
    (
        Names {
            web: "a.w",
            second: None,
            change: None,
            inputs: Some("lib"),
        },
        Stop::WebNotOpened,
    ),
    (
        Names {
            web: "a.w",
            second: Some("a.web"),
            change: None,
            inputs: Some("lib"),
        },
        Stop::WebNotOpened,
    ),
];

#[test]
fn names_of_the_web(rt: HostRuntime) -> Result<(), Fail> {
    const WEBS: &[Web] = &[
        Web {
            files: &[("a.web", b"second\n")],
            second: Some("a.web"),
            inputs: None,
            text: "second\n0 is a.web\n",
        },
        Web {
            files: &[("a.web", b"second\n"), ("a.w", b"first\n")],
            second: Some("a.web"),
            inputs: None,
            text: "first\n0 is a.w\n",
        },
    ];
    compare_all(&rt, WEBS)?;
    are_refused(&rt, &[("lib/a.w", b"folder\n")], NOT_OPENED);
    Ok(())
}
