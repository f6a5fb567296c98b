// Webs with change files and include lines.
use super::*;
use changes::{NAMES, compare, compare_all};

#[test]
fn included_lines(rt: HostRuntime) -> Result<(), Fail> {
    const OTHERS: &[(&str, &[u8])] = &[("b", b"B1\n@i c\nB3\n"), ("c", b"C1\nC2\n"), ("none", b"")];
    const EXAMPLES: &[(&str, &str, &str)] = &[
        // matched at each depth, and each time that a file is opened
        (
            "@i c\nM2\n@i b\n",
            "@x\nC1\n@y\n1\n@z\n@x\nC1\n@y\n2\n@z\n@x\nB3\n@y\n3\n@z\n",
            "1:4 1\n2:2 C2\n0:2 M2\n3:1 B1\n1:9 2\n4:2 C2\n1:14 3\n2 is c\n3 is b\n4 is c\n",
        ),
        // old lines across the end of one file or several
        (
            "@i b\nM2\nM3\n",
            "@x\nC2\nB3\n@y\nN\n@z\n@x\nM3\n@y\n@z\n",
            "2:1 B1\n3:1 C1\n1:5 N\n0:2 M2\n2 is b\n3 is c\n",
        ),
        (
            "@i b\nM2\nM3\n",
            "@x\nC1\nC2\nb3\nM2\n@y\nN\n@z\n",
            "2:1 B1\n1:7 N\n0:3 M3\nUnequal in 1 at 1: 1\n2 is b\n3 is c\n",
        ),
        (
            "@i none\nA\n@i none\n",
            "@x\nA\n@i none\nB\n@y\n@z\n",
            "WebEnded in 1 at 1\n2 is none\n",
        ),
    ];
    compare_all(&rt, OTHERS, EXAMPLES)
}

#[test]
fn include_lines_taken_away(rt: HostRuntime) -> Result<(), Fail> {
    const OTHERS: &[(&str, &[u8])] = &[("b", b"B1\n@i c\nB3\n"), ("c", b"C1\nC2\n")];
    const EXAMPLES: &[(&str, &str, &str)] = &[
        // an include line that is an old line is not obeyed: the first, a further or an unequal one
        (
            "@i b\nM2\n",
            "@x\n@i c\n@y\nN\n@z\n",
            "2:1 B1\n1:4 N\n2:3 B3\n0:2 M2\n2 is b\n",
        ),
        ("A\n@i b\nC\n", "@x\nA\n@i b\n@y\n@z\n", "0:3 C\n"),
        (
            "A\n@i\nC\n",
            "@x\nA\nb\n@y\n@z\n",
            "0:3 C\nUnequal in 1 at 1: 1\n",
        ),
        // one that is spelled otherwise is another line
        (
            "@i  c\n",
            "@x\n@i c\n@y\n@z\n",
            "2:1 C1\n2:2 C2\nNoMatch in 1 at 1\n2 is c\n",
        ),
    ];
    compare_all(&rt, OTHERS, EXAMPLES)
}

// The web includes itself up to twenty open files. Each emits a line `A`.
const NAMES_AT_THE_FULL_DEPTH: &str =
    "2 is m.w\n3 is m.w\n4 is m.w\n5 is m.w\n6 is m.w\n7 is m.w\n8 is m.w\n9 is m.w\n10 is m.w\n11 is m.w\n12 is m.w\n13 is m.w\n14 is m.w\n15 is m.w\n16 is m.w\n17 is m.w\n18 is m.w\n19 is m.w\n20 is m.w\n";

// Merges this web with a change file, and checks lines and faults.
fn compare_at_the_full_depth(
    rt: &(impl AllocGlobal + Abort),
    change: &str,
    want: &str,
) -> Result<(), Fail> {
    let mut whole = String::from_str(rt.alloc(), want)?;
    whole.push_str(NAMES_AT_THE_FULL_DEPTH)?;
    compare(rt, &[], "@i m.w\nA\n", change, whole.as_str())
}

#[test]
fn changes_at_the_full_depth(rt: HostRuntime) -> Result<(), Fail> {
    const EXAMPLES: &[(&str, &str)] = &[
        (
            "@x\nA\n@y\n@i c.ch\nN\n@z\n",
            "1:5 N\n19:2 A\n18:2 A\n17:2 A\n16:2 A\n15:2 A\n14:2 A\n13:2 A\n12:2 A\n11:2 A\n10:2 A\n9:2 A\n8:2 A\n7:2 A\n6:2 A\n5:2 A\n4:2 A\n3:2 A\n2:2 A\n0:2 A\nTooDeep in 20 at 1\nTooDeep in 1 at 4\n",
        ),
        // the depth is that of the line that began the change, even if its file has ended
        (
            "@x\nA\nA\nA\nA\n@y\n@i c.ch\nN\n@z\n",
            "1:8 N\n16:2 A\n15:2 A\n14:2 A\n13:2 A\n12:2 A\n11:2 A\n10:2 A\n9:2 A\n8:2 A\n7:2 A\n6:2 A\n5:2 A\n4:2 A\n3:2 A\n2:2 A\n0:2 A\nTooDeep in 20 at 1\nTooDeep in 1 at 7\n",
        ),
        (
            "@x\nA\nA\nA\nA\nA\nA\nA\nA\nA\nA\nA\nA\nA\nA\nA\nA\nA\nA\nA\nA\nA\n@y\n@i c.ch\n@i\n@z\n",
            "TooDeep in 20 at 1\nWebEnded in 1 at 1\nTooDeep in 1 at 24\nNoName in 1 at 25\n",
        ),
    ];
    for (change, want) in EXAMPLES {
        compare_at_the_full_depth(&rt, *change, *want)?;
    }
    Ok(())
}

// An included file of a new line is one deeper than the line that began the change.
#[test]
fn files_within_a_change(rt: HostRuntime) -> Result<(), Fail> {
    const OTHERS: &[(&str, &[u8])] = &[("b", b"P\n@i b\n"), ("c", b"A\n")];
    const EXAMPLES: &[(&str, &str, &str)] = &[
        (
            "A\n",
            "@x\nA\n@y\n@i b\n@z\n",
            "2:1 P\n3:1 P\n4:1 P\n5:1 P\n6:1 P\n7:1 P\n8:1 P\n9:1 P\n10:1 P\n11:1 P\n12:1 P\n13:1 P\n14:1 P\n15:1 P\n16:1 P\n17:1 P\n18:1 P\n19:1 P\n20:1 P\nTooDeep in 20 at 2\n2 is b\n3 is b\n4 is b\n5 is b\n6 is b\n7 is b\n8 is b\n9 is b\n10 is b\n11 is b\n12 is b\n13 is b\n14 is b\n15 is b\n16 is b\n17 is b\n18 is b\n19 is b\n20 is b\n",
        ),
        (
            "@i c\n",
            "@x\nA\nB\n@y\n@i b\n@z\n",
            "3:1 P\n4:1 P\n5:1 P\n6:1 P\n7:1 P\n8:1 P\n9:1 P\n10:1 P\n11:1 P\n12:1 P\n13:1 P\n14:1 P\n15:1 P\n16:1 P\n17:1 P\n18:1 P\n19:1 P\n20:1 P\nWebEnded in 1 at 1\nTooDeep in 20 at 2\n2 is c\n3 is b\n4 is b\n5 is b\n6 is b\n7 is b\n8 is b\n9 is b\n10 is b\n11 is b\n12 is b\n13 is b\n14 is b\n15 is b\n16 is b\n17 is b\n18 is b\n19 is b\n20 is b\n",
        ),
        // if the change file is also included, its lines are those of the web
        (
            "@i c.ch\n",
            "@x\nA\n@y\nN\n@z\n",
            "2:1 @x\n1:4 N\n2:3 @y\n2:4 N\n2:5 @z\n2 is c.ch\n",
        ),
    ];
    compare_all(&rt, OTHERS, EXAMPLES)
}

const NAMED: &[(&str, &[u8])] = &[
    ("m.web", b"@i b\nA\n"),
    ("c.ch", b"@x\nA\n@y\n@i b\n@z\n"),
    ("lib/b", b"B\n"),
    ("lib/d.ch", b""),
];

// Checks the names of files at the start, the lines, and all names.
#[derive(Clone, Copy)]
struct Naming;

impl Case<MemoryShelf, Fail> for Naming {
    fn ask<A: Abort>(
        &mut self,
        rt: &A,
        merger: &mut Merger<MemoryShelf>,
        shelf: &mut MemoryShelf,
        filled: &mut Filled,
    ) -> Result<(), Fail> {
        reports(rt, merger, &mut filled.reported, "0 is m.web\n1 is c.ch\n")?;
        writes(rt, merger, shelf, &mut filled.sink, b"B\nB\n")?;
        let want = "0 is m.web\n1 is c.ch\n2 is lib/b\n3 is lib/b\n";
        reports(rt, merger, &mut filled.reported, want)
    }
}

#[test]
fn names_of_the_files(rt: HostRuntime) -> Result<(), Fail> {
    let names = Names {
        second: Some("m.web"),
        inputs: Some("lib"),
        ..NAMES
    };
    merge_files(&rt, NAMED, &names, &mut Naming)
}

// Names of files that aren't there, and the stop.
const NOT_THERE: &[(Names<'static>, Stop)] = &[
    (
        Names {
            web: "m.w",
            second: Some("m.web"),
            change: Some("d.ch"),
            inputs: Some("lib"),
        },
        Stop::ChangeNotOpened,
    ),
    (
        Names {
            web: "m.w",
            second: None,
            change: Some("d.ch"),
            inputs: Some("lib"),
        },
        Stop::WebNotOpened,
    ),
    (
        Names {
            web: "m.w",
            second: None,
            change: Some("c.ch"),
            inputs: Some("lib"),
        },
        Stop::WebNotOpened,
    ),
];

// The change file isn't sought in the folder. A missing web is reported first.
#[test]
fn names_of_files_that_are_not_there(rt: HostRuntime) {
    are_refused(&rt, NAMED, NOT_THERE);
}
