// Webs with change files: merged lines with their places, faults, and included files.
use super::*;
use std::process::Abort;

// A shelf with the web `m.w`, the change file `c.ch` and other files.
fn shelf_with(
    alloc: Global,
    web: &str,
    change: &str,
    others: &[(&str, &[u8])],
) -> Result<MemoryShelf, AllocError> {
    let mut shelf = shelf_of(alloc, others)?;
    shelf.put("m.w", web.as_bytes())?;
    shelf.put("c.ch", change.as_bytes())?;
    Ok(shelf)
}

// Appends a place and a line.
fn describe_line(text: &mut String, place: Place, line: &[u8]) -> Result<(), Fail> {
    let emitted = str::from_utf8(line)?;
    writeln!(text, "{}:{} {}", place.file.0, place.line, emitted)?;
    Ok(())
}

// Appends the remaining lines of a merger with their places.
fn describe_lines(
    text: &mut String,
    line: &mut Vec<u8>,
    merger: &mut Merger<MemoryShelf>,
    shelf: &mut MemoryShelf,
) -> Result<(), Fail> {
    for _ in 0..1000 {
        let Some(place) = merger.next_line(shelf, line)? else {
            break;
        };
        describe_line(text, place, line)?;
    }
    Ok(())
}

pub const NAMES: Names<'static> = Names {
    web: "m.w",
    second: None,
    change: Some("c.ch"),
    inputs: None,
};

// Checks the lines with their places, then the faults and the names of included files.
#[derive(Clone, Copy)]
struct Merging<'a> {
    text: &'a str,
}

impl Case<MemoryShelf, Fail> for Merging<'_> {
    fn ask<A: Abort>(
        &mut self,
        rt: &A,
        merger: &mut Merger<MemoryShelf>,
        shelf: &mut MemoryShelf,
        filled: &mut Filled,
    ) -> Result<(), Fail> {
        describe_lines(&mut filled.reported, &mut filled.line, merger, shelf)?;
        describe_faults(&mut filled.reported, merger)?;
        describe_names(&mut filled.reported, merger, 2)?;
        same_string(rt, filled.reported.as_str(), self.text);
        Ok(())
    }
}

/// Merges a web with a change file, and checks the result.
pub fn compare(
    rt: &(impl AllocGlobal + Abort),
    others: &[(&str, &[u8])],
    web: &str,
    change: &str,
    text: &str,
) -> Result<(), Fail> {
    let mut shelf = shelf_with(rt.alloc(), web, change, others)?;
    merge(rt, &mut shelf, &NAMES, &mut Merging { text })
}

/// Merges each web with its change file, and checks the results.
pub fn compare_all(
    rt: &(impl AllocGlobal + Abort),
    others: &[(&str, &[u8])],
    examples: &[(&str, &str, &str)],
) -> Result<(), Fail> {
    for (web, change, want) in examples {
        compare(rt, others, *web, *change, *want)?;
    }
    Ok(())
}

// One example of each rule.
#[test]
fn worked_changes(rt: HostRuntime) -> Result<(), Fail> {
    const OTHERS: &[(&str, &[u8])] = &[("inc.w", b"I1\nI2\n"), ("b.w", b"B\n")];
    const EXAMPLES: &[(&str, &str, &str)] = &[
        (
            "A\n@i gone.w\nB\n",
            "@x\n@i gone.w\n@y\nnew\n@z\n",
            "0:1 A\n1:4 new\n0:3 B\n",
        ),
        (
            "@i inc.w\nL2\nL3\n",
            "@x\nI2\nLX\n@y\nN\n@z\n",
            "2:1 I1\n1:5 N\n0:3 L3\nUnequal in 1 at 1: 1\n2 is inc.w\n",
        ),
        ("A\n", "@x\n", "0:1 A\nNoOldLines in 1 at 1\n"),
        ("A\n", "@x\nZ\n@y\n@z\n", "0:1 A\nNoMatch in 1 at 1\n"),
        (
            "A\nB\n",
            "@y\n@x\nA\n@x\nQ\n@y\nN\n@y\nM\n@z\n",
            "1:7 N\n1:9 M\nMissingX in 1 at 1\nWantsY in 1 at 4\nUnequal in 1 at 2: 1\nWantsZ in 1 at 8\n",
        ),
        (
            "A\n",
            "@x\nA\nB\nC\n",
            "EndedBeforeY in 1 at 1\nWebEnded in 1 at 1\n",
        ),
        ("A\n", "@x\nA\n@y\nN\n", "1:4 N\nEndedBeforeZ in 1 at 1\n"),
        (
            "A\nB\n",
            "@x\nA\n@y\n@i b.w\n@z\n@x\nB\n@y\nC\n@z\n",
            "2:1 B\n1:9 C\n2 is b.w\n",
        ),
    ];
    compare_all(&rt, OTHERS, EXAMPLES)
}

#[test]
fn code_lines(rt: HostRuntime) -> Result<(), Fail> {
    const EXAMPLES: &[(&str, &str, &str)] = &[
        // letters in either case; the rest of the line is ignored
        (
            "A\nB\n",
            "@X old\nA\n@Ynew\nN\n@Z\n@xx\nB\n@yy\nM\n@zz",
            "1:4 N\n1:9 M\n",
        ),
        // no code lines: `@` alone, another letter, `@@`, a leading blank
        (
            "@\n@a\nB\n",
            "@\n@@x\n @y\n@x\n@\n@a\n@y\n@\n@@z\n @z\n@z\n",
            "1:8 @\n1:9 @@z\n1:10  @z\n0:3 B\n",
        ),
        // in the web they are ordinary lines
        ("@x\nA\n@y\n@z\n", "", "0:1 @x\n0:2 A\n0:3 @y\n0:4 @z\n"),
    ];
    compare_all(&rt, &[], EXAMPLES)
}

#[test]
fn seeking_an_entry(rt: HostRuntime) -> Result<(), Fail> {
    const EXAMPLES: &[(&str, &str, &str)] = &[
        // lines outside entries
        ("A\n", "", "0:1 A\n"),
        ("A\n", "A\n\nB", "0:1 A\n"),
        (
            "A\nB\n",
            "one\n@x\nA\n@y\n@z\ntwo\n@x\nB\n@y\n@z\nthree\n",
            "",
        ),
        (
            "A\n",
            "@z\nA\n@y\n@x\nA\n@y\nN\n@z\n@Z\n",
            "1:7 N\nMissingX in 1 at 1\nMissingX in 1 at 3\nMissingX in 1 at 9\n",
        ),
        // empty lines and lines of blanks before the first old line are skipped
        ("\nA\n", "@x\n\n \t\nA\n@y\nN\n@z\n", "0:1 \n1:6 N\n"),
        ("A\n", "@x\n\n  \n", "0:1 A\nNoOldLines in 1 at 1\n"),
    ];
    compare_all(&rt, &[], EXAMPLES)
}

#[test]
fn entries_that_are_passed_over(rt: HostRuntime) -> Result<(), Fail> {
    const EXAMPLES: &[(&str, &str, &str)] = &[
        // an entry without old lines, and the next one there or later
        (
            "A\n",
            "@x\n@x\n\n@x\nA\n@y\nN\n@z\n",
            "1:7 N\nNoOldLines in 1 at 1\nNoOldLines in 1 at 2\n",
        ),
        (
            "A\n",
            "@x\n\n@y\nM\n@z\n@x\nA\n@y\nN\n@z\n",
            "1:9 N\nNoOldLines in 1 at 1\nMissingX in 1 at 3\nMissingX in 1 at 5\n",
        ),
        // an entry that waits at the end; later ones are never reached
        (
            "A\nB\n",
            "@x\nB\nC\n@y\n@z\n@x\nA\n@y\n@z\n@y\n",
            "0:1 A\nWebEnded in 1 at 1\nNoMatch in 1 at 6\n",
        ),
        (
            "A\n",
            "@x\nB\n@z\n@y\n@y\n@x\n",
            "0:1 A\nNoMatch in 1 at 1\n",
        ),
    ];
    compare_all(&rt, &[], EXAMPLES)
}

#[test]
fn entries_in_turn(rt: HostRuntime) -> Result<(), Fail> {
    const EXAMPLES: &[(&str, &str, &str)] = &[
        // the first line that equals an entry's, after the previous change
        (
            "A\nB\nA\nC\n",
            "@x\nB\n@y\nb\n@z\n@x\nA\n@y\na\n@z\n",
            "0:1 A\n1:4 b\n1:9 a\n0:4 C\n",
        ),
        (
            "A\nA\nA\n",
            "@x\nA\n@y\na\n@z\n@x\nA\n@y\n@z\n",
            "1:4 a\n0:3 A\n",
        ),
        // places after changes that drop more lines than they add, and fewer
        (
            "A\nB\nC\nD\nE\n",
            "@x\nB\nC\n@y\n@z\n@x\nD\n@y\nd\n\ne\n@z\n",
            "0:1 A\n1:9 d\n1:10 \n1:11 e\n0:5 E\n",
        ),
        // new lines match no entry
        (
            "A\nB\nC\n",
            "@x\nA\n@y\nA\nC\n@z\n@x\nC\n@y\n@z\n",
            "1:4 A\n1:5 C\n0:2 B\n",
        ),
        // a web without lines
        ("", "", ""),
        ("", "@z\n@x\n", "MissingX in 1 at 1\nNoOldLines in 1 at 2\n"),
        ("", "@x\nA\n@y\nN\n@z\n@z\n", "NoMatch in 1 at 1\n"),
        // entries are also sought after the last line
        (
            "A",
            "@x\nA\n@y\n@z\n@y\n@x\nB\n@y\n@z\n@y\n",
            "MissingX in 1 at 5\nNoMatch in 1 at 6\n",
        ),
    ];
    compare_all(&rt, &[], EXAMPLES)
}
