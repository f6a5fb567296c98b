// Changes that are applied in the buffers: their output, and how many writes it takes.
use super::*;
use chunks::Buffering;
use std::process::Abort;

// The changes of a web whose lines are read in pieces of 64 KB: each read costs at most one write.
#[derive(Clone, Copy)]
struct FewWrites<'a> {
    text: &'a [u8],
    writes: u64,
}

impl<S: Shelf> Case<S, Fail> for FewWrites<'_> {
    fn ask<A: Abort>(
        &mut self,
        rt: &A,
        merger: &mut Merger<S>,
        shelf: &mut S,
        filled: &mut Filled,
    ) -> Result<(), Fail> {
        let sink = &mut filled.sink;
        holds(rt, shelf.failures() == 0);
        write_buffered(rt, merger, shelf, sink, 65536)?;
        same_bytes(rt, &sink.bytes, self.text);
        holds(rt, sink.writes <= self.writes);
        Ok(())
    }
}

// A text 10,000 times.
fn repeated(alloc: Global, unit: &[u8]) -> Result<Vec<u8>, AllocError> {
    let mut text = Vec::new(alloc);
    for _ in 0..10_000 {
        text.extend_from_slice(unit)?;
    }
    Ok(text)
}

// Changes with this text in the change file, of a web with these lines. Nine reads, and two full chunks.
fn writes_of_changes(
    rt: &(impl AllocGlobal + Abort),
    lines: &[u8],
    entry: &[u8],
    changed: &[u8],
) -> Result<(), Fail> {
    let web = repeated(rt.alloc(), lines)?;
    let change = repeated(rt.alloc(), entry)?;
    let text = repeated(rt.alloc(), changed)?;
    let files = [("a.w", web.as_slice()), ("c.ch", change.as_slice())];
    let mut case = FewWrites {
        text: &text,
        writes: 14,
    };
    merge_files(rt, &files, &CHANGED_WEB, &mut case)
}

// Changes of one line are applied without a write of their own. Comments and blanks in the change file may be there.
#[test]
fn writes_of_many_changes(rt: HostRuntime) -> Result<(), Fail> {
    const WEB: &[u8] = b"old\nkept\n";
    writes_of_changes(&rt, WEB, b"@x\nold\n@y\nnew\n@z\n", b"new\nkept\n")?;
    writes_of_changes(&rt, WEB, b"@x\nold\n@y\n@z why\n\n", b"kept\n")
}

// So are changes of several lines, whatever blanks are at the ends of lines.
#[test]
fn writes_of_changes_of_several_lines(rt: HostRuntime) -> Result<(), Fail> {
    const WEB: &[u8] = b"a\nb\t\nc\r\nkept\n";
    const CHANGED: &[u8] = b"d\nkept\n";
    writes_of_changes(&rt, WEB, b"@x\na\nb\nc\n@y\nd\n@z\n", CHANGED)?;
    writes_of_changes(&rt, WEB, b"@x \na \nb\nc \n@y\nd\n@z\n", CHANGED)
}

// Old sides of several lines: equal, with a blank, unequal, and with an include line.
pub const SEVERAL: &[(&str, &[u8])] = &[
    ("a.w", b"1\n2\n3\n4 \n5\n6\n7\n@i b.w\n8\nlast\n"),
    ("b.w", b"in b\n"),
    (
        "c.ch",
        b"@x\n1\n2\n3\n@y\none\n@z\n@x\n4\n5\n@y\nfour\n@z\n@x\n6\n8\n@y\nsix\n@z\n@x\n@i b.w\n8\n@y\neight\n@z\n",
    ),
];

#[test]
fn changes_of_several_lines(rt: HostRuntime) -> Result<(), Fail> {
    for room in [0, 1, 65536] {
        let mut case = Buffering {
            room,
            most: usize::MAX,
            text: b"one\nfour\nsix\neight\nlast\n",
            writes: None,
            case: room,
        };
        merge_files(&rt, SEVERAL, &CHANGED_WEB, &mut case)?;
    }
    Ok(())
}
