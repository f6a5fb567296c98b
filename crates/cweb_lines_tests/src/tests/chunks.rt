// The output doesn't depend on the size of chunks, reads and writes.
use super::*;
use chunked_changes::SEVERAL;
use failing::CHANGED;
use std::process::Abort;
use trial::TrialShelf;

// Chunks of `room` bytes, and writes of at most `most` bytes.
#[derive(Clone, Copy)]
pub struct Buffering<'a> {
    pub room: usize,
    pub most: usize,
    pub text: &'a [u8],
    // the number of writes
    pub writes: Option<u64>,
    pub case: usize,
}

impl<S: Shelf> Case<S, Fail> for Buffering<'_> {
    fn ask<A: Abort>(
        &mut self,
        rt: &A,
        merger: &mut Merger<S>,
        shelf: &mut S,
        filled: &mut Filled,
    ) -> Result<(), Fail> {
        let sink = &mut filled.sink;
        sink.most = self.most;
        holds(rt, shelf.failures() == 0);
        write_buffered(rt, merger, shelf, sink, self.room)?;
        same_at(rt, &sink.bytes, self.text, self.case);
        if let Some(writes) = self.writes {
            same_number(rt, sink.writes, writes);
        }
        Ok(())
    }
}

const CHUNKED: &[(&str, &[u8])] = &[
    ("a.w", b"one\n@i b.w\nthree, which is longer\n\nfive"),
    ("b.w", b"two \n"),
];

fn compare_chunks(
    rt: &(impl AllocGlobal + Abort),
    room: usize,
    most: usize,
    writes: u64,
) -> Result<(), Fail> {
    let mut case = Buffering {
        room,
        most,
        text: b"one\ntwo\nthree, which is longer\n\nfive\n",
        writes: Some(writes),
        case: room,
    };
    merge_files(rt, CHUNKED, &WEB, &mut case)
}

#[test]
fn chunks(rt: HostRuntime) -> Result<(), Fail> {
    // The size of chunks, the size of writes, and the number of writes. Whatever the size, lines are written before the
    // include line, before the end of its file, and before the last line, whose end needs a read.
    const EXAMPLES: &[(usize, usize, u64)] = &[
        (0, usize::MAX, 5),
        (1, usize::MAX, 5),
        (23, usize::MAX, 5),
        (24, usize::MAX, 4),
        (65536, usize::MAX, 4),
        (0, 1, 37),
        (10, 1, 37),
        (65536, 16, 5),
    ];
    for (room, most, writes) in EXAMPLES {
        compare_chunks(&rt, *room, *most, *writes)?;
    }
    Ok(())
}

const READS: &[(&str, &[u8])] = &[
    (
        "a.w",
        b"a \t\n  \n@i b.w\na longer line  \n@i b.w\n\x0b\nlast \t",
    ),
    ("b.w", b"two \n\n three"),
];

// Reads at most `most` bytes at once.
fn compare_reads(rt: &(impl AllocGlobal + Abort), most: usize) -> Result<(), Fail> {
    let mut case = Buffering {
        room: 65536,
        most: usize::MAX,
        text: b"a\n\ntwo\n\n three\na longer line\ntwo\n\n three\n\nlast\n",
        writes: None,
        case: most,
    };
    merge_reads(rt, READS, &WEB, most, 0, &mut case)
}

// Blanks, line ends and an include line are at each offset of a read.
#[test]
fn reads_of_all_sizes(rt: HostRuntime) -> Result<(), Fail> {
    for most in 1..=40usize {
        compare_reads(&rt, most)?;
    }
    Ok(())
}

// With reads of at most `most` bytes, the output until a read fails is the same with chunks of any size.
#[derive(Drop)]
struct Written {
    most: usize,
    room: usize,
    at_once: Vec<u8>,
}

impl Case<TrialShelf, Fail> for Written {
    fn ask<A: Abort>(
        &mut self,
        rt: &A,
        merger: &mut Merger<TrialShelf>,
        shelf: &mut TrialShelf,
        filled: &mut Filled,
    ) -> Result<(), Fail> {
        holds(rt, shelf.failed == 0);
        let ended = write_buffered(rt, merger, shelf, &mut filled.sink, self.room);
        if shelf.failed == 0 {
            ended?;
        }
        if self.room == 0 {
            self.at_once.clear();
            self.at_once.extend_from_slice(filled.sink.bytes())?;
        }
        same_at(rt, filled.sink.bytes(), &self.at_once, self.most);
        Ok(())
    }
}

// A web with a change file whose first old line is a plain line.
const PLAIN: &[(&str, &[u8])] = &[
    ("a.w", b"one\ntwo\n@i b.w\nfour\n"),
    ("b.w", b"three\n"),
    (
        "c.ch",
        b"@x\ntwo\n@y\n2\n2 again\n@z\n@x\nfour\n@y\n4\n@z\n",
    ),
];

fn buffers_as_much(
    rt: &(impl AllocGlobal + Abort),
    files: &[(&str, &[u8])],
    fails_at: u64,
    written: &mut Written,
) -> Result<(), Fail> {
    let most = written.most;
    written.room = 0;
    merge_reads(rt, files, &CHANGED_WEB, most, fails_at, written)?;
    written.room = 65536;
    merge_reads(rt, files, &CHANGED_WEB, most, fails_at, written)
}

// A failed read loses no line that was read before it.
#[test]
fn lines_buffered_before_a_read_that_fails(rt: HostRuntime) -> Result<(), Fail> {
    const MOST: &[usize] = &[7, 12, 24, usize::MAX];
    let mut written = Written {
        most: 0,
        room: 0,
        at_once: Vec::new(rt.alloc()),
    };
    for most in MOST {
        written.most = *most;
        for fails_at in 1..19 {
            buffers_as_much(&rt, CHANGED, fails_at, &mut written)?;
            buffers_as_much(&rt, PLAIN, fails_at, &mut written)?;
            buffers_as_much(&rt, SEVERAL, fails_at, &mut written)?;
        }
    }
    Ok(())
}
