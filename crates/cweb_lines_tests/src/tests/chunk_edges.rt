// Lines that pass through around the end of a read and of a chunk.
use super::*;
use std::process::Abort;

// So many lines of 64 bytes come first. The first read, of 4,096 bytes, or the second, of 65,536, ends 64 bytes after them.
const BEFORE_FIRST: usize = 63;

const BEFORE_SECOND: usize = 1087;

const LINE_BEFORE: &[u8] = b"int counter_of_all_the_lines_in_front[] = { 1, 2, 3, 4, 5, 6 };\n";

// After them: plain lines, lines with trailing blanks, an include line, an old line, and a last line without newline.
const TAIL: &[u8] = b"one\ntwo \t\nthree\n@i b.w\nfour\nfive\nold\n\nsix  \nseven\nlast";

const TAIL_MERGED: &[u8] = b"one\ntwo\nthree\nin b\nfour\nfive\nnew\n\nsix\nseven\nlast\n";

// A web: so many lines of 64 bytes, then a line of `length` bytes, then more.
#[derive(Clone, Copy)]
struct Web {
    before: usize,
    length: usize,
}

// The text of a web with this tail.
fn source_with(alloc: Global, web: Web, tail: &[u8]) -> Result<Vec<u8>, AllocError> {
    let mut text = Vec::new(alloc);
    for _ in 0..web.before {
        text.extend_from_slice(LINE_BEFORE)?;
    }
    for _ in 0..web.length {
        text.push(b'x')?;
    }
    text.push(b'\n')?;
    text.extend_from_slice(tail)?;
    Ok(text)
}

// How the merged lines are taken.
#[derive(Clone, Copy)]
enum Way {
    // in chunks of this size
    Buffered(usize),
    // one by one
    OneByOne,
    // by lookahead where possible
    LookedAt,
}

// Appends the next line.
fn add_line(
    merger: &mut Merger<MemoryShelf>,
    shelf: &mut MemoryShelf,
    line: &mut Vec<u8>,
    text: &mut Vec<u8>,
    looks_ahead: bool,
) -> Result<bool, Stop> {
    if looks_ahead {
        if let Some(ahead) = merger.first_ahead() {
            text.extend_from_slice(merger.bytes_of(ahead.line))?;
            merger.take_ahead(ahead);
            return Ok(true);
        }
    }
    let Some(_) = merger.next_line(shelf, line)? else {
        return Ok(false);
    };
    text.extend_from_slice(line)?;
    Ok(true)
}

fn add_lines(
    merger: &mut Merger<MemoryShelf>,
    shelf: &mut MemoryShelf,
    line: &mut Vec<u8>,
    text: &mut Vec<u8>,
    looks_ahead: bool,
) -> Result<(), Stop> {
    for _ in 0..2 * BEFORE_SECOND {
        if !add_line(merger, shelf, line, text, looks_ahead)? {
            break;
        }
        text.extend_from_slice(b"\n")?;
    }
    Ok(())
}

fn add_all(
    rt: &impl Abort,
    merger: &mut Merger<MemoryShelf>,
    shelf: &mut MemoryShelf,
    filled: &mut Filled,
    way: Way,
) -> Result<(), Stop> {
    match way {
        Way::Buffered(room) => write_buffered(rt, merger, shelf, &mut filled.sink, room),
        Way::OneByOne => add_lines(
            merger,
            shelf,
            &mut filled.line,
            &mut filled.sink.bytes,
            false,
        ),
        Way::LookedAt => add_lines(
            merger,
            shelf,
            &mut filled.line,
            &mut filled.sink.bytes,
            true,
        ),
    }
}

// Checks the output of one way.
#[derive(Clone, Copy)]
struct Merging<'a> {
    text: &'a [u8],
    way: Way,
    case: usize,
}

impl Case<MemoryShelf, Fail> for Merging<'_> {
    fn ask<A: Abort>(
        &mut self,
        rt: &A,
        merger: &mut Merger<MemoryShelf>,
        shelf: &mut MemoryShelf,
        filled: &mut Filled,
    ) -> Result<(), Fail> {
        add_all(rt, merger, shelf, filled, self.way)?;
        same_at(rt, &filled.sink.bytes, self.text, self.case);
        Ok(())
    }
}

// Merges the web.
fn merge_long(
    rt: &(impl AllocGlobal + Abort),
    web: Web,
    merging: &mut Merging<'_>,
) -> Result<(), Fail> {
    let text = source_with(rt.alloc(), web, TAIL)?;
    let files = [
        ("a.w", text.as_slice()),
        ("b.w", b"in b "),
        ("c.ch", b"@x\nold\n@y\nnew\n@z\n"),
    ];
    merge_files(rt, &files, &CHANGED_WEB, merging)
}

// Merges it in each of these ways.
fn merges(
    rt: &(impl AllocGlobal + Abort),
    web: Web,
    ways: &[Way],
    case: usize,
) -> Result<(), Fail> {
    let text = source_with(rt.alloc(), web, TAIL_MERGED)?;
    for way in ways {
        let mut merging = Merging {
            text: &text,
            way: *way,
            case,
        };
        merge_long(rt, web, &mut merging)?;
    }
    Ok(())
}

// A read ends at each byte after the long line.
fn merges_around_reads(rt: &(impl AllocGlobal + Abort), before: usize) -> Result<(), Fail> {
    const WAYS: &[Way] = &[Way::Buffered(65536), Way::OneByOne, Way::LookedAt];
    for length in 8..64usize {
        merges(rt, Web { before, length }, WAYS, length)?;
    }
    Ok(())
}

#[test]
fn lines_around_the_end_of_the_first_read(rt: HostRuntime) -> Result<(), Fail> {
    merges_around_reads(&rt, BEFORE_FIRST)
}

#[test]
fn lines_around_the_end_of_a_later_read(rt: HostRuntime) -> Result<(), Fail> {
    merges_around_reads(&rt, BEFORE_SECOND)
}

// No line is lost or repeated at the end of a chunk.
#[test]
fn lines_around_the_end_of_a_chunk(rt: HostRuntime) -> Result<(), Fail> {
    const ROOMS: &[usize] = &[0, 1, 64, 65, 1000, 65471, 65472, 65473];
    let web = Web {
        before: BEFORE_SECOND,
        length: 5,
    };
    for room in ROOMS {
        merges(&rt, web, &[Way::Buffered(*room)], *room)?;
    }
    Ok(())
}
