// Lines that are too long, and files that are too long.
use super::devices::{Ending, Endless, EndlessChange};
use super::*;
use std::process::Abort;

// Adds a file with one line of `length` bytes `x`.
fn put_line(
    alloc: Global,
    shelf: &mut MemoryShelf,
    name: &str,
    length: usize,
) -> Result<(), AllocError> {
    let line = vec![in alloc; b'x'; length]?;
    shelf.put(name, &line)
}

fn long_shelf(alloc: Global) -> Result<MemoryShelf, AllocError> {
    let mut shelf = shelf_of(alloc, &[("a.w", b"@i longest\n@i\n@i longer\n")])?;
    put_line(alloc, &mut shelf, "longest", 1_048_575)?;
    put_line(alloc, &mut shelf, "longer", 1_048_576)?;
    Ok(shelf)
}

fn is_all_x(line: &[u8]) -> bool {
    for byte in line {
        if *byte != b'x' {
            return false;
        }
    }
    true
}

fn takes_the_longest(
    rt: &impl Abort,
    merger: &mut Merger<MemoryShelf>,
    shelf: &mut MemoryShelf,
    line: &mut Vec<u8>,
) -> Result<(), Fail> {
    let place = Place {
        file: FileId(1),
        line: 1,
    };
    comes(rt, merger.next_line(shelf, line)?, place);
    holds(rt, line.len() == 1_048_575);
    holds(rt, is_all_x(line));
    Ok(())
}

fn stops_at_the_longer(
    rt: &impl Abort,
    merger: &mut Merger<MemoryShelf>,
    shelf: &mut MemoryShelf,
    line: &mut Vec<u8>,
) -> Result<(), Fail> {
    line.push(b'x')?;
    let stop = Stop::LineTooLong(FileId(2));
    stops(rt, merger.next_line(shelf, line), stop);
    holds(rt, line.is_empty());
    Ok(())
}

// A line of the maximum length, then a longer one.
#[derive(Clone, Copy)]
struct Longest;

impl Case<MemoryShelf, Fail> for Longest {
    fn ask<A: Abort>(
        &mut self,
        rt: &A,
        merger: &mut Merger<MemoryShelf>,
        shelf: &mut MemoryShelf,
        filled: &mut Filled,
    ) -> Result<(), Fail> {
        takes_the_longest(rt, merger, shelf, &mut filled.line)?;
        for _ in 0..2 {
            stops_at_the_longer(rt, merger, shelf, &mut filled.line)?;
            let want = "NoName in 0 at 2\n0 is a.w\n1 is longest\n2 is longer\n";
            reports(rt, merger, &mut filled.reported, want)?;
        }
        Ok(())
    }
}

#[test]
fn lines_as_long_as_they_may_be(rt: HostRuntime) -> Result<(), Fail> {
    let mut shelf = long_shelf(rt.alloc())?;
    merge(&rt, &mut shelf, &WEB, &mut Longest)
}

// `lines` lines of `length` bytes, the first at this place. Then this stop and these faults.
#[derive(Clone, Copy)]
struct Lines {
    first: Place,
    length: usize,
    lines: u32,
    stop: Stop,
    reported: &'static str,
}

impl Lines {
    fn come<S: Shelf>(
        &self,
        rt: &impl Abort,
        merger: &mut Merger<S>,
        shelf: &mut S,
        line: &mut Vec<u8>,
    ) -> Result<(), Stop> {
        for i in 0..self.lines {
            let want = Place {
                file: self.first.file,
                line: self.first.line.wrapping_add(i),
            };
            holds(rt, shelf.failures() == 0);
            comes(rt, merger.next_line(shelf, line)?, want);
            holds(rt, line.len() == self.length);
        }
        Ok(())
    }

    // There is no line, also in later calls.
    fn stop<S: Shelf>(
        &self,
        rt: &impl Abort,
        merger: &mut Merger<S>,
        shelf: &mut S,
        line: &mut Vec<u8>,
    ) {
        for _ in 0..2 {
            holds(rt, shelf.failures() == 0);
            stops(rt, merger.next_line(shelf, line), self.stop);
            holds(rt, line.is_empty());
        }
    }
}

impl<S: Shelf> Case<S, Fail> for Lines {
    fn ask<A: Abort>(
        &mut self,
        rt: &A,
        merger: &mut Merger<S>,
        shelf: &mut S,
        filled: &mut Filled,
    ) -> Result<(), Fail> {
        self.come(rt, merger, shelf, &mut filled.line)?;
        self.stop(rt, merger, shelf, &mut filled.line);
        reports(rt, merger, &mut filled.reported, self.reported)
    }
}

// As many lines of `length` bytes as the limits allow, then a stop.
fn take_all(
    rt: &(impl AllocGlobal + Abort),
    length: usize,
    lines: u32,
    stop: Stop,
) -> Result<(), Fail> {
    let mut case = Lines {
        first: Place {
            file: FileId(0),
            line: 1,
        },
        length,
        lines,
        stop,
        reported: "0 is a.w\n",
    };
    merge(rt, &mut Endless { length }, &WEB, &mut case)
}

#[test]
fn a_line_that_never_ends(rt: HostRuntime) -> Result<(), Fail> {
    take_all(&rt, usize::MAX, 0, Stop::LineTooLong(FileId(0)))
}

#[test]
fn empty_lines_that_never_end(rt: HostRuntime) -> Result<(), Fail> {
    take_all(&rt, 0, 16_777_216, Stop::TooMuchText)
}

#[test]
fn long_lines_that_never_end(rt: HostRuntime) -> Result<(), Fail> {
    take_all(&rt, 1_048_575, 1024, Stop::TooMuchText)
}

// 1,024 lines of 1,048,574 bytes, then a line of `length` bytes without newline, or a stop.
#[derive(Clone, Copy)]
struct LastLine {
    lines: Lines,
    length: Option<usize>,
}

impl LastLine {
    fn comes<S: Shelf>(
        &self,
        rt: &impl Abort,
        merger: &mut Merger<S>,
        shelf: &mut S,
        line: &mut Vec<u8>,
        length: usize,
    ) -> Result<(), Stop> {
        holds(rt, shelf.failures() == 0);
        let want = Place {
            file: FileId(0),
            line: 1025,
        };
        comes(rt, merger.next_line(shelf, line)?, want);
        holds(rt, line.len() == length);
        holds(rt, shelf.failures() == 0);
        holds(rt, merger.next_line(shelf, line)?.is_none());
        Ok(())
    }
}

impl<S: Shelf> Case<S, Fail> for LastLine {
    fn ask<A: Abort>(
        &mut self,
        rt: &A,
        merger: &mut Merger<S>,
        shelf: &mut S,
        filled: &mut Filled,
    ) -> Result<(), Fail> {
        self.lines.come(rt, merger, shelf, &mut filled.line)?;
        match self.length {
            Some(length) => self.comes(rt, merger, shelf, &mut filled.line, length)?,
            None => self.lines.stop(rt, merger, shelf, &mut filled.line),
        }
        Ok(())
    }
}

// A web of `size` bytes.
fn take_last(
    rt: &(impl AllocGlobal + Abort),
    size: usize,
    length: Option<usize>,
) -> Result<(), Fail> {
    let lines = Lines {
        first: Place {
            file: FileId(0),
            line: 1,
        },
        length: 1_048_574,
        lines: 1024,
        stop: Stop::TooMuchText,
        reported: "0 is a.w\n",
    };
    let mut shelf = Ending {
        lines: Endless { length: 1_048_574 },
        size,
    };
    merge(rt, &mut shelf, &WEB, &mut LastLine { lines, length })
}

// A last line without newline counts its bytes alone, so a text of just as many bytes as may be taken is accepted.
#[test]
fn a_text_of_the_maximum_size(rt: HostRuntime) -> Result<(), Fail> {
    take_last(&rt, 1_073_741_824, Some(1024))
}

#[test]
fn a_text_of_one_byte_more(rt: HostRuntime) -> Result<(), Fail> {
    take_last(&rt, 1_073_741_825, None)
}

// A web, and a change file that begins with `prefix`.
fn change_shelf(alloc: Global, prefix: &str) -> Result<MemoryShelf, AllocError> {
    shelf_of(alloc, &[("a.w", b"A\n"), ("c.ch", prefix.as_bytes())])
}

// A change file that goes on with lines of `length` bytes without end: how many are emitted, and what is reported.
fn check_endless(
    rt: &(impl AllocGlobal + Abort),
    prefix: &str,
    length: usize,
    lines: u32,
    reported: &'static str,
) -> Result<(), Fail> {
    let mut shelf = EndlessChange {
        shelf: change_shelf(rt.alloc(), prefix)?,
        lines: Endless { length },
    };
    let mut case = Lines {
        first: Place {
            file: FileId(1),
            line: 4,
        },
        length,
        lines,
        stop: Stop::TooMuchText,
        reported,
    };
    merge(rt, &mut shelf, &CHANGED_WEB, &mut case)
}

#[test]
fn change_files_that_never_end(rt: HostRuntime) -> Result<(), Fail> {
    const NO_FAULT: &str = "0 is a.w\n1 is c.ch\n";
    // what comes before the endless lines, their length, how many are emitted, and what is reported
    const EXAMPLES: &[(&str, usize, u32, &str)] = &[
        // outside an entry
        ("", 1_048_575, 0, NO_FAULT),
        // empty lines after @x
        ("@x\n", 0, 0, NO_FAULT),
        // old lines
        ("@x\nA\n", 0, 0, NO_FAULT),
        // new lines
        ("@x\nA\n@y\n", 1_048_575, 1023, NO_FAULT),
        // a fault of the search before the stop
        (
            "@z\n",
            1_048_575,
            0,
            "MissingX in 1 at 1\n0 is a.w\n1 is c.ch\n",
        ),
        // a fault of the old side before the stop
        (
            "@x\nA\n@z\n",
            1_048_575,
            0,
            "WantsY in 1 at 3\n0 is a.w\n1 is c.ch\n",
        ),
    ];
    for (prefix, length, lines, reported) in EXAMPLES {
        check_endless(&rt, *prefix, *length, *lines, *reported)?;
    }
    Ok(())
}
