// Lookahead.
use super::*;
use std::process::Abort;

const PLACED: &[(&str, &[u8])] = &[
    ("a.w", b"one\ntwo \n@i b.w\nold\nfive\nlast"),
    ("b.w", b"in b\nbehind\n"),
    ("c.ch", b"@x\nold\n@y\nnew\nnewer\n@z\n"),
];

// For each merged line its file and number, and whether lookahead sees it.
const PLACES: &[(u32, u32, bool)] = &[
    (0, 1, false),
    (0, 2, true),
    (2, 1, false),
    (2, 2, true),
    (1, 4, false),
    (1, 5, false),
    (0, 5, false),
    (0, 6, false),
];

const LOOKED_AT: &[(&str, &[u8])] = &[
    ("a.w", b"one\ntwo\nthree\nfour\nfive \nsix\n@i b.w\nlast\n"),
    ("b.w", b"in b\n"),
];

// How many lines are taken at once, their bytes, and the number of the next line.
const TAKEN_AT_ONCE: &[(u32, &[u8], Option<u32>)] = &[
    (0, b"", Some(1)),
    (2, b"twothree", Some(4)),
    (1, b"five", Some(6)),
    (0, b"", Some(1)),
    (0, b"", Some(8)),
    (0, b"", None),
];

// Takes the next line if lookahead sees it.
fn take_next_ahead(merger: &mut Merger<MemoryShelf>) -> Option<Place> {
    let ahead = merger.first_ahead()?;
    merger.take_ahead(ahead);
    Some(ahead.line.place)
}

// Checks the place of the next line, and whether lookahead sees it.
fn comes_in_place(
    rt: &impl Abort,
    merger: &mut Merger<MemoryShelf>,
    shelf: &mut MemoryShelf,
    line: &mut Vec<u8>,
    wanted: &(u32, u32, bool),
) -> Result<(), Stop> {
    let seen = take_next_ahead(merger);
    holds(rt, seen.is_some() == wanted.2);
    let place = match seen {
        Some(place) => Some(place),
        None => merger.next_line(shelf, line)?,
    };
    let want = Place {
        file: FileId(wanted.0),
        line: wanted.1,
    };
    comes(rt, place, want);
    Ok(())
}

// Checks all places.
#[derive(Clone, Copy)]
struct Placing;

impl Case<MemoryShelf, Fail> for Placing {
    fn ask<A: Abort>(
        &mut self,
        rt: &A,
        merger: &mut Merger<MemoryShelf>,
        shelf: &mut MemoryShelf,
        filled: &mut Filled,
    ) -> Result<(), Fail> {
        for wanted in PLACES {
            comes_in_place(rt, merger, shelf, &mut filled.line, wanted)?;
        }
        holds(rt, merger.first_ahead().is_none());
        holds(rt, merger.next_line(shelf, &mut filled.line)?.is_none());
        Ok(())
    }
}

// Lookahead sees no line before a read, at an include line or at a change.
#[test]
fn places_of_lines_that_lookahead_sees(rt: HostRuntime) -> Result<(), Fail> {
    merge_files(&rt, PLACED, &CHANGED_WEB, &mut Placing)
}

// Looks at two lines at most and takes them at once. Returns their number and appends their bytes.
fn taken_at_once(merger: &mut Merger<MemoryShelf>, text: &mut Vec<u8>) -> Result<u32, Stop> {
    let Some(first) = merger.first_ahead() else {
        return Ok(0);
    };
    text.extend_from_slice(merger.bytes_of(first.line))?;
    let Some(second) = merger.next_ahead(first) else {
        merger.take_ahead(first);
        return Ok(1);
    };
    text.extend_from_slice(merger.bytes_of(second.line))?;
    merger.take_ahead(second);
    Ok(2)
}

// Checks the lines that are taken at once, and the number of the next line.
fn takes_at_once(
    rt: &impl Abort,
    merger: &mut Merger<MemoryShelf>,
    shelf: &mut MemoryShelf,
    line: &mut Vec<u8>,
    wanted: &(u32, &[u8], Option<u32>),
) -> Result<(), Fail> {
    line.clear();
    let taken = taken_at_once(merger, line)?;
    holds(rt, taken == wanted.0);
    same_bytes(rt, line, wanted.1);
    let after = number_of(merger.next_line(shelf, line)?);
    holds(rt, after == wanted.2);
    Ok(())
}

fn number_of(place: Option<Place>) -> Option<u32> {
    match place {
        Some(place) => Some(place.line),
        None => None,
    }
}

// Takes lines at once, again and again.
#[derive(Clone, Copy)]
struct Taking;

impl Case<MemoryShelf, Fail> for Taking {
    fn ask<A: Abort>(
        &mut self,
        rt: &A,
        merger: &mut Merger<MemoryShelf>,
        shelf: &mut MemoryShelf,
        filled: &mut Filled,
    ) -> Result<(), Fail> {
        for wanted in TAKEN_AT_ONCE {
            takes_at_once(rt, merger, shelf, &mut filled.line, wanted)?;
        }
        Ok(())
    }
}

// Lookahead takes no line twice. It finds none before a read, after trailing blanks, or before an include line.
#[test]
fn lines_looked_at_before_they_are_taken(rt: HostRuntime) -> Result<(), Fail> {
    merge_files(&rt, LOOKED_AT, &WEB, &mut Taking)
}
