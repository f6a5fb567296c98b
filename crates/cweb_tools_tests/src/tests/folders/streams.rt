// Streams and files of the system, and streams that transfer parts or are interrupted.
use super::wanted::*;
use cweb_lines::{Shelf, ShelfFault, Sink, write_all};
use cweb_tools::{FolderShelf, StdFolder, StdSink, read_once};
use std::io;
use std::io::{Error, ErrorKind, Read, Write};
use std::process::Abort;

/// Takes at most two bytes. Every other call is interrupted by a signal.
#[derive(Drop)]
struct Dripping {
    taken: Vec<u8>,
    broken_off: bool,
}

impl Write for Dripping {
    fn write(&mut self, piece: &[u8]) -> io::Result<usize> {
        self.broken_off = !self.broken_off;
        if self.broken_off {
            return Err(Error::from(ErrorKind::Interrupted));
        }
        let taken = piece.len().min(2);
        match self.taken.extend_from_slice(&piece[..taken]) {
            Ok(()) => Ok(taken),
            Err(_) => Err(Error::from(ErrorKind::OutOfMemory)),
        }
    }

    fn flush(&mut self) -> io::Result<()> {
        Ok(())
    }
}

/// A write of three bytes takes two, and a whole write takes all.
fn takes_parts<S: Sink>(rt: &impl Abort, sink: &mut S) {
    holds(rt, sink.failures() == 0);
    holds(rt, sink.write(b"abc") == Ok(2));
    holds(rt, sink.failures() == 0);
    holds(rt, write_all(sink, b"cdefg").is_ok());
    holds(rt, sink.failures() == 0);
}

#[test]
fn a_stream_that_takes_parts_loses_nothing(rt: HostRuntime) {
    let mut dripping = Dripping {
        taken: Vec::new(rt.alloc()),
        broken_off: false,
    };
    takes_parts(&rt, &mut StdSink::new(&mut dripping));
    same_bytes(&rt, &dripping.taken, b"abcdefg");
}

/// Returns at most three bytes. Every other call is interrupted by a signal.
#[derive(Drop)]
struct Trickling<'a> {
    left: &'a [u8],
    broken_off: bool,
}

impl Read for Trickling<'_> {
    fn read(&mut self, piece: &mut [u8]) -> io::Result<usize> {
        self.broken_off = !self.broken_off;
        if self.broken_off {
            return Err(Error::from(ErrorKind::Interrupted));
        }
        let count = self.left.len().min(piece.len()).min(3);
        let (now, later) = self.left.split_at(count);
        piece[..count].copy_from_slice(now);
        self.left = later;
        Ok(count)
    }
}

/// A read returns this many bytes, and the chunk then has these contents.
fn reads_part<F: Read>(rt: &impl Abort, file: &mut F, piece: &mut [u8], count: usize, held: &[u8]) {
    holds(rt, read_once(file, piece) == Ok(count));
    same_bytes(rt, piece, held);
}

#[test]
fn a_file_read_in_parts_loses_nothing(rt: HostRuntime) {
    const PARTS: &[(usize, &[u8])] = &[(3, b"abc--"), (3, b"def--"), (2, b"ghf--"), (0, b"ghf--")];
    let mut file = Trickling {
        left: b"abcdefgh",
        broken_off: false,
    };
    let mut piece = [b'-'; 5];
    for (count, held) in PARTS {
        reads_part(&rt, &mut file, &mut piece, *count, *held);
    }
}

/// Takes nothing and returns 0.
#[derive(Drop)]
struct Full;

impl Write for Full {
    fn write(&mut self, _: &[u8]) -> io::Result<usize> {
        Ok(0)
    }

    fn flush(&mut self) -> io::Result<()> {
        Ok(())
    }
}

/// An empty write succeeds, and any other one fails.
fn takes_nothing<S: Sink>(rt: &impl Abort, sink: &mut S) {
    holds(rt, sink.failures() == 0);
    holds(rt, sink.write(b"") == Ok(0));
    holds(rt, sink.failures() == 0);
    holds(rt, sink.write(b"x").is_err());
    holds(rt, sink.failures() == 1);
}

#[test]
fn a_stream_that_takes_nothing_has_failed(rt: HostRuntime) {
    takes_nothing(&rt, &mut StdSink::new(Full));
}

/// A file can be opened. Its first read returns this many bytes or fails.
fn first_read_answers<S: Shelf>(
    rt: &impl Abort,
    shelf: &mut S,
    name: &str,
    want: Result<usize, ShelfFault>,
) {
    let file = shelf.fetch(name).expect(rt, "memory");
    let mut file = file.expect(rt, "a file");
    let mut piece = [0; 8];
    holds(rt, shelf.failures() < 2);
    holds(rt, shelf.read(&mut file, &mut piece) == want);
}

fn reads_the_system<S: Shelf>(rt: &impl Abort, shelf: &mut S) {
    holds(rt, !opens(rt, shelf, "/no/such/file"));
    holds(rt, !opens(rt, shelf, ""));
    // A folder can be opened, and its first read fails.
    first_read_answers(rt, shelf, "/", Err(ShelfFault));
    holds(rt, shelf.failures() == 1);
    first_read_answers(rt, shelf, "/dev/zero", Ok(8));
    first_read_answers(rt, shelf, "/dev/null", Ok(0));
}

#[test]
fn files_of_the_system(rt: HostRuntime) {
    reads_the_system(
        &rt,
        &mut FolderShelf::new(rt.alloc(), StdFolder::new(rt.alloc(), &rt)),
    );
}
