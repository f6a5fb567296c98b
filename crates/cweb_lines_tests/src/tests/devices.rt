// Files that never end. Their shelves aren't observable.
ghost use Rattle.std.specs.Prelude.{None};

use super::*;

/// Each name has lines of `length` bytes `x` without end.
#[derive(Drop)]
pub struct Endless {
    pub length: usize,
}

impl Shelf for Endless {
    // the number of bytes of the current line that were read
    type R = usize;

    ghost model = { λ _. record { failed = 0; contents = None } };

    fn fetch(&mut self, _: &str) -> Result<Option<usize>, AllocError> {
        Ok(Some(0))
    }

    fn read(&mut self, position: &mut usize, piece: &mut [u8]) -> Result<usize, ShelfFault> {
        for i in 0..piece.len() {
            if *position < self.length {
                piece[i] = b'x';
                *position += 1;
            } else {
                piece[i] = b'\n';
                *position = 0;
            }
        }
        Ok(piece.len())
    }

    fn failures(&self) -> u64 {
        0
    }
}

/// Each name has lines without end, but only its first `size` bytes.
#[derive(Drop)]
pub struct Ending {
    pub lines: Endless,
    pub size: usize,
}

impl Shelf for Ending {
    // the number of bytes of the current line that were read, and of all bytes that are left
    type R = (usize, usize);

    ghost model = { λ _. record { failed = 0; contents = None } };

    fn fetch(&mut self, _: &str) -> Result<Option<(usize, usize)>, AllocError> {
        Ok(Some((0, self.size)))
    }

    fn read(&mut self, reader: &mut (usize, usize), piece: &mut [u8]) -> Result<usize, ShelfFault> {
        let n = piece.len().min(reader.1);
        reader.1 -= n;
        self.lines.read(&mut reader.0, &mut piece[..n])
    }

    fn failures(&self) -> u64 {
        0
    }
}

/// Files in memory. The change file `c.ch` goes on with lines without end.
#[derive(Drop)]
pub struct EndlessChange {
    pub shelf: MemoryShelf,
    pub lines: Endless,
}

impl Shelf for EndlessChange {
    // a reader, and for the change file the number of bytes of the current line after its end
    type R = (MemoryReader, Option<usize>);

    ghost model = { λ _. record { failed = 0; contents = None } };

    fn fetch(&mut self, name: &str) -> Result<Option<(MemoryReader, Option<usize>)>, AllocError> {
        let Some(reader) = self.shelf.fetch(name)? else {
            return Ok(None);
        };
        let position = if name == "c.ch" { Some(0) } else { None };
        Ok(Some((reader, position)))
    }

    fn read(
        &mut self,
        reader: &mut (MemoryReader, Option<usize>),
        piece: &mut [u8],
    ) -> Result<usize, ShelfFault> {
        let n = self.shelf.read(&mut reader.0, piece)?;
        match &mut reader.1 {
            Some(position) if n == 0 => self.lines.read(position, piece),
            _ => Ok(n),
        }
    }

    fn failures(&self) -> u64 {
        0
    }
}
