// A shelf of a client's own.
ghost use Rattle.std.specs.Prelude.{◌+◌, [], drop, if◌then◌else◌, string_bytes, Some, None};
ghost use Rattle.std.specs.Str.{bytes_eq};

use cweb_lines::{Shelf, ShelfFault};
use std::alloc::{AllocError, Global};

/// An observable shelf with one file. A read takes at most three bytes.
#[derive(Drop)]
pub struct OneShelf {
    pub name: String,
    pub text: Vec<u8>,
}

/// How many bytes of the file were read.
#[derive(Clone, Copy, Drop)]
pub struct OneReader {
    pub at: usize,
}

impl OneShelf {
    /// A shelf with this file.
    pub fn new(alloc: Global, name: &str, text: &[u8]) -> Result<OneShelf, AllocError> {
        Ok(OneShelf {
            name: String::from_str(alloc, name)?,
            text: Vec::from_slice(alloc, text)?,
        })
    }
}

impl Shelf for OneShelf {
    type R = OneReader;

    ghost model = { λ shelf. record {
      failed = 0;
      contents = Some (record {
        texts = λ other.
            if bytes_eq (string_bytes shelf.name) other then Some shelf.text.items else None;
        left = λ reader. drop reader.at shelf.text.items;
        opened_as = λ _. string_bytes shelf.name;
        blamed = [];
      });
    } };

    fn fetch(&mut self, name: &str) -> Result<Option<OneReader>, AllocError> {
        if self.name.as_str() == name {
            return Ok(Some(OneReader { at: 0 }));
        }
        Ok(None)
    }

    fn read(&mut self, reader: &mut OneReader, piece: &mut [u8]) -> Result<usize, ShelfFault> {
        let text = self.text.as_slice();
        if text.len() <= reader.at {
            return Ok(0);
        }
        let n = (text.len() - reader.at).min(piece.len()).min(3);
        piece[..n].copy_from_slice(&text[reader.at..reader.at + n]);
        reader.at += n;
        Ok(n)
    }

    fn failures(&self) -> u64 {
        0
    }
}
