// The reader: the scanner and the item that is open at the end of a line.
ghost use Rattle.std.specs.Prelude.{◌≡◌, ◌<◌};

pub mod codes;
pub mod line;
pub mod lines;
pub mod next_lexeme;
pub mod open;
pub mod opened;
pub mod opening;
pub mod pending;

use crate::reader::open::Open;
use crate::scanner::Scanner;
use cweb_files::{FileId, Place};
use std::alloc::{AllocError, Global};
use std::marker::Model;

/// The lines so far: the scanner's state before the open item, and that item. `pending` has its source so far, and `places`
/// those of the lines after its newlines.
pub struct Reader {
    pub(crate) alloc: Global,
    pub(crate) scanner: Scanner,
    pub(crate) item: Open,
    pub(crate) pending: Vec<u8>,
    pub(crate) places: Vec<Place>,
    pub(crate) begun: bool,
}

impl Drop for Reader {
    fn drop(self) {
        let Self {
            alloc: _,
            scanner: _,
            item: _,
            pending: _,
            places: _,
            begun: _,
        } = self;
    }
}

impl Model for Reader {
    ghost use Rattle.cweb_scan.specs.inner.ReaderModel.{ReaderModel};
    ghost use Rattle.cweb_scan.specs.inner.PendingItems.{item_of, IsStored};

    ghost Value = { ReaderModel };

    ghost view = { λ r.
        record {
          state = r.scanner;
          item = item_of r.item r.pending.items r.places.items;
          begun = r.begun;
        } };

    ghost invariant = { λ r. IsStored r.item r.scanner.context r.pending.items r.places.items };
}

impl Reader {
    ghost use Rattle.cweb_scan.specs.inner.ReaderModel.{new_reader};

    /// A reader before the first line.
    pub fn new(alloc: Global) -> Reader
        ensures { result ≡ new_reader }
    {
        Reader {
            alloc,
            scanner: Scanner::new(
                alloc,
                Place {
                    file: FileId(0),
                    line: 0,
                },
            ),
            item: Open::Between,
            pending: Vec::new(alloc),
            places: Vec::new(alloc),
            begun: false,
        }
    }
}
