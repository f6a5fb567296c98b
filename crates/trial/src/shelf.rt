// A shelf in memory whose n-th read fails.
ghost use Rattle.std.specs.Prelude.{◌≡◌, None};

use cweb_files::{MemoryReader, MemoryShelf, Shelf, ShelfFault};
use std::alloc::{AllocError, Global};

/// A shelf with these names and contents.
pub fn shelf_of(alloc: Global, texts: &[(&str, &[u8])]) -> Result<MemoryShelf, AllocError> {
    let mut shelf = MemoryShelf::new(alloc);
    for (name, text) in texts {
        shelf.put(*name, *text)?;
    }
    Ok(shelf)
}

/// A shelf in memory with limited reads, one of which may fail.
#[derive(Drop)]
pub struct TrialShelf {
    pub shelf: MemoryShelf,
    /// The maximum number of bytes of a read.
    pub most: usize,
    pub reads: u64,
    /// The number of the read that fails, from 1. With 0 none fails.
    pub fails_at: u64,
    pub failed: u64,
    /// The number of opened files.
    pub opened: u32,
    /// The file of the failed read: how many were opened before it.
    pub failed_in: u32,
}

impl TrialShelf {
    /// A shelf without a limit and a failure.
    pub fn new(shelf: MemoryShelf) -> Self
        ensures { result.failed ≡ 0 }
    {
        TrialShelf {
            shelf,
            most: usize::MAX,
            reads: 0,
            fails_at: 0,
            failed: 0,
            opened: 0,
            failed_in: 0,
        }
    }

    /// A shelf that reads at most three bytes at once, and fails once after `good` reads.
    pub fn failing_after(shelf: MemoryShelf, good: u64) -> Self
        ensures { result.failed ≡ 0 }
    {
        let mut failing = TrialShelf::new(shelf);
        failing.most = 3;
        failing.fails_at = good.saturating_add(1);
        failing
    }
}

impl Shelf for TrialShelf {
    // the number of files opened before it, and the reader
    type R = (u32, MemoryReader);

    ghost model = { λ shelf. record { failed = shelf.failed; contents = None } };

    fn fetch(&mut self, name: &str) -> Result<Option<(u32, MemoryReader)>, AllocError> {
        let Some(reader) = self.shelf.fetch(name)? else {
            return Ok(None);
        };
        let before = self.opened;
        self.opened = before.saturating_add(1);
        Ok(Some((before, reader)))
    }

    fn read(
        &mut self,
        reader: &mut (u32, MemoryReader),
        piece: &mut [u8],
    ) -> Result<usize, ShelfFault> {
        self.reads = self.reads.saturating_add(1);
        if self.reads == self.fails_at {
            self.failed += 1;
            self.failed_in = reader.0;
            return Err(ShelfFault);
        }
        let n = piece.len().min(self.most.max(1));
        self.shelf.read(&mut reader.1, &mut piece[..n])
    }

    fn failures(&self) -> u64 {
        self.failed
    }
}
