// The files of a file system as a shelf.
ghost use Rattle.std.specs.Prelude.{◌≡◌, [], IsTrue, IsSome, IfOk, MatchResult, length};
ghost use Rattle.std.proofs.Props.{props};
ghost use Rattle.cweb_system.specs.Steps.{OnDisk};
ghost use Rattle.cweb_system.specs.declared.node.FileKey.{FileKey};
ghost use Rattle.cweb_system.specs.Tree.{IsAbsent, Opens};
ghost use Rattle.cweb_system.specs.inner.Written.{is_among};

use crate::file_set::FileSet;
use crate::{FileFault, FileSystem, FolderBins};
use cweb_files::{Shelf, ShelfFault};
use std::alloc::{AllocError, Global};

/// Files of a file system, under their paths. A folder of the system can be opened like a file; its first read fails.
#[derive(Drop)]
pub struct FolderShelf<F: FileSystem + Drop> {
    fs: F,
    /// Each file that was opened.
    read: FileSet,
    failed: u64,
    /// In an observable file system no read fails.
    ghost whole: { IsSome F.disk → failed ≡ 0 } by { Prim.hlevel props },
    /// Reading takes no step.
    ghost unchanged: { OnDisk F.disk (λ see. length (see fs).past ≡ 0) } by { Prim.hlevel props },
}

impl<F: FileSystem + Drop> FolderShelf<F> {
    ghost use Rattle.cweb_system.specs.Bins.{bins_model, bins_read, bins_system, empty_bins, new_shelf};
    ghost use Rattle.cweb_system.specs.inner.FolderCalls.{shelf_model, shelf_read, shelf_system};

    /// A shelf that has opened no file. It records each file that it opens, so that no output replaces it.
    pub fn new(alloc: Global, fs: F) -> Self
        requires { OnDisk F.disk (λ see. (see fs).past ≡ []) }
        ensures system { shelf_system result ≡ fs }
        ensures model { shelf_model F.FileSystem result ≡ new_shelf F.FileSystem fs }
        ensures read { shelf_read result ≡ [] }
    {
        FolderShelf {
            fs,
            read: FileSet::new(alloc),
            failed: 0,
        }
    }

    /// Bins of the file system. No output replaces a file that was recorded.
    pub fn into_bins(self, alloc: Global) -> FolderBins<F>
        ensures system { bins_system result ≡ shelf_system self }
        ensures read { bins_read result ≡ shelf_read self }
        ensures empty { bins_model F.FileSystem result ≡ empty_bins F.FileSystem }
    {
        let FolderShelf { fs, read, .. } = self;
        FolderBins::new(alloc, fs, read)
    }

    /// Opens a file and records it. It is an error if the system has no identity for the file.
    fn opened(&mut self, name: &str) -> Result<F::File, FileFault>
        ensures system { shelf_system self.new ≡ shelf_system self.old }
        ensures model { shelf_model F.FileSystem self.new ≡ shelf_model F.FileSystem self.old }
        ensures opens { OnDisk F.disk (λ see. MatchResult result
            (λ file. Opens name.now (F.key file) (F.position file) (F.opened_as file)
            (see (shelf_system self.old)).tree)
            (λ fault. (fault ≡ FileFault.Memory → ⊥) →
            IsAbsent name.now (see (shelf_system self.old)).tree)) }
        ensures recorded { OnDisk F.disk (λ _. IfOk result (λ file.
            IsTrue (is_among (shelf_read self.new) (F.key file)))) }
        ensures kept { (key : FileKey) → IsTrue (is_among (shelf_read self.old) key) →
            IsTrue (is_among (shelf_read self.new) key) }
    {
        let file = self.fs.open(name)?;
        self.read.insert(self.fs.key_of(&file)?)?;
        Ok(file)
    }
}

impl<F: FileSystem + Drop> Shelf for FolderShelf<F> {
    ghost use Rattle.cweb_system.specs.inner.FolderCalls.{shelf_model};

    type R = F::File;

    ghost model = { shelf_model F.FileSystem };

    /// Any error but a failed allocation means that the file is not there.
    fn fetch(&mut self, name: &str) -> Result<Option<F::File>, AllocError> {
        match self.opened(name) {
            Ok(file) => Ok(Some(file)),
            Err(FileFault::Memory) => Err(AllocError),
            Err(_) => Ok(None),
        }
    }

    fn read(&mut self, reader: &mut F::File, piece: &mut [u8]) -> Result<usize, ShelfFault> {
        match self.fs.read(reader, piece) {
            Ok(n) => Ok(n),
            Err(_) => {
                self.failed += 1;
                Err(ShelfFault)
            }
        }
    }

    fn failures(&self) -> u64 {
        self.failed
    }
}
