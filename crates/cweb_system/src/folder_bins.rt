// Bins over a file system, observable if the file system is.
ghost use Rattle.cweb_system.specs.Steps.{keys_in, AreDecent, OnDisk};

use crate::bins::Folder;
use crate::file_set::FileSet;
use crate::file_system::FileSystem;
use crate::run_files::RunFiles;
use cweb_files::{BinFault, Bins, Sink, SinkFault};
use std::alloc::Global;

/// Files of a file system. An output is written to a draft, which is renamed when it is committed.
#[derive(Drop)]
pub struct FolderBins<F: FileSystem + Drop> {
    folder: Folder<F>,
    /// At each moment, each file that is no draft was the old one or a whole draft.
    ghost steps: { ∥ (OnDisk F.disk (λ see.
        AreDecent (keys_in folder.files.read) (see folder.fs).tree (see folder.fs).past)) ∥₁ },
}

impl<F: FileSystem + Drop> FolderBins<F> {
    ghost use Rattle.std.specs.Prelude.{◌≡◌, []};
    ghost use Rattle.cweb_system.specs.Bins.{bins_model, bins_read, bins_system, empty_bins};

    /// Bins that have committed no file. No output replaces a file in `read`.
    pub(crate) fn new(alloc: Global, fs: F, read: FileSet) -> Self
        requires { OnDisk F.disk (λ see. (see fs).past ≡ []) }
        ensures system { bins_system result ≡ fs }
        ensures read { bins_read result ≡ keys_in read }
        ensures empty { bins_model F.FileSystem result ≡ empty_bins F.FileSystem }
    {
        FolderBins {
            folder: Folder {
                alloc,
                fs,
                files: RunFiles::new(alloc, read),
                draft: None,
                refused: None,
                failed: 0,
            },
        }
    }

    /// At each moment so far, each file that is no draft was the old one or a whole draft. (A law.)
    pub fn each_moment(&self)
        ensures { ∥ (OnDisk F.disk (λ see. AreDecent (bins_read self.now)
            (see (bins_system self.now)).tree (see (bins_system self.now)).past)) ∥₁ }
    {}

    /// The file system.
    pub fn file_system(&self) -> &F
        ensures { result.now ≡ bins_system self.now }
    {
        &self.folder.fs
    }
}

impl<F: FileSystem + Drop> Sink for FolderBins<F> {
    ghost use Rattle.cweb_system.specs.Bins.{bins_model};

    ghost model = { bins_model F.FileSystem };

    fn write(&mut self, piece: &[u8]) -> Result<usize, SinkFault> {
        self.folder.add(piece)
    }

    fn failures(&self) -> u64 {
        self.folder.failed
    }
}

impl<F: FileSystem + Drop> Bins for FolderBins<F> {
    fn start_file(&mut self, name: &str) -> Result<(), BinFault> {
        self.folder.start(name)
    }

    fn commit_file(&mut self) -> Result<(), BinFault> {
        self.folder.commit()
    }

    fn abandon_file(&mut self) {
        self.folder.abandon()
    }
}
