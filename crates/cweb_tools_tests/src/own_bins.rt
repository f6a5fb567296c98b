// Bins of a client's own.
ghost use Rattle.std.specs.Prelude.{◌≡◌, [], string_bytes, IfOk};

use cweb_lines::{Sink, SinkFault};
use cweb_out::{BinFault, Bins};
use std::alloc::{AllocError, Global};

/// A file and its name.
#[derive(Drop)]
pub struct NamedFile {
    pub name: String,
    pub bytes: Vec<u8>,
}

/// Observable bins that store one file. They refuse a file of another name.
#[derive(Drop)]
pub struct OneBin {
    pub alloc: Global,
    pub file: Option<NamedFile>,
    pub draft: Option<NamedFile>,
    pub refused: Option<BinFault>,
    pub failed: u64,
}

impl OneBin {
    /// No file.
    pub fn new(alloc: Global) -> Self
        ensures { result.failed ≡ 0 }
    {
        OneBin {
            alloc,
            file: None,
            draft: None,
            refused: None,
            failed: 0,
        }
    }
}

fn empty_file(alloc: Global, name: &str) -> Result<NamedFile, AllocError>
    ensures name { IfOk result (λ file. string_bytes file.name ≡ name.now) }
    ensures bytes { IfOk result (λ file. file.bytes.items ≡ []) }
{
    Ok(NamedFile {
        name: String::from_str(alloc, name)?,
        bytes: Vec::new(alloc),
    })
}

impl Sink for OneBin {
    ghost use Rattle.cweb_tools_tests.specs.inner.OneBin.{model_of};

    ghost model = { model_of };

    fn write(&mut self, piece: &[u8]) -> Result<usize, SinkFault> {
        let Some(mut draft) = self.draft.take() else {
            self.failed += 1;
            return Err(SinkFault);
        };
        let grown = draft.bytes.extend_from_slice(piece);
        self.draft = Some(draft);
        if grown.is_err() {
            self.failed += 1;
            return Err(SinkFault);
        }
        Ok(piece.len())
    }

    fn failures(&self) -> u64 {
        self.failed
    }
}

impl Bins for OneBin {
    fn start_file(&mut self, name: &str) -> Result<(), BinFault> {
        self.draft = None;
        match empty_file(self.alloc, name) {
            Ok(draft) => {
                self.draft = Some(draft);
                self.refused = None;
                Ok(())
            }
            Err(_) => {
                self.refused = Some(BinFault::Memory);
                Err(BinFault::Memory)
            }
        }
    }

    fn commit_file(&mut self) -> Result<(), BinFault> {
        let Some(draft) = self.draft.take() else {
            self.failed += 1;
            return Err(BinFault::Device);
        };
        if let Some(old) = &self.file {
            if old.name.as_str() != draft.name.as_str() {
                self.failed += 1;
                return Err(BinFault::Device);
            }
        }
        self.file = Some(draft);
        Ok(())
    }

    fn abandon_file(&mut self) {
        self.draft = None;
    }
}
