// Files of a file system as bins.
ghost use Rattle.std.specs.Prelude.{◌≡◌, ◌≤◌, ◌<◌, ◌+◌, ◌^◌, None, IsTrue, IsSome, IfSome, IfOk, IfErr, OnOk, OnErr};
ghost use Rattle.std.specs.Prelude.{length, take, string_bytes};
ghost use Rattle.std.proofs.Props.{props};
ghost use Rattle.cweb_system.specs.Steps.{OnDisk};
ghost use Rattle.cweb_system.specs.inner.Drafts.{IfCanBegin, IfCanPlace, IsCleared, IsSound, KeepsMode};

use crate::drafts::{Draft, begin, discard, put_in_place, write_to};
use crate::run_files::RunFiles;
use crate::{FileFault, FileSystem};
use cweb_files::{BinFault, SinkFault};
use std::alloc::Global;

/// The files of a run and its draft.
#[derive(Drop)]
pub struct Folder<F: FileSystem + Drop> {
    pub alloc: Global,
    pub fs: F,
    pub files: RunFiles,
    pub draft: Option<Draft<F::File>>,
    /// Why the last draft was refused.
    pub refused: Option<BinFault>,
    pub failed: u64,
    ghost sound: { IsSound F.disk F.key files draft fs } by { Prim.hlevel props },
}

impl<F: FileSystem + Drop> Folder<F> {
    ghost use Rattle.cweb_system.specs.Bins.{folder_model};
    ghost use Rattle.cweb_system.specs.inner.FolderCalls.{KeepsFolder};
    ghost use Rattle.cweb_files.specs.Bins.{refused};
    ghost use Rattle.cweb_files.specs.Sinks.{HasDraft, changed, committed, failed_once, failing};
    ghost use Rattle.cweb_files.specs.Sinks.{with_draft, without_draft, written};

    /// Begins an empty draft and discards an open one.
    pub fn start(&mut self, name: &str) -> Result<(), BinFault>
        requires { self.old.failed + 1 < 2 ^ 64 }
        ensures keeps { KeepsFolder F.FileSystem self.old self.new }
        ensures begun { OnOk result (folder_model F.FileSystem self.new
            ≡ changed (with_draft name.now) (folder_model F.FileSystem self.old)) }
        ensures err { IfErr result (λ fault. folder_model F.FileSystem self.new
            ≡ refused fault (folder_model F.FileSystem self.old)) }
        ensures cause { OnDisk F.disk (λ see. self.old.draft ≡ None →
            IfCanBegin self.old.files name.now (see self.old.fs) (IfErr result
            (λ fault. fault ≡ BinFault.Device → IsTrue (see self.new.fs).failed))) }
    {
        self.abandon();
        match begin(self.alloc, &mut self.fs, name, &mut self.files) {
            Ok(draft) => {
                self.draft = Some(draft);
                self.refused = None;
                Ok(())
            }
            Err(fault) => {
                let fault = bin_fault(fault);
                self.refused = Some(fault);
                if fault == BinFault::Device {
                    self.failed += 1;
                }
                Err(fault)
            }
        }
    }

    /// Appends bytes to the draft.
    pub fn add(&mut self, piece: &[u8]) -> Result<usize, SinkFault>
        requires { self.old.failed + 1 < 2 ^ 64 }
        ensures keeps { KeepsFolder F.FileSystem self.old self.new }
        ensures within { IfOk result (λ n. n ≤ length piece.now) }
        ensures some { 0 < length piece.now → IfOk result (λ n. 0 < n) }
        ensures ok { IfOk result (λ n. folder_model F.FileSystem self.new
            ≡ written (take n piece.now) (folder_model F.FileSystem self.old)) }
        ensures err { OnErr result (folder_model F.FileSystem self.new
            ≡ failed_once (folder_model F.FileSystem self.old)) }
        ensures begun { OnOk result (HasDraft (folder_model F.FileSystem self.old)) }
        ensures cause { OnDisk F.disk (λ see. IsSome self.old.draft →
            OnErr result (IsTrue (see self.new.fs).failed)) }
    {
        let Some(mut draft) = self.draft.take() else {
            self.failed += 1;
            return Err(SinkFault);
        };
        let taken = write_to(&mut self.fs, &mut draft.file, piece);
        self.draft = Some(draft);
        match taken {
            Ok(n) => Ok(n),
            Err(_) => {
                self.failed += 1;
                Err(SinkFault)
            }
        }
    }

    /// Makes the draft a file of its name, with the permissions of one that it replaces.
    pub fn commit(&mut self) -> Result<(), BinFault>
        requires { self.old.failed + 1 < 2 ^ 64 }
        ensures keeps { KeepsFolder F.FileSystem self.old self.new }
        ensures device { IfErr result (λ fault. fault ≡ BinFault.Device) }
        ensures begun { OnOk result (HasDraft (folder_model F.FileSystem self.old)) }
        ensures ok { OnOk result (folder_model F.FileSystem self.new
            ≡ changed committed (folder_model F.FileSystem self.old)) }
        ensures err { OnErr result (folder_model F.FileSystem self.new
            ≡ failing without_draft (folder_model F.FileSystem self.old)) }
        ensures mode { OnDisk F.disk (λ see. OnOk result (IfSome self.old.draft
            (λ draft. KeepsMode (string_bytes draft.name) (string_bytes draft.name) draft.key
            (see self.old.fs).tree (see self.new.fs).tree))) }
        ensures removed { OnDisk F.disk (λ see. IfSome self.old.draft (λ draft.
            IsCleared (string_bytes draft.path) (see self.new.fs))) }
        ensures cause { OnDisk F.disk (λ see. IfSome self.old.draft (λ draft.
            IfCanPlace self.old.files draft (see self.old.fs)
            (OnErr result (IsTrue (see self.new.fs).failed)))) }
    {
        let Some(draft) = self.draft.take() else {
            self.failed += 1;
            return Err(BinFault::Device);
        };
        let Ok(replaces) = put_in_place(&mut self.fs, &draft, &self.files) else {
            discard(&mut self.fs, draft, &self.files);
            self.failed += 1;
            return Err(BinFault::Device);
        };
        self.files.put(draft.name, draft.key, replaces);
        Ok(())
    }

    /// Discards the draft, if there is one.
    pub fn abandon(&mut self)
        ensures keeps { KeepsFolder F.FileSystem self.old self.new }
        ensures gone { folder_model F.FileSystem self.new
            ≡ changed without_draft (folder_model F.FileSystem self.old) }
        ensures removed { OnDisk F.disk (λ see. IfSome self.old.draft (λ draft.
            IsCleared (string_bytes draft.path) (see self.new.fs))) }
        ensures idle { self.old.draft ≡ None → self.new.fs ≡ self.old.fs }
        ensures files { self.new.files ≡ self.old.files }
        ensures refused { self.new.refused ≡ self.old.refused }
        ensures none { self.new.draft ≡ None }
    {
        if let Some(draft) = self.draft.take() {
            discard(&mut self.fs, draft, &self.files);
        }
    }
}

/// Only want of memory has a fault of its own.
fn bin_fault(fault: FileFault) -> BinFault
    ensures memory { fault ≡ FileFault.Memory → result ≡ BinFault.Memory }
    ensures device { (fault ≡ FileFault.Memory → ⊥) → result ≡ BinFault.Device }
{
    match fault {
        FileFault::Memory => BinFault::Memory,
        _ => BinFault::Device,
    }
}
