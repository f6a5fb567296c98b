// Files in memory.
ghost use Rattle.std.specs.Prelude.{◌≡◌, ◌≤◌, ◌<◌, ◌+◌, ◌^◌, ◌++◌, [], length, true, false, not, filter, None, vec_len};
ghost use Rattle.std.specs.Prelude.{vec_capacity, string_bytes, IsTrue, IsSome, IsOk, IfOk, IfErr, OnOk, OnErr};
ghost use Rattle.std.specs.Str.{bytes_eq};
ghost use Rattle.std.specs.Option.{is_some};
ghost use Rattle.cweb_files.specs.surface.Writes.{CountsFailure};

use crate::{BinFault, Bins, Sink, SinkFault};
use std::alloc::{AllocError, Global};

/// A committed file or a draft.
#[derive(Drop)]
pub struct BinFile {
    pub name: String,
    pub bytes: Vec<u8>,
}

/// Files in memory in commit order, at most one draft, and whether the last `start_file` was refused.
#[derive(Drop)]
pub struct MemoryBins {
    alloc: Global,
    files: Vec<BinFile>,
    draft: Option<BinFile>,
    refused: bool,
    room: usize,
    failed: u64,
    ghost placed: { IsTrue (is_some draft) → vec_len files < vec_capacity files },
}

impl MemoryBins {
    ghost use Rattle.cweb_files.specs.surface.MemoryDevices.{bins_failed, new_draft_room, committed_files, has_draft};
    ghost use Rattle.cweb_files.specs.surface.MemoryDevices.{list_room, last_refusal};

    /// No file yet, with room for `files` entries. Each new draft gets a buffer of `bytes` bytes.
    pub fn with_room(alloc: Global, files: usize, bytes: usize) -> Result<Self, AllocError>
        ensures empty { IfOk result (λ bins. committed_files bins ≡ []) }
        ensures no_draft { IfOk result (λ bins. has_draft bins ≡ false) }
        ensures begun { IfOk result (λ bins. last_refusal bins ≡ None) }
        ensures files { IfOk result (λ bins. files ≤ list_room bins) }
        ensures room { IfOk result (λ bins. new_draft_room bins ≡ bytes) }
        ensures failed { IfOk result (λ bins. bins_failed bins ≡ 0) }
    {
        Ok(MemoryBins {
            alloc,
            files: Vec::with_capacity(alloc, files)?,
            draft: None,
            refused: false,
            room: bytes,
            failed: 0,
        })
    }

    /// The committed files in commit order, without the draft.
    pub fn files(&self) -> &[BinFile]
        ensures { result.now ≡ committed_files self.now }
    {
        &self.files
    }
}

fn empty_file(alloc: Global, name: &str, room: usize) -> Result<BinFile, AllocError>
    ensures name { IfOk result (λ file. string_bytes file.name ≡ name.now) }
    ensures bytes { IfOk result (λ file. file.bytes.items ≡ []) }
    ensures room { IfOk result (λ file. room ≤ vec_capacity file.bytes) }
{
    Ok(BinFile {
        name: String::from_str(alloc, name)?,
        bytes: Vec::with_capacity(alloc, room)?,
    })
}

fn remove_named(files: &mut Vec<BinFile>, name: &str)
    ensures others { files.new.items
        ≡ filter (λ file. not (bytes_eq (string_bytes file.name) name.now)) files.old.items }
    ensures capacity { vec_capacity files.new ≡ vec_capacity files.old }
    ensures len { vec_len files.new ≤ vec_len files.old }
{
    files.retain(|file| file.name.as_str() != name);
}

impl Sink for MemoryBins {
    ghost use Rattle.cweb_files.specs.surface.MemoryDevices.{KeepsFiles, KeepsDraftName, beside_draft, bins_failed};
    ghost use Rattle.cweb_files.specs.surface.MemoryDevices.{bins_model, draft_bytes, draft_room, has_draft};

    ghost model = { bins_model };

    /// With a draft, it never fails within the capacity. It changes no file.
    fn write(&mut self, piece: &[u8]) -> Result<usize, SinkFault>
        requires { bins_failed self.old + 1 < 2 ^ 64 }
        ensures failed { CountsFailure (bins_failed self.old) (bins_failed self.new) result }
        ensures whole { IfOk result (λ n. n ≡ length piece.now) }
        ensures bytes { OnOk result (draft_bytes self.new ≡ draft_bytes self.old ++ piece.now) }
        ensures err { OnErr result (draft_bytes self.new ≡ draft_bytes self.old) }
        ensures begun { OnOk result (IsSome (beside_draft self.old).draft) }
        ensures beside { beside_draft self.new ≡ beside_draft self.old }
        ensures kept { KeepsFiles self.old self.new }
        ensures name { KeepsDraftName self.old self.new }
        ensures room { draft_room self.old ≤ draft_room self.new }
        ensures within_room { has_draft self.old ≡ true
            → length (draft_bytes self.old) + length piece.now ≤ draft_room self.old → IsOk result }
    {
        let Some(mut file) = self.draft.take() else {
            self.failed += 1;
            return Err(SinkFault);
        };
        let grown = file.bytes.extend_from_slice(piece);
        self.draft = Some(file);
        if grown.is_err() {
            self.failed += 1;
            return Err(SinkFault);
        }
        Ok(piece.len())
    }

    fn failures(&self) -> u64 {
        self.failed
    }
}

impl Bins for MemoryBins {
    ghost use Rattle.cweb_files.specs.surface.MemoryDevices.{KeepsFiles, bins_failed, bins_model, draft_room};
    ghost use Rattle.cweb_files.specs.surface.MemoryDevices.{files_with_draft, new_draft_room, committed_files};
    ghost use Rattle.cweb_files.specs.surface.MemoryDevices.{has_draft, list_room};
    ghost use Rattle.cweb_files.specs.Sinks.{changed, committed, failing, with_draft, without_draft};
    ghost use Rattle.cweb_files.specs.Bins.{refused};

    /// The only fault is `Memory`. The draft has the capacity that was set.
    fn start_file(&mut self, name: &str) -> Result<(), BinFault>
        requires { bins_failed self.old + 1 < 2 ^ 64 }
        ensures begun { OnOk result
            (bins_model self.new ≡ changed (with_draft name.now) (bins_model self.old)) }
        ensures err { IfErr result
            (λ fault. bins_model self.new ≡ refused fault (bins_model self.old)) }
        ensures memory { IfErr result (λ fault. fault ≡ BinFault.Memory) }
        ensures room { OnOk result (new_draft_room self.old ≤ draft_room self.new) }
        ensures set_room { new_draft_room self.new ≡ new_draft_room self.old }
    {
        self.abandon_file();
        self.refused = true;
        let Ok(file) = empty_file(self.alloc, name, self.room) else {
            return Err(BinFault::Memory);
        };
        if self.files.reserve(1).is_err() {
            return Err(BinFault::Memory);
        }
        self.refused = false;
        self.draft = Some(file);
        Ok(())
    }

    /// It allocates nothing, and with a draft it never fails.
    fn commit_file(&mut self) -> Result<(), BinFault>
        requires { bins_failed self.old + 1 < 2 ^ 64 }
        ensures device { IfErr result (λ fault. fault ≡ BinFault.Device) }
        ensures begun { OnOk result (has_draft self.old ≡ true) }
        ensures ok { OnOk result (bins_model self.new ≡ changed committed (bins_model self.old)) }
        ensures err { OnErr result
            (bins_model self.new ≡ failing without_draft (bins_model self.old)) }
        ensures set_room { new_draft_room self.new ≡ new_draft_room self.old }
        ensures list { list_room self.new ≡ list_room self.old }
        ensures files { committed_files self.new
            ≡ files_with_draft (committed_files self.old) self.old.draft }
        ensures never { has_draft self.old ≡ true → IsOk result }
    {
        let Some(file) = self.draft.take() else {
            self.failed += 1;
            return Err(BinFault::Device);
        };
        remove_named(&mut self.files, file.name.as_str());
        self.files.push_reserved(file);
        Ok(())
    }

    fn abandon_file(&mut self)
        ensures gone { bins_model self.new ≡ changed without_draft (bins_model self.old) }
        ensures kept { KeepsFiles self.old self.new }
    {
        self.draft = None;
    }
}
