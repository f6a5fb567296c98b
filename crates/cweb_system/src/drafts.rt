// Drafts: files that become outputs when they are renamed.
ghost use Rattle.std.specs.Prelude.{◌≡◌, ◌++◌, ◌∷◌, [], IsTrue, IsErr, IfErr, IfOk, OnOk, string_bytes};
ghost use Rattle.cweb_system.specs.Steps.{keys_in, OnDisk};
ghost use Rattle.cweb_system.specs.inner.Drafts.{DraftIsThere, CanPut, HasCause, HasDraft, IfCanBegin, LeavesFiles};
ghost use Rattle.cweb_system.specs.inner.Drafts.{Prepares};
ghost use Rattle.cweb_system.specs.inner.Written.{is_among, HasFiles};

mod committing;
mod creating;
mod path;
mod steps;
mod way;

use crate::drafts::creating::created;
use crate::drafts::way::{Way, way_to};
use crate::run_files::RunFiles;
use crate::{FileFault, FileKey, FileSystem};
pub use committing::{discard, put_in_place};
pub use path::{Draft, DraftPath};
use std::alloc::{AllocError, Global};
pub use steps::write_to;

/// The suffix of a draft's name: byte 127.
const DRAFT_SUFFIX: &str = "\u{7f}";

/// Begins an output: an empty draft, or a device. A draft grants others no more access than the file that it replaces.
pub fn begin<F: FileSystem>(
    alloc: Global,
    fs: &mut F,
    name: &str,
    files: &mut RunFiles,
) -> Result<Draft<F::File>, FileFault>
    requires { HasFiles F.disk fs.old files.old.written.items }
    ensures leaves { LeavesFiles F.disk files.old fs.old fs.new }
    ensures read { files.new.read ≡ files.old.read }
    ensures written { files.new.written.items ≡ files.old.written.items }
    ensures room { IfOk result (λ draft. CanPut files.new draft.key) }
    ensures named { IfOk result (λ draft. string_bytes draft.name ≡ name.now) }
    ensures begun { OnDisk F.disk (λ see. IfOk result (λ draft.
        DraftIsThere F.key files.old.written.items draft (see fs.new).tree
        × ((see fs.new).tree.bytes draft.key ≡ []))) }
    ensures cause { OnDisk F.disk (λ see. IfCanBegin files.old name.now (see fs.old)
        (HasCause (see fs.new).failed result)) }
{
    files.reserve()?;
    let path = draft_path(alloc, name)?;
    let name = String::from_str(alloc, name)?;
    let draft = match way_to(fs, name.as_str(), files)? {
        Way::Draft(mode) => begin_draft(fs, name, path, mode, files)?,
        Way::Device(device) => begin_device(fs, name, path, device)?,
    };
    record(fs, files, draft)
}

/// Records the file of a new draft, or discards the draft.
fn record<F: FileSystem>(
    fs: &mut F,
    files: &mut RunFiles,
    draft: Draft<F::File>,
) -> Result<Draft<F::File>, FileFault>
    requires { HasDraft F.disk F.key files.old draft fs.old }
    ensures leaves { LeavesFiles F.disk files.old fs.old fs.new }
    ensures read { files.new.read ≡ files.old.read }
    ensures written { files.new.written ≡ files.old.written }
    ensures created { OnOk result (IsTrue (is_among (keys_in files.new.created) draft.key)) }
    ensures same { IfOk result (λ kept. (kept ≡ draft) × (fs.new ≡ fs.old)) }
    ensures memory { IfErr result (λ fault. fault ≡ FileFault.Memory) }
{
    if files.create(draft.key).is_err() {
        discard(fs, draft, files);
        return Err(FileFault::Memory);
    }
    Ok(draft)
}

/// Begins an empty draft.
fn begin_draft<F: FileSystem>(
    fs: &mut F,
    name: String,
    path: String,
    mode: Option<u32>,
    files: &RunFiles,
) -> Result<Draft<F::File>, FileFault>
    requires files { HasFiles F.disk fs.old files.now.written.items }
    requires path { string_bytes path ≡ string_bytes name ++ 127 ∷ [] }
    ensures leaves { Prepares F.disk (string_bytes path) files.now fs.old fs.new result }
    ensures named { IfOk result (λ draft. draft.name ≡ name) }
    ensures begun { OnDisk F.disk (λ see. IfOk result (λ draft.
        DraftIsThere F.key files.now.written.items draft (see fs.new).tree
        × ((see fs.new).tree.bytes draft.key ≡ []))) }
{
    let draft = DraftPath {
        name: name.as_str(),
        text: path.as_str(),
    };
    let (file, key) = created(fs, draft, mode, files)?;
    Ok(Draft {
        name,
        path,
        key,
        file,
        is_device: false,
    })
}

/// Opens a device for writing, also through links. It is an error if the name leads elsewhere by now.
fn begin_device<F: FileSystem>(
    fs: &F,
    name: String,
    path: String,
    device: FileKey,
) -> Result<Draft<F::File>, FileFault>
    requires { string_bytes path ≡ string_bytes name ++ 127 ∷ [] }
    ensures named { IfOk result (λ draft. draft.name ≡ name) }
    ensures unseen { OnDisk F.disk (λ _. IsErr result) }
{
    let file = fs.open_device(name.as_str())?;
    let key = fs.key_of(&file)?;
    if key != device {
        return Err(FileFault::Other);
    }
    Ok(Draft {
        name,
        path,
        key,
        file,
        is_device: true,
    })
}

fn draft_path(alloc: Global, name: &str) -> Result<String, AllocError>
    ensures { IfOk result (λ path. string_bytes path ≡ name.now ++ 127 ∷ []) }
{
    let mut path = String::from_str(alloc, name)?;
    path.push_str(DRAFT_SUFFIX)?;
    Ok(path)
}
