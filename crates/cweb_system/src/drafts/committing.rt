// Drafts are put in place, or discarded.
ghost use Rattle.std.specs.Prelude.{◌≡◌, None, Some, IsOk, IfOk, OnOk, OnErr, string_bytes};
ghost use Rattle.cweb_system.specs.Steps.{keys_in, OnDisk};
ghost use Rattle.cweb_system.specs.Tree.{IsFile, at};
ghost use Rattle.cweb_system.specs.inner.Drafts.{AnswersCommit, DraftIsThere, HasDraft, IsApart};
ghost use Rattle.cweb_system.specs.inner.Drafts.{IsCleared, KeepsDecent, KeepsMode, LeavesFiles};
ghost use Rattle.cweb_system.specs.inner.Written.{Leaves, Places};

use crate::drafts::steps::{remove_at, rename_draft, set_draft_mode};
use crate::drafts::{Draft, DraftPath};
use crate::run_files::RunFiles;
use crate::written::is_at;
use crate::{FileFault, FileSystem, Node};

/// Renames the draft. A device needs no more. It is an error if another file has its path by now: that one would be
/// renamed. Returns whether the name may have been committed before.
pub fn put_in_place<F: FileSystem>(
    fs: &mut F,
    draft: &Draft<F::File>,
    files: &RunFiles,
) -> Result<bool, FileFault>
    requires { HasDraft F.disk F.key files.now draft.now fs.old }
    ensures decent { KeepsDecent F.disk (keys_in files.now.read) fs.old fs.new }
    ensures ok { OnDisk F.disk (λ see. OnOk result (Places (string_bytes draft.now.name)
        draft.now.key files.now.written.items (see fs.old).tree (see fs.new).tree)) }
    ensures err { OnDisk F.disk (λ see. OnErr result (Leaves files.now.written.items
        (see fs.old).tree (see fs.new).tree)) }
    ensures stays { OnDisk F.disk (λ see. OnErr result (DraftIsThere F.key files.now.written.items
        draft.now (see fs.new).tree)) }
    ensures mode { OnDisk F.disk (λ see. OnOk result (KeepsMode (string_bytes draft.now.name)
        (string_bytes draft.now.name) draft.now.key (see fs.old).tree (see fs.new).tree)) }
    ensures gone { OnDisk F.disk (λ see. OnOk result (at (see fs.new).tree
        (string_bytes draft.now.path) ≡ None)) }
    ensures answers { AnswersCommit F.disk files.now draft.now fs.old fs.new result }
{
    if draft.is_device {
        return Ok(true);
    }
    let mode = own_mode(fs, draft)?;
    let replaces = keep_mode(fs, draft, mode, files)?;
    rename_draft(fs, draft)?;
    Ok(replaces)
}

/// The permissions of the draft. It is an error if it isn't there.
fn own_mode<F: FileSystem>(fs: &F, draft: &Draft<F::File>) -> Result<u32, FileFault>
    ensures ok { OnDisk F.disk (λ see. IfOk result (λ mode. at (see fs.now).tree
        (string_bytes draft.now.path) ≡ Some (Node.File draft.now.key mode))) }
    ensures never { OnDisk F.disk (λ see. IsFile draft.now.key
        (at (see fs.now).tree (string_bytes draft.now.path)) → IsOk result) }
{
    match fs.look(draft.path.as_str()) {
        Some(Node::File(key, mode)) if key == draft.key => Ok(mode),
        Some(Node::Unknown(fault)) => Err(fault),
        _ => Err(FileFault::NotFound),
    }
}

/// Gives the draft the permissions of the file that it replaces. It is an error if that file was read or was written
/// under another name, or if a folder is there. Returns whether the run has created that file.
fn keep_mode<F: FileSystem>(
    fs: &mut F,
    draft: &Draft<F::File>,
    mode: u32,
    files: &RunFiles,
) -> Result<bool, FileFault>
    requires { HasDraft F.disk F.key files.now draft.now fs.old }
    ensures leaves { LeavesFiles F.disk files.now fs.old fs.new }
    ensures stays { OnDisk F.disk (λ see. DraftIsThere F.key files.now.written.items draft.now
        (see fs.new).tree) }
    ensures bytes { OnDisk F.disk (λ see. (see fs.new).tree.bytes ≡ (see fs.old).tree.bytes) }
    ensures mode { OnDisk F.disk (λ see.
        at (see fs.old).tree (string_bytes draft.now.path) ≡ Some (Node.File draft.now.key mode) →
        OnOk result (KeepsMode (string_bytes draft.now.name) (string_bytes draft.now.path)
        draft.now.key (see fs.old).tree (see fs.new).tree)) }
    ensures apart { OnDisk F.disk (λ see. OnOk result (IsApart (string_bytes draft.now.name)
        draft.now.key files.now (see fs.new).tree)) }
    ensures answers { AnswersCommit F.disk files.now draft.now fs.old fs.new result }
{
    match fs.look(draft.name.as_str()) {
        Some(Node::File(found, kept)) => {
            if found == draft.key || !files.may_replace(fs, found, draft.name.as_str()) {
                return Err(FileFault::Other);
            }
            let replaces = files.created.contains(found);
            if kept == mode {
                return Ok(replaces);
            }
            set_draft_mode(fs, &draft.file, kept)?;
            Ok(replaces)
        }
        Some(Node::Folder(_)) => Err(FileFault::Other),
        Some(Node::Unknown(fault)) => Err(fault),
        _ => Ok(false),
    }
}

/// Deletes the draft. Another file that has its path by now stays.
pub fn discard<F: FileSystem>(fs: &mut F, draft: Draft<F::File>, files: &RunFiles)
    requires { HasDraft F.disk F.key files.now draft fs.old }
    ensures leaves { LeavesFiles F.disk files.now fs.old fs.new }
    ensures gone { OnDisk F.disk (λ see. IsCleared (string_bytes draft.path) (see fs.new)) }
{
    if !draft.is_device && is_at(fs, draft.path.as_str(), draft.key) {
        let path = DraftPath {
            name: draft.name.as_str(),
            text: draft.path.as_str(),
        };
        let _ = remove_at(fs, path);
    }
}
