// Drafts are created, and what was left at their paths is cleared.
ghost use Rattle.std.specs.Prelude.{◌≡◌, None, Some, Ok, Contains, true, IsErr, IsSome, IfErr, IfOk, IfSome, OnOk};
ghost use Rattle.cweb_system.specs.declared.node.FileKey.{FileKey};
ghost use Rattle.cweb_system.specs.Steps.{keys_in, OnDisk};
ghost use Rattle.cweb_system.specs.Tree.{IsFile, at};
ghost use Rattle.cweb_system.specs.inner.Drafts.{Begins, Clears, HasCause, IsCleared, LeavesFiles, Prepares};
ghost use Rattle.cweb_system.specs.inner.Written.{HasFiles};

use crate::drafts::DraftPath;
use crate::drafts::steps::{create_at, remove_at};
use crate::file_set::FileSet;
use crate::run_files::RunFiles;
use crate::{FileFault, FileKey, FileSystem, Node};

/// How often a run tries to create a draft while other runs interfere.
const TURNS: u32 = 100_000;

/// Clears the draft's path and creates the draft.
pub fn created<F: FileSystem>(
    fs: &mut F,
    path: DraftPath<'_>,
    mode: Option<u32>,
    files: &RunFiles,
) -> Result<(F::File, FileKey), FileFault>
    requires { HasFiles F.disk fs.old files.now.written.items }
    ensures leaves { Prepares F.disk path.entry.text.now files.now fs.old fs.new result }
    ensures begun { OnDisk F.disk (λ see. IfOk result (λ made. Begins path.entry.text.now
        (F.key made.0) made.1 files.now.written.items (see fs.new).tree)) }
{
    for _ in 0..TURNS {
        if let Some(made) = created_now(fs, path, mode, files)? {
            return Ok(made);
        }
    }
    Err(FileFault::Other)
}

/// Tries once to create a draft. `None`: its path was taken and is cleared now, or another run removed the new draft.
fn created_now<F: FileSystem>(
    fs: &mut F,
    path: DraftPath<'_>,
    mode: Option<u32>,
    files: &RunFiles,
) -> Result<Option<(F::File, FileKey)>, FileFault>
    requires { HasFiles F.disk fs.old files.now.written.items }
    ensures leaves { Prepares F.disk path.entry.text.now files.now fs.old fs.new result }
    ensures begun { OnDisk F.disk (λ see. IfOk result (λ tried.
        IfSome tried (λ made. Begins path.entry.text.now (F.key made.0) made.1
        files.now.written.items (see fs.new).tree))) }
    ensures gone { OnDisk F.disk (λ see. IfOk result (λ tried. tried ≡ None →
        IsCleared path.entry.text.now (see fs.new))) }
    ensures free { OnDisk F.disk (λ see. at (see fs.old).tree path.entry.text.now ≡ None →
        IfOk result IsSome) }
{
    match create_at(fs, path, mode)? {
        Some(file) => match locked(fs, path, &file)? {
            Some(key) => Ok(Some((file, key))),
            None => Ok(None),
        },
        None => {
            clear(fs, path, files)?;
            Ok(None)
        }
    }
}

/// Locks a draft that was just created. `None`: another run has locked and removed it first, as a leftover.
fn locked<F: FileSystem>(
    fs: &mut F,
    path: DraftPath<'_>,
    file: &F::File,
) -> Result<Option<FileKey>, FileFault>
    requires { OnDisk F.disk (λ see. IsFile (F.key file.now) (at (see fs.old).tree path.text.now)) }
    ensures same { OnDisk F.disk (λ see. see fs.new ≡ see fs.old) }
    ensures key { OnDisk F.disk (λ _. result ≡ Ok (Some (F.key file.now))) }
{
    // A system without locks is no error.
    let _ = fs.lock(file);
    match key_at(fs, path.text, file) {
        Ok(key) => Ok(key),
        Err(fault) => {
            let _ = remove_at(fs, path);
            Err(fault)
        }
    }
}

/// The identity of an open file, if a path names that file.
fn key_at<F: FileSystem>(fs: &F, path: &str, file: &F::File) -> Result<Option<FileKey>, FileFault>
    ensures { OnDisk F.disk (λ see. IsFile (F.key file.now) (at (see fs.now).tree path.now) →
        result ≡ Ok (Some (F.key file.now))) }
{
    let key = fs.key_of(file)?;
    match fs.look(path) {
        Some(Node::File(found, _)) if found == key => Ok(Some(key)),
        Some(Node::Unknown(fault)) => Err(fault),
        _ => Ok(None),
    }
}

/// Removes a leftover at the draft's path. It is an error if a folder is there, or a file that was read or written.
fn clear<F: FileSystem>(fs: &mut F, path: DraftPath<'_>, files: &RunFiles) -> Result<(), FileFault>
    requires { HasFiles F.disk fs.old files.now.written.items }
    ensures leaves { Prepares F.disk path.entry.text.now files.now fs.old fs.new result }
    ensures read { OnDisk F.disk (λ see. (key : FileKey) →
        IsFile key (at (see fs.old).tree path.entry.text.now) →
        Contains (keys_in files.now.read) key → IsErr result) }
    ensures gone { OnDisk F.disk (λ see. OnOk result (IsCleared path.entry.text.now (see fs.new))) }
{
    match fs.look(path.text) {
        None => Ok(()),
        Some(Node::File(key, _)) => {
            if files.has_written(fs, key, None) || files.read.contains(key) {
                return Err(FileFault::Other);
            }
            clear_file(fs, path, key)
        }
        Some(Node::Folder(_)) => Err(FileFault::Other),
        Some(Node::Unknown(fault)) => Err(fault),
        Some(Node::Link) => clear_other(fs, path, files),
        Some(Node::Device(_)) => clear_other(fs, path, files),
    }
}

/// Removes a link or a device at the draft's path. It is an error if the run has read what is there.
fn clear_other<F: FileSystem>(
    fs: &mut F,
    path: DraftPath<'_>,
    files: &RunFiles,
) -> Result<(), FileFault>
    requires { OnDisk F.disk (λ see. (key : FileKey) →
        IsFile key (at (see fs.old).tree path.text.now) → ⊥) }
    ensures leaves { LeavesFiles F.disk files.now fs.old fs.new }
    ensures gone { OnDisk F.disk (λ see. OnOk result (IsCleared path.entry.text.now (see fs.new))) }
{
    if is_read(fs, path.text, &files.read) {
        return Err(FileFault::Other);
    }
    remove_left(fs, path)
}

/// Whether the run has read what a path leads to.
fn is_read<F: FileSystem>(fs: &F, path: &str, read: &FileSet) -> bool {
    match fs.follow(path) {
        Some(Node::File(key, _)) | Some(Node::Folder(key)) | Some(Node::Device(key)) => {
            read.contains(key)
        }
        _ => false,
    }
}

/// Waits until no run holds a draft, and removes it if it is still there. If it may not be opened, there is no wait.
fn clear_file<F: FileSystem>(
    fs: &mut F,
    path: DraftPath<'_>,
    left: FileKey,
) -> Result<(), FileFault>
    ensures clears { Clears F.disk path.entry.text.now fs.old fs.new }
    ensures gone { OnDisk F.disk (λ see. IsFile left (at (see fs.old).tree path.entry.text.now) →
        OnOk result (IsCleared path.entry.text.now (see fs.new))) }
    ensures cause { OnDisk F.disk (λ see. IsFile left (at (see fs.old).tree path.entry.text.now) →
        HasCause (see fs.new).failed result) }
{
    let (is_there, _held) = locked_left(fs, path.text, left)?;
    if is_there {
        return remove_left(fs, path);
    }
    Ok(())
}

/// Locks a leftover, if it may be opened. Whether it is still there.
fn locked_left<F: FileSystem>(
    fs: &F,
    path: &str,
    left: FileKey,
) -> Result<(bool, Option<F::File>), FileFault>
    ensures there { OnDisk F.disk (λ see. IsFile left (at (see fs.now).tree path.now) →
        IfOk result (λ found. found.0 ≡ true)) }
    ensures memory { OnDisk F.disk (λ see. IsFile left (at (see fs.now).tree path.now) →
        IfErr result (λ fault. fault ≡ FileFault.Memory)) }
{
    match fs.open(path) {
        Ok(file) => {
            let _ = fs.lock(&file);
            let found = key_at(fs, path, &file)?;
            Ok((found == Some(left), Some(file)))
        }
        Err(FileFault::NotFound) => Ok((false, None)),
        Err(FileFault::Denied) => Ok((true, None)),
        Err(fault) => Err(fault),
    }
}

/// Removes a leftover at a draft's path, if it is still there.
fn remove_left<F: FileSystem>(fs: &mut F, path: DraftPath<'_>) -> Result<(), FileFault>
    ensures clears { Clears F.disk path.entry.text.now fs.old fs.new }
    ensures gone { OnDisk F.disk (λ see. OnOk result (IsCleared path.entry.text.now (see fs.new))) }
    ensures cause { OnDisk F.disk (λ see. HasCause (see fs.new).failed result) }
{
    match remove_at(fs, path) {
        Err(FileFault::NotFound) => Ok(()),
        removed => removed,
    }
}
