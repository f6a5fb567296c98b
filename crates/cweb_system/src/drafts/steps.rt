// The calls that change a file system, each with a decent step.
ghost use Rattle.std.specs.Prelude.{◌≡◌, ◌≤◌, ◌<◌, ℕ, List, IfOk, IfSome, length, string_bytes, take};
ghost use Rattle.cweb_system.specs.declared.node.FileKey.{FileKey};
ghost use Rattle.cweb_system.specs.Steps.{Changes, OnDisk};
ghost use Rattle.cweb_system.specs.Tree.{Appends, IsFile, MayCreate, Removes, Renames, SetsMode, at};
ghost use Rattle.cweb_system.specs.inner.Drafts.{IsDraftAlone, IsUnread, IsAlone, KeepsDecent};

use crate::drafts::{Draft, DraftPath};
use crate::{FileFault, FileSystem};

/// Creates a draft. `None`: something is there.
pub fn create_at<F: FileSystem>(
    fs: &mut F,
    path: DraftPath<'_>,
    mode: Option<u32>,
) -> Result<Option<F::File>, FileFault>
    ensures decent { (read : List FileKey) → KeepsDecent F.disk read fs.old fs.new }
    ensures changes { Changes F.disk (MayCreate F.key path.entry.text.now) fs.old fs.new result }
    ensures alone { OnDisk F.disk (λ see. IfOk result (λ made.
        IfSome made (λ file. IsAlone (F.key file) path.entry.text.now (see fs.new).tree))) }
{
    fs.create(path.text, mode)
}

/// Removes what is at a draft's path.
pub fn remove_at<F: FileSystem>(fs: &mut F, path: DraftPath<'_>) -> Result<(), FileFault>
    ensures decent { (read : List FileKey) → KeepsDecent F.disk read fs.old fs.new }
    ensures changes { Changes F.disk (λ _. Removes path.entry.text.now) fs.old fs.new result }
{
    fs.remove(path.text)
}

/// Sets the permissions of a draft.
pub fn set_draft_mode<F: FileSystem>(fs: &mut F, file: &F::File, mode: u32) -> Result<(), FileFault>
    requires { OnDisk F.disk (λ see. IsDraftAlone (F.key file.now) (see fs.old).tree) }
    ensures decent { (read : List FileKey) → KeepsDecent F.disk read fs.old fs.new }
    ensures changes { Changes F.disk (λ _. SetsMode (F.key file.now) mode) fs.old fs.new result }
    ensures alone { OnDisk F.disk (λ see. (path : List ℕ) → IsAlone (F.key file.now) path
        (see fs.old).tree → IsAlone (F.key file.now) path (see fs.new).tree) }
{
    fs.set_mode(file, mode)
}

/// Renames a draft. What it replaces isn't the draft itself.
pub fn rename_draft<F: FileSystem>(fs: &mut F, draft: &Draft<F::File>) -> Result<(), FileFault>
    requires there { OnDisk F.disk (λ see. IsFile draft.now.key
        (at (see fs.old).tree (string_bytes draft.now.path))) }
    requires own { OnDisk F.disk (λ see. IsFile draft.now.key
        (at (see fs.old).tree (string_bytes draft.now.name)) → ⊥) }
    ensures decent { (read : List FileKey) →
        OnDisk F.disk (λ see. IsUnread read (string_bytes draft.now.name) (see fs.old).tree) →
        KeepsDecent F.disk read fs.old fs.new }
    ensures changes { Changes F.disk (λ _. Renames (string_bytes draft.now.path)
        (string_bytes draft.now.name)) fs.old fs.new result }
{
    fs.rename(draft.path.as_str(), draft.name.as_str())
}

/// Appends bytes to a draft.
pub fn write_to<F: FileSystem>(
    fs: &mut F,
    file: &mut F::File,
    piece: &[u8],
) -> Result<usize, FileFault>
    requires { OnDisk F.disk (λ see. IsDraftAlone (F.key file.old) (see fs.old).tree) }
    ensures decent { (read : List FileKey) → KeepsDecent F.disk read fs.old fs.new }
    ensures within { IfOk result (λ n. n ≤ length piece.now) }
    ensures some { 0 < length piece.now → IfOk result (λ n. 0 < n) }
    ensures key { F.key file.new ≡ F.key file.old }
    ensures changes { Changes F.disk (λ n. Appends (F.key file.old) (take n piece.now)) fs.old
        fs.new result }
{
    fs.write(file, piece)
}
