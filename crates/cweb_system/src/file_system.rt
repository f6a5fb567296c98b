// The calls to the file system that a run needs, and what each does.
ghost use Rattle.std.specs.Prelude.{◌≡◌, ◌≤◌, ◌<◌, ◌++◌, ℕ, List, [], Option, IsErr, IsOk, IfOk, MatchResult, Ok, length, take};
ghost use Rattle.cweb_system.specs.declared.node.FileKey.{FileKey};
ghost use Rattle.cweb_system.specs.Steps.{Changes, Disk, OnDisk};
ghost use Rattle.cweb_system.specs.Tree.{at, rest, Appends, IsAbsent, MayCreate, MayRename, Opens, Removes, SetsMode};

use crate::node::{FileFault, FileKey, Node};

/// A file system.
///
/// A type of file systems is observable or not. Only the calls of one run change an observable one. A call that fails
/// changes nothing. Not in the model are other writers and their locks, devices, loss of power, and a link to a folder
/// that an output replaces while the path of another output goes through it.
pub trait FileSystem {
    /// An open file.
    type File: Drop;

    /// What is seen of it, if it is observable.
    ghost disk: { Option (Self → Disk) };

    ghost key: { Self.File → FileKey };

    /// The path under which a file was opened for reading.
    ghost opened_as: { Self.File → List ℕ };

    /// How many bytes were read from an open file.
    ghost position: { Self.File → ℕ };

    /// Looks up the entry under a path. A link isn't followed.
    fn look(&self, path: &str) -> Option<Node>
        ensures { OnDisk disk (λ see. result ≡ at (see self.now).tree path.now) };

    /// Looks up what a path leads to, links followed.
    fn follow(&self, path: &str) -> Option<Node>;

    fn key_of(&self, file: &Self::File) -> Result<FileKey, FileFault>
        ensures { OnDisk disk (λ _. result ≡ Ok (key file.now)) };

    /// Waits for the lock of an open file.
    fn lock(&self, file: &Self::File) -> Result<(), FileFault>;

    /// Opens a file for reading, links followed. In an observable file system only memory can be lacking for that.
    fn open(&self, path: &str) -> Result<Self::File, FileFault>
        ensures { OnDisk disk (λ see. MatchResult result
            (λ file. Opens path.now (key file) (position file) (opened_as file) (see self.now).tree)
            (λ fault. (fault ≡ FileFault.Memory → ⊥) → IsAbsent path.now (see self.now).tree)) };

    /// Reads from a file that `open` opened, into a prefix of `piece`. In an observable file system it doesn't fail, and
    /// reads no byte only at the end.
    fn read(&self, file: &mut Self::File, piece: &mut [u8]) -> Result<usize, FileFault>
        ensures within { IfOk result (λ n. n ≤ length piece.new) }
        ensures key { key file.new ≡ key file.old }
        ensures named { opened_as file.new ≡ opened_as file.old }
        ensures ok { OnDisk disk (λ see. IfOk result (λ n.
            rest (see self.now).tree (key file.old) (position file.old)
            ≡ take n piece.new ++ rest (see self.now).tree (key file.old) (position file.new))) }
        ensures some { OnDisk disk (λ see. 0 < length piece.old → result ≡ Ok 0 →
            rest (see self.now).tree (key file.old) (position file.old) ≡ []) }
        ensures never { OnDisk disk (λ _. IsOk result) };

    /// Opens a device for writing; the path leads to one. An observable file system has none.
    fn open_device(&self, path: &str) -> Result<Self::File, FileFault>
        ensures { OnDisk disk (λ _. IsErr result) };

    /// Creates a file and opens it for writing. `None`: something is there.
    fn create(&mut self, path: &str, mode: Option<u32>) -> Result<Option<Self::File>, FileFault>
        ensures { Changes disk (MayCreate key path.now) self.old self.new result };

    /// Appends a prefix of `piece`, nonempty if `piece` is.
    fn write(&mut self, file: &mut Self::File, piece: &[u8]) -> Result<usize, FileFault>
        ensures within { IfOk result (λ n. n ≤ length piece.now) }
        ensures some { 0 < length piece.now → IfOk result (λ n. 0 < n) }
        ensures key { key file.new ≡ key file.old }
        ensures changes { Changes disk (λ n. Appends (key file.old) (take n piece.now)) self.old
            self.new result };

    /// Sets the nine permission bits of an open file.
    fn set_mode(&mut self, file: &Self::File, mode: u32) -> Result<(), FileFault>
        ensures { Changes disk (λ _. SetsMode (key file.now) mode) self.old self.new result };

    /// Renames a regular file. It replaces what is at the new path, in one step.
    fn rename(&mut self, from: &str, to: &str) -> Result<(), FileFault>
        ensures { Changes disk (λ _. MayRename from.now to.now) self.old self.new result };

    /// Removes the entry under a path, which is no folder.
    fn remove(&mut self, path: &str) -> Result<(), FileFault>
        ensures { Changes disk (λ _. Removes path.now) self.old self.new result };
}
