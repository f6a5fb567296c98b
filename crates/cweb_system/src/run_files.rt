// The files that a run has read and written.
ghost use Rattle.std.specs.Prelude.{◌≡◌, ◌<◌, ◌++◌, ◌∷◌, [], All, Some, Contains, IsTrue, OnOk, false, true, filter};
ghost use Rattle.std.specs.Prelude.{not, string_bytes, vec_len, vec_capacity};
ghost use Rattle.std.specs.Option.{option_copied};
ghost use Rattle.std.specs.Str.{bytes_eq};
ghost use Rattle.std.proofs.Props.{props};
ghost use Rattle.cweb_system.specs.Steps.{keys_in, OnDisk};
ghost use Rattle.cweb_system.specs.inner.Written.{is_among, HasFiles, IsNewBut, IsUnnamed};
ghost use Rattle.cweb_system.specs.declared.written.WrittenFile.{WrittenFile};
ghost use Rattle.cweb_system.specs.declared.node.FileKey.{FileKey};

use crate::file_set::FileSet;
use crate::written::{WrittenFile, is_written, remove_named};
use crate::{FileKey, FileSystem};
use std::alloc::{AllocError, Global};

/// The files that a run has read and written.
#[derive(Drop)]
pub struct RunFiles {
    /// No output replaces one of these.
    pub read: FileSet,
    /// The files that were committed, in that order.
    pub written: Vec<WrittenFile>,
    /// The files that were drafts of the run, those in `written` among them. A lookup here spares a walk along that list.
    pub created: FileSet,
    ghost known: { All (λ (w : WrittenFile). IsTrue (is_among (keys_in created) w.key))
        written.items } by { Prim.hlevel props },
}

impl RunFiles {
    /// A run that has read these files and written none.
    pub fn new(alloc: Global, read: FileSet) -> Self
        ensures read { result.read ≡ read }
        ensures written { result.written.items ≡ [] }
    {
        RunFiles {
            read,
            written: Vec::new(alloc),
            created: FileSet::new(alloc),
        }
    }

    /// Whether a file of this key was written under a name other than `but`, and is still there.
    pub fn has_written<F: FileSystem>(&self, fs: &F, key: FileKey, but: Option<&str>) -> bool
        requires { HasFiles F.disk fs.now self.now.written.items }
        ensures value { result ≡ false →
            OnDisk F.disk (λ _. IsNewBut (option_copied but.entry) key self.now.written.items) }
        ensures none { IsNewBut (option_copied but.entry) key self.now.written.items →
            result ≡ false }
    {
        self.created.contains(key) && is_written(fs, self.written.as_slice(), key, but)
    }

    /// Whether an output of this name may replace a file: the run has neither read it nor written it under another name.
    pub fn may_replace<F: FileSystem>(&self, fs: &F, key: FileKey, name: &str) -> bool
        requires { HasFiles F.disk fs.now self.now.written.items }
        ensures unread { result ≡ true → Contains (keys_in self.now.read) key → ⊥ }
        ensures name { result ≡ true →
            OnDisk F.disk (λ _. IsNewBut (Some name.now) key self.now.written.items) }
        ensures free { (Contains (keys_in self.now.read) key → ⊥) →
            IsNewBut (Some name.now) key self.now.written.items → result ≡ true }
    {
        !self.read.contains(key) && !self.has_written(fs, key, Some(name))
    }

    /// Makes room for one more committed file.
    pub fn reserve(&mut self) -> Result<(), AllocError>
        ensures read { self.new.read ≡ self.old.read }
        ensures created { self.new.created ≡ self.old.created }
        ensures written { self.new.written.items ≡ self.old.written.items }
        ensures room { OnOk result (vec_len self.new.written < vec_capacity self.new.written) }
    {
        self.written.reserve(1)
    }

    /// Records the file of a new draft.
    pub fn create(&mut self, key: FileKey) -> Result<(), AllocError>
        ensures read { self.new.read ≡ self.old.read }
        ensures written { self.new.written ≡ self.old.written }
        ensures created { OnOk result (IsTrue (is_among (keys_in self.new.created) key)) }
    {
        self.created.insert(key)
    }

    /// Records a committed file. `replaces`: one of its name may have been committed before.
    pub fn put(&mut self, name: String, key: FileKey, replaces: bool)
        requires room { vec_len self.old.written < vec_capacity self.old.written }
        requires known { IsTrue (is_among (keys_in self.old.created) key) }
        ensures read { self.new.read ≡ self.old.read }
        ensures written { (replaces ≡ false →
            IsUnnamed (string_bytes name) self.old.written.items) → self.new.written.items
            ≡ filter (λ file. not (bytes_eq (string_bytes file.name) (string_bytes name)))
            self.old.written.items ++ record { name = name; key = key } ∷ [] }
    {
        if replaces {
            remove_named(&mut self.written, name.as_str());
        }
        self.written.push_reserved(WrittenFile { name, key });
    }
}
