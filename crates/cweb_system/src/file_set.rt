// A set of files.
ghost use Rattle.std.specs.Prelude.{◌≡◌, ◌↔◌, ◌⊎◌, Contains, IsTrue, OnOk, []};
ghost use Rattle.cweb_system.specs.declared.node.FileKey.{FileKey};

use crate::node::FileKey;
use std::alloc::{AllocError, Global};
use std::collections::BTreeSet;

/// Files, by their keys.
#[derive(Drop)]
pub struct FileSet {
    keys: BTreeSet<FileKey>,
}

impl FileSet {
    ghost use Rattle.cweb_system.specs.Steps.{keys_in};
    ghost use Rattle.cweb_system.specs.inner.Written.{is_among};

    /// An empty set.
    pub fn new(alloc: Global) -> Self
        ensures { keys_in result ≡ [] }
    {
        FileSet {
            keys: BTreeSet::new(alloc),
        }
    }

    /// Adds a file.
    pub(crate) fn insert(&mut self, file: FileKey) -> Result<(), AllocError>
        ensures added { OnOk result (IsTrue (is_among (keys_in self.new) file)) }
        ensures kept { (key : FileKey) → IsTrue (is_among (keys_in self.old) key) →
            IsTrue (is_among (keys_in self.new) key) }
        ensures only { (key : FileKey) → IsTrue (is_among (keys_in self.new) key) →
            IsTrue (is_among (keys_in self.old) key) ⊎ (key ≡ file) }
    {
        self.keys.insert(file)?;
        Ok(())
    }

    /// Whether a file is in the set, under any name.
    pub(crate) fn contains(&self, file: FileKey) -> bool
        ensures value { result ≡ is_among (keys_in self.now) file }
        ensures members { IsTrue result ↔ Contains (keys_in self.now) file }
    {
        self.keys.contains(&file)
    }
}
