// What the calls of a run change, as the kernel does it.
ghost use Rattle.std.specs.Prelude.{◌≡◌, IfOk, IsSome, MatchOption, None, string_bytes, true};
ghost use Rattle.cweb_system.specs.Tree.{IsFile};
ghost use Rattle.cweb_system_tests.specs.inner.Layout.{place_in};
ghost use Rattle.cweb_system_tests.specs.inner.Log.{nodes_by, IsNewFile, IsRenaming, IsSameFile};

use crate::memory_folder::MemoryFolder;
use cweb_system::{FileFault, FileKey, Node};

/// A file to create.
#[derive(Drop)]
pub(crate) struct NewFile {
    pub at: String,
    pub key: FileKey,
}

/// A regular file to rename, and its old and new places.
#[derive(Drop)]
pub(crate) struct Renaming {
    pub old: String,
    pub new: String,
    pub node: Node,
}

/// Whether this is the regular file of this key.
fn is_file_of(found: Option<Node>, key: FileKey) -> bool
    ensures yes { result ≡ true → IsFile key found }
    ensures no { IsFile key found → result ≡ true }
{
    match found {
        Some(Node::File(file, _)) => file == key,
        _ => false,
    }
}

impl MemoryFolder {
    /// What is at a place, or why no call gets there.
    fn reach(&self, place: &str) -> Result<Option<Node>, FileFault>
        ensures { IfOk result (λ found. found ≡ nodes_by self.now.log.items place.now None) }
    {
        match (self.node_at(place), self.layout.refusal(place)) {
            (Some(Node::Unknown(fault)), _) => Err(fault),
            (None, Some(FileFault::NotFound)) => Err(FileFault::NotFound),
            (found, _) => Ok(found),
        }
    }

    /// A file to create. `None`: something is there.
    pub(crate) fn new_file(&self, path: &str) -> Result<Option<NewFile>, FileFault>
        ensures { IfOk result (λ found. MatchOption found
            (IsSome (nodes_by self.now.log.items (place_in self.now.layout path.now) None))
            (IsNewFile self.now.layout self.now.log.items path.now)) }
    {
        let place = self.layout.place(path);
        if self.reach(place)?.is_some() {
            return Ok(None);
        }
        if let Some(fault) = self.layout.refusal(place) {
            return Err(fault);
        }
        let Some(number) = self.new_number() else {
            return Err(FileFault::Other);
        };
        let Ok(at) = String::from_str(self.alloc, place) else {
            return Err(FileFault::Memory);
        };
        let key = FileKey { device: 0, number };
        Ok(Some(NewFile { at, key }))
    }

    /// The place of an entry that can be removed.
    pub(crate) fn removable(&self, path: &str) -> Result<String, FileFault>
        ensures { IfOk result (λ at. string_bytes at ≡ place_in self.now.layout path.now) }
    {
        let place = self.layout.place(path);
        let Some(node) = self.reach(place)? else {
            return Err(FileFault::NotFound);
        };
        if let Some(fault) = self.layout.refusal(place) {
            return Err(fault);
        }
        if let Node::Folder(_) = node {
            return Err(FileFault::Other);
        }
        String::from_str(self.alloc, place).map_err(|_| FileFault::Memory)
    }

    /// A regular file to rename. `None`: both paths name it, and nothing happens.
    pub(crate) fn renaming(&self, from: &str, to: &str) -> Result<Option<Renaming>, FileFault>
        ensures { IfOk result (λ found. MatchOption found
            (IsSameFile self.now.layout self.now.log.items from.now to.now)
            (IsRenaming self.now.layout self.now.log.items from.now to.now)) }
    {
        let old = self.layout.place(from);
        let new = self.layout.place(to);
        let found = self.reach(old)?;
        let target = self.reach(new)?;
        let Some(node) = found else {
            return Err(FileFault::NotFound);
        };
        let Node::File(key, _) = node else {
            return Err(FileFault::Other);
        };
        if is_file_of(target, key) {
            return Ok(None);
        }
        if let Some(fault) = self.layout.refusal(old).or(self.layout.refusal(new)) {
            return Err(fault);
        }
        if let Some(Node::Folder(_)) = target {
            return Err(FileFault::Other);
        }
        let Ok(old) = String::from_str(self.alloc, old) else {
            return Err(FileFault::Memory);
        };
        let Ok(new) = String::from_str(self.alloc, new) else {
            return Err(FileFault::Memory);
        };
        Ok(Some(Renaming { old, new, node }))
    }
}
