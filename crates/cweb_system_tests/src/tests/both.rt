// A real folder and one in memory, side by side.
use super::streams::contents;
use crate::{MemoryFile, MemoryFolder};
use cweb_system::{FileFault, FileKey, FileSystem, Node};
use std::alloc::{AllocError, Global};

/// A path in the real folder, and in memory.
#[derive(Drop, Debug)]
pub struct PathPair {
    pub real: String,
    pub memory: String,
    /// Whether no call changes what is there.
    pub is_fixed: bool,
    /// Whether it is below a regular file.
    pub is_below_file: bool,
}

/// The key of one file on both sides.
#[derive(Clone, Copy)]
pub struct KeyPair {
    pub real: FileKey,
    pub memory: FileKey,
}

/// A file that is open on both sides.
#[derive(Drop)]
pub struct OpenPair<H: Drop> {
    pub real: H,
    pub memory: MemoryFile,
    pub is_writable: bool,
}

#[derive(Drop)]
pub struct Both<F: FileSystem + Drop> {
    pub alloc: Global,
    pub real: F,
    pub memory: MemoryFolder,
    pub keys: Vec<KeyPair>,
    pub files: Vec<OpenPair<F::File>>,
}

pub fn same_bytes(real: Result<Vec<u8>, FileFault>, memory: Result<Vec<u8>, FileFault>) -> bool {
    match (real, memory) {
        (Ok(a), Ok(b)) => a.as_slice() == b.as_slice(),
        (Err(a), Err(b)) => a == b,
        _ => false,
    }
}

impl<F: FileSystem + Drop> Both<F> {
    pub fn new(alloc: Global, real: F, memory: MemoryFolder) -> Self {
        Both {
            alloc,
            real,
            memory,
            keys: Vec::new(alloc),
            files: Vec::new(alloc),
        }
    }

    /// The key in memory of a real file. Where the kernel uses a key again, the later file counts.
    fn in_memory(&self, real: FileKey) -> Option<FileKey> {
        let mut found = None;
        for pair in &self.keys {
            if pair.real == real {
                found = Some(pair.memory);
            }
        }
        found
    }

    pub fn same_key(&self, real: FileKey, memory: FileKey) -> bool {
        self.in_memory(real) == Some(memory)
    }

    fn same_node(&self, real: Option<Node>, memory: Option<Node>) -> bool {
        match (real, memory) {
            (Some(Node::File(a, mode)), Some(Node::File(b, other))) => {
                self.same_key(a, b) && mode == other
            }
            (Some(Node::Folder(a)), Some(Node::Folder(b))) => self.same_key(a, b),
            (Some(Node::Unknown(a)), Some(Node::Unknown(b))) => a == b,
            (Some(Node::Link), Some(Node::Link)) => true,
            (None, None) => true,
            _ => false,
        }
    }

    /// Pairs what is there at first.
    pub fn pair_first(&mut self, path: &PathPair) -> Result<(), AllocError> {
        let found = self.real.look(path.real.as_str());
        let other = self.memory.look(path.memory.as_str());
        if let (Some(Node::File(real, _)), Some(Node::File(memory, _)))
        | (Some(Node::Folder(real)), Some(Node::Folder(memory))) = (found, other)
        {
            if self.in_memory(real).is_none() {
                self.keys.push(KeyPair { real, memory })?;
            }
        }
        Ok(())
    }

    pub fn look(&self, path: &PathPair) -> bool {
        let memory = self.memory.look(path.memory.as_str());
        self.same_node(self.real.look(path.real.as_str()), memory)
    }

    pub fn follow(&self, path: &PathPair) -> bool {
        let memory = self.memory.follow(path.memory.as_str());
        self.same_node(self.real.follow(path.real.as_str()), memory)
    }

    pub fn leads_to_folder(&self, path: &PathPair) -> bool {
        matches!(self.real.follow(path.real.as_str()), Some(Node::Folder(_)))
    }

    /// Whether a path leads to the same bytes, if it leads to a file.
    fn has_same_contents(&self, path: &PathPair) -> bool {
        let Some(Node::File(_, _)) = self.real.follow(path.real.as_str()) else {
            return true;
        };
        let real = contents(self.alloc, &self.real, path.real.as_str());
        same_bytes(
            real,
            contents(self.alloc, &self.memory, path.memory.as_str()),
        )
    }

    /// The first path where entries or contents differ.
    pub fn first_difference<'a>(&self, paths: &'a [PathPair]) -> Option<&'a PathPair> {
        for path in paths {
            if !self.look(path) || !self.follow(path) || !self.has_same_contents(path) {
                return Some(path);
            }
        }
        None
    }
}
