// A file system in memory: a log of all changes. Each prefix of the log is the state at an earlier moment.
ghost use Rattle.std.specs.Prelude.{◌≡◌, ◌<◌, ◌≤◌, ◌+◌, ◌^◌, ◌∷◌, ◌++◌, [], None, ℕ, List, IfErr, IfOk, IfSome, OnOk, OnErr, length, string_bytes, vec_len, true, false};
ghost use Rattle.cweb_system_tests.specs.inner.Log.{bytes_by, nodes_by, tree_of, KeysBelow, Puts};
ghost use Rattle.std.specs.List.{slice_get};

mod calls;
mod layout;
mod log;
mod steps;

pub use crate::memory_folder::layout::{Fact, Layout};
use crate::memory_folder::log::{Change, Sought, node_after, number_after, sought_after};
use cweb_system::{FileFault, FileKey, Node};
use std::alloc::Global;

/// A file system in memory.
#[derive(Drop)]
pub struct MemoryFolder {
    alloc: Global,
    layout: Layout,
    log: Vec<Change>,
    /// How many changes are older than the run.
    begun: usize,
    failed: bool,
    ghost begun_within: { begun ≤ vec_len log },
}

/// An open file, and how far it was read.
#[derive(Drop)]
pub struct MemoryFile {
    key: FileKey,
    name: String,
    position: usize,
    is_writable: bool,
}

impl MemoryFolder {
    ghost use Rattle.cweb_system_tests.specs.inner.Memory.{memory_disk, memory_failed, memory_layout, memory_tree};
    ghost use Rattle.cweb_system_tests.specs.inner.Layout.{followed};
    ghost use Rattle.cweb_system.specs.Steps.{NotesFailure, TakesStep};

    /// A file system without entries.
    pub fn new(alloc: Global, layout: Layout) -> Self
        ensures { memory_disk result
            ≡ record { tree = tree_of layout []; past = []; failed = false } }
    {
        MemoryFolder {
            alloc,
            layout,
            log: Vec::new(alloc),
            begun: 0,
            failed: false,
        }
    }

    /// The same files, as the beginning of a run.
    pub fn begin_run(self) -> Self
        ensures { memory_disk result
            ≡ record { tree = memory_tree self; past = []; failed = false } }
    {
        let MemoryFolder {
            alloc,
            layout,
            log,
            ..
        } = self;
        let begun = log.len();
        MemoryFolder {
            alloc,
            layout,
            log,
            begun,
            failed: false,
        }
    }

    /// Puts a node at a path, before the run begins.
    pub fn put(&mut self, path: &str, node: Node) -> Result<(), FileFault>
        ensures ok { OnOk result
            (Puts path.now node (memory_tree self.old) (memory_tree self.new)) }
        ensures err { OnErr result (memory_tree self.new ≡ memory_tree self.old) }
    {
        let Ok(at) = String::from_str(self.alloc, self.layout.place(path)) else {
            return Err(FileFault::Memory);
        };
        self.make(Change::Put(at, node))
    }

    /// What is at a place.
    fn node_at(&self, place: &str) -> Option<Node>
        ensures { result ≡ nodes_by self.now.log.items place.now None }
    {
        let mut found = None;
        for change in &self.log {
            found = node_after(change, place, found);
        }
        found
    }

    /// What is at a place, or where the link there leads to.
    fn followed(&self, place: &str) -> Option<Node>
        ensures { result
            ≡ followed self.now.layout (λ p. nodes_by self.now.log.items p None) place.now }
    {
        match (self.node_at(place), self.layout.target(place)) {
            (Some(Node::Link), Some(target)) => self.node_at(self.layout.place(target)),
            (found, _) => found,
        }
    }

    /// The byte of a file at a position.
    fn byte_at(&self, key: FileKey, position: usize) -> Option<u8>
        ensures value { result ≡ slice_get (bytes_by self.now.log.items key []) position }
        ensures within { IfSome result (λ _. position + 1 < 2 ^ 64) }
    {
        let mut sought = Sought {
            byte: None,
            size: 0,
        };
        for change in &self.log {
            sought = sought_after(change, key, position, sought);
        }
        sought.byte
    }

    /// A number above those of all files.
    fn new_number(&self) -> Option<u64>
        ensures { IfSome result (λ next. KeysBelow next self.now.log.items) }
    {
        let mut next = 0;
        for change in &self.log {
            next = number_after(change, next)?;
        }
        Some(next)
    }

    /// Records a failure.
    fn failing(&mut self, fault: FileFault) -> FileFault
        ensures fault { result ≡ fault }
        ensures layout { self.new.layout ≡ self.old.layout }
        ensures log { self.new.log ≡ self.old.log }
        ensures begun { self.new.begun ≡ self.old.begun }
        ensures failed { self.new.failed ≡ true }
    {
        self.failed = true;
        fault
    }

    /// Makes a change.
    fn make(&mut self, change: Change) -> Result<(), FileFault>
        ensures ok { OnOk result (memory_tree self.new
            ≡ tree_of self.old.layout (self.old.log.items ++ change ∷ [])) }
        ensures err { OnErr result (memory_tree self.new ≡ memory_tree self.old) }
        ensures layout { memory_layout self.new ≡ memory_layout self.old }
        ensures memory { IfErr result (λ fault. fault ≡ FileFault.Memory) }
        ensures failed { NotesFailure (memory_failed self.old) (memory_failed self.new) result }
        ensures step { TakesStep (memory_disk self.old) (memory_disk self.new) }
    {
        if self.log.reserve(1).is_err() {
            return Err(self.failing(FileFault::Memory));
        }
        self.log.push_reserved(change);
        Ok(())
    }
}
