// Calls on both sides. Each says whether both answer alike.
use super::both::{Both, KeyPair, OpenPair, PathPair, same_bytes};
use super::streams::{read_up_to, write_all};
use crate::MemoryFile;
use cweb_system::{FileFault, FileSystem, Node};
use std::alloc::AllocError;

/// How many files are open at most.
const OPEN_FILES: usize = 4;

/// Whether both calls succeeded, or both failed with one fault. `any_fault`: they may have failed with different ones.
fn alike<A: Drop, B: Drop>(
    real: Result<A, FileFault>,
    memory: Result<B, FileFault>,
    any_fault: bool,
) -> bool {
    match (real, memory) {
        (Ok(_), Ok(_)) => true,
        (Err(a), Err(b)) => any_fault || a == b,
        _ => false,
    }
}

impl<F: FileSystem + Drop> Both<F> {
    fn keep(&mut self, file: OpenPair<F::File>) -> Result<(), AllocError> {
        if self.files.len() >= OPEN_FILES {
            self.files.swap_remove(0);
        }
        self.files.push(file)?;
        Ok(())
    }

    pub fn open(&mut self, path: &PathPair) -> Result<bool, AllocError> {
        if self.leads_to_folder(path) {
            return Ok(true);
        }
        let real = self.real.open(path.real.as_str());
        let memory = self.memory.open(path.memory.as_str());
        match (real, memory) {
            (Ok(real), Ok(memory)) => {
                self.keep(OpenPair {
                    real,
                    memory,
                    is_writable: false,
                })?;
                Ok(true)
            }
            (Err(a), Err(b)) => Ok(path.is_below_file || a == b),
            _ => Ok(false),
        }
    }

    pub fn create(&mut self, path: &PathPair, mode: Option<u32>) -> Result<bool, AllocError> {
        let real = self.real.create(path.real.as_str(), mode);
        let memory = self.memory.create(path.memory.as_str(), mode);
        match (real, memory) {
            (Ok(Some(real)), Ok(Some(memory))) => self.keep_new(real, memory),
            (Ok(None), Ok(None)) => Ok(true),
            (Err(a), Err(b)) => Ok(path.is_below_file || a == b),
            _ => Ok(false),
        }
    }

    /// Keeps files that were created, and pairs their keys.
    fn keep_new(&mut self, real: F::File, memory: MemoryFile) -> Result<bool, AllocError> {
        let (Ok(a), Ok(b)) = (self.real.key_of(&real), self.memory.key_of(&memory)) else {
            return Ok(false);
        };
        self.keys.push(KeyPair { real: a, memory: b })?;
        self.keep(OpenPair {
            real,
            memory,
            is_writable: true,
        })?;
        Ok(true)
    }

    /// The keys of an open file.
    pub fn key_of(&self, number: usize) -> bool {
        let Some(file) = self.files.get(number) else {
            return true;
        };
        match (
            self.real.key_of(&file.real),
            self.memory.key_of(&file.memory),
        ) {
            (Ok(a), Ok(b)) => self.same_key(a, b),
            _ => false,
        }
    }

    pub fn write(&mut self, number: usize, bytes: &[u8]) -> bool {
        let Some(file) = self.files.get_mut(number) else {
            return true;
        };
        let real = write_all(&mut self.real, &mut file.real, bytes);
        let memory = write_all(&mut self.memory, &mut file.memory, bytes);
        alike(real, memory, false)
    }

    pub fn read(&mut self, number: usize, count: usize) -> bool {
        let Some(file) = self.files.get_mut(number) else {
            return true;
        };
        if file.is_writable {
            return true;
        }
        let real = read_up_to(self.alloc, &self.real, &mut file.real, count);
        let memory = read_up_to(self.alloc, &self.memory, &mut file.memory, count);
        same_bytes(real, memory)
    }

    pub fn set_mode(&mut self, number: usize, mode: u32) -> bool {
        let Some(file) = self.files.get(number) else {
            return true;
        };
        let real = self.real.set_mode(&file.real, mode);
        alike(real, self.memory.set_mode(&file.memory, mode), false)
    }

    pub fn rename(&mut self, from: &PathPair, to: &PathPair) -> bool {
        let found = self.real.look(from.real.as_str());
        if from.is_fixed || to.is_fixed || matches!(found, Some(Node::Link | Node::Folder(_))) {
            return true;
        }
        let any_fault = from.is_below_file || to.is_below_file || self.leads_to_folder(to);
        let real = self.real.rename(from.real.as_str(), to.real.as_str());
        let memory = self.memory.rename(from.memory.as_str(), to.memory.as_str());
        alike(real, memory, any_fault)
    }

    pub fn remove(&mut self, path: &PathPair) -> bool {
        if path.is_fixed {
            return true;
        }
        let real = self.real.remove(path.real.as_str());
        let memory = self.memory.remove(path.memory.as_str());
        alike(real, memory, path.is_below_file)
    }
}
