//! The tests of `cweb_system`: a file system in memory, which meets the trait of file systems, and its comparison with the
//! kernel by random calls.
#![tactic(auto)]

mod memory_folder;
#[cfg(test)]
mod tests;

pub use memory_folder::{Fact, Layout, MemoryFile, MemoryFolder};
