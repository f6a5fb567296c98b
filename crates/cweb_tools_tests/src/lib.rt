//! The tests of `cweb_tools`, in memory and on real folders, and of what the libraries export: clients, with devices of
//! their own. They are a crate of their own, so that a change of them doesn't check `cweb_tools` again.
#![tactic(auto)]

// runs on one web, with their bytes in contracts
mod hello;

// devices of a client's own
mod own_bins;
mod own_shelf;
mod own_sink;
#[cfg(test)]
mod tests;

pub use hello::{HELLO, Printed, Tangled, depend_hello, merge_hello, tangle_hello};
pub use own_bins::{NamedFile, OneBin};
pub use own_shelf::{OneReader, OneShelf};
pub use own_sink::ByteSink;
