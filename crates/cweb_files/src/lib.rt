//! Files as the tools see them: shelves to read from, sinks to write to, bins that store output files, and places in
//! files. Each device is a trait with one implementation in memory.
#![tactic(auto)]

// the traits of shelves and sinks
mod device;
// a shelf and a sink in memory
mod memory;
// file numbers and line numbers
mod place;
// writes of whole slices
mod writing;
// bins: the trait, and files in memory
mod bins;

pub use bins::memory::{BinFile, MemoryBins};
pub use bins::{BinFault, Bins};
pub use device::{Shelf, ShelfFault, Sink, SinkFault};
pub use memory::{MemoryReader, MemoryShelf, MemorySink};
pub use place::{FileId, Place};
pub use writing::write_all;
