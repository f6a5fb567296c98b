//! The merged lines of a web: the lines of its files, with included files inserted and a change file applied. A merge
//! works line by line within the limits.
#![tactic(auto)]

// the limits
mod limits;
// how many lines and bytes were taken
mod counters;
// a reader and its unread buffer
mod source;
// the next line of a source, however reads split it
mod cut;
// include lines and their names
mod include;
// open sources, and the lines that are taken from them
mod open_source;
// the names of opened files, and how files are found
mod files;
// faults of includes and changes
mod fault;
// what ends a merge
mod stop;

// how a merge begins
mod open;
// the change file: its state, its entries, the old side of a change
mod change;
// what a merger holds
mod merge_state;
// one step of a merge
mod step;
// lines that pass through
mod passing;
// the merged lines, one after another
mod merger;
// all merged lines, written to a sink
mod writing;
// what holds of every merge
pub mod laws;

pub use cweb_files::{
    FileId, MemoryReader, MemoryShelf, MemorySink, Place, Shelf, ShelfFault, Sink, SinkFault,
    write_all,
};
pub use fault::{SourceFault, SourceKind};
pub use files::FileNames;
pub use limits::{BYTES, LINE_LENGTH, LINES};
pub use merger::Merger;
pub use merger::ahead::Ahead;
pub use passing::line_span::LineSpan;
pub use stop::Stop;
pub use writing::{write_merged, write_merged_in_chunks};
