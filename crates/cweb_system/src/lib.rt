//! Files and streams of the system as a shelf, as sinks and as bins.
#![tactic(auto)]

// the model of a file system
mod file_system;
mod node;

// the shelf and the streams
mod shelf;
mod streams;

// the bins
mod bins;
mod drafts;
mod folder_bins;

// what a run has read and written
mod file_set;
mod run_files;
mod written;

// the file system of the system
mod std_folder;

pub use file_system::FileSystem;
pub use folder_bins::FolderBins;
pub use node::{FileFault, FileKey, Node};
pub use shelf::FolderShelf;
pub use std_folder::{LockableFile, StdFolder};
pub use streams::{StdSink, read_once};
