//! The runs of `ctangle`, `wmerge` and `wdep`, over any devices, with their command lines and the lines of their logs.
#![tactic(auto)]

// command lines
mod options;
mod words;

// the texts for the log, as chunks
mod chunks;
mod faults;
mod log_text;
mod names;
mod stops;

// writes through a buffer
mod writing;

// the runs
mod in_folder;
mod tangle;
mod wdep;
mod wmerge;

// a scanned web, its outputs and its depfile
mod depfile;
mod outputs;
mod rule_targets;
mod scanning;
mod web;

// log lines by option, and the subjects of stops
mod saying;
mod subjects;

// what the programs do before their run
mod about;
mod environment;
mod program;

// laws of runs
pub mod laws;

pub use about::{about_wdep, write_about};
pub use cweb_system::{
    FileSystem, FolderBins, FolderShelf, LockableFile, StdFolder, StdSink, read_once,
};
pub use environment::{Environment, ProgramEnvironment};
pub use in_folder::{depend_in_folder, merge_in_folder, tangle_in_folder};
pub use log_text::{LogLine, LogText};
pub use options::{Options, Shown};
pub use program::{as_slices, out_of_memory, read_args, read_inputs};
pub use tangle::run_ctangle;
pub use wdep::run_wdep;
pub use wmerge::run_wmerge;
pub use words::MergeWords;
pub use writing::write_log;
