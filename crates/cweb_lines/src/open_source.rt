// Open sources, and the lines that are taken from them.
pub mod stack;
pub mod take;

use crate::source::Source;
use cweb_files::{FileId, Place};

/// A file that is being read.
#[derive(Drop)]
pub struct OpenSource<R: Drop> {
    pub source: Source<R>,
    pub file: FileId,
    /// The number of lines that were taken from it.
    pub line: u32,
    /// The depth of its lines: 1 for the web, one more in each included file.
    pub depth: usize,
    /// Whether its lines may match a change entry.
    pub may_match: bool,
}

/// A line that was taken: its place, its depth, and whether it may match a change entry. The caller has its bytes.
#[derive(Clone, Copy)]
pub struct LineAt {
    pub place: Place,
    pub depth: usize,
    pub may_match: bool,
}
