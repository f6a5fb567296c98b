// Files and lines as numbers.

/// The number of a file, in the order in which a run opens its files. The web is 0.
#[derive(Clone, Copy, Debug, PartialEq, Eq, Hash)]
pub struct FileId(pub u32);

/// A line of a file, numbered from 1.
#[derive(Clone, Copy, Debug, PartialEq, Eq, Hash)]
pub struct Place {
    pub file: FileId,
    pub line: u32,
}
