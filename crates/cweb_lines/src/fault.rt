// Faults of webs and change files. They are reported and don't stop a run.
use cweb_files::Place;

/// What is wrong with a line of a web or of a change file.
#[derive(Clone, Copy, Debug, PartialEq, Eq)]
pub enum SourceKind {
    /// An include line has no name.
    NoName,
    /// An include line is in a file at the maximum depth.
    TooDeep,
    /// The file of an include line isn't there.
    NotThere,
    /// `@y` or `@z` outside a change entry.
    MissingX,
    /// `@x` without an old line after it.
    NoOldLines,
    /// The change file ended in the old lines of an entry.
    EndedBeforeY,
    /// The web ended before all old lines of an entry were compared.
    WebEnded,
    /// `@x` or `@z` among old lines.
    WantsY,
    /// Old lines after the first differ from the lines of the web. The fault's count says how many.
    Unequal,
    /// `@x` or `@y` among new lines.
    WantsZ,
    /// The change file ended in the new lines of an entry.
    EndedBeforeZ,
    /// No line of the web equals the first old line of an entry.
    NoMatch,
}

/// A fault and its line. The count is 0 except for `Unequal`.
#[derive(Clone, Copy, Debug, PartialEq, Eq)]
pub struct SourceFault {
    pub kind: SourceKind,
    pub place: Place,
    pub count: u32,
}
