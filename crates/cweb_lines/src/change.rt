// The state of a merger with its change file.
pub mod code;
pub mod old_side;
pub mod seek;

use cweb_files::Place;

/// What a merger does with its change file next.
#[derive(Clone, Copy)]
pub enum Stage {
    /// There is no change file, or it has no entry left.
    Done,
    /// The next entry must be sought.
    Seeking,
    /// An entry waits for a line that equals its first old line. Its `@x` is at this place.
    Waiting(Place),
    /// The new lines of an entry are taken.
    Changing(Change),
}

/// A change whose new lines are taken.
#[derive(Clone, Copy)]
pub struct Change {
    /// The place of its `@x`.
    pub begin: Place,
    /// The number of open sources at the start of the new side. A new line is taken when no more are open.
    pub below: usize,
    /// The depth of the new lines: that of the line that began the change.
    pub depth: usize,
}
