// What one step of a merger results in.
pub mod obey;
pub mod progress;
pub mod turning;

use cweb_files::Place;

/// The result of a step.
#[derive(Clone, Copy)]
pub enum Turn {
    /// The line at this place is emitted.
    Emitted(Place),
    /// A line was obeyed, an entry was sought, or a change went on.
    On,
    /// Nothing is left.
    Ended,
}
