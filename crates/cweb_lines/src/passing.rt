// Lines that pass through: they were read whole, are no include lines and begin no change. Also changes
// whose lines were read whole.
pub mod advance;
pub mod change;
pub mod line_span;
pub mod next;
pub mod old_side;
pub mod stretch;
