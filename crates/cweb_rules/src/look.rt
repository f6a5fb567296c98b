// The next unit of a delimited item.
use crate::end::End;

/// What is next in a delimited item.
#[derive(Clone, Copy)]
pub enum Look {
    /// A unit of this many bytes.
    Goes(usize),
    /// The end of the item, with a closer of this many bytes.
    Ends(usize, End),
}
