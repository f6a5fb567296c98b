// The item that is open at the end of a line.

/// The kind of the open item at the end of a line.
#[derive(Clone, Copy)]
pub enum Open {
    Between,
    Comment,
    /// The name of a section or a file.
    Name,
    /// A literal whose line ended in `\`.
    Literal,
    RawLiteral,
}
