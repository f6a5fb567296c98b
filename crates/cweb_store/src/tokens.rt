// Tokens that borrow their bytes.
pub mod closed;
pub mod layout;
pub mod list;
pub mod records;
pub mod token_index;
pub mod token_reader;
pub mod unaligned;

use crate::name::NameRef;
use cweb_files::Place;

/// A token of a part. It borrows its bytes.
#[derive(Clone, Copy, Debug, PartialEq, Eq)]
pub enum Token<'a> {
    /// An identifier.
    Word(&'a [u8]),
    /// A number.
    Number(&'a [u8]),
    /// A string, a character constant or an include name.
    Literal(&'a [u8]),
    /// Bytes that are printed unchanged.
    Verbatim(&'a [u8]),
    /// A punctuator.
    Punct(&'a [u8]),
    /// A blank between two tokens.
    Blank,
    /// The end of a line.
    Newline,
    /// No space is printed between the tokens before and after it (`@&`).
    Join,
    /// The place of the macro definitions (`@h`).
    Defs,
    /// A use of a name.
    Name(NameRef),
    /// The start of section N's code, printed as `/*N:*/`.
    Head(u32),
    /// The end of section N's code, printed as `/*:N*/`.
    Tail(u32),
    /// The source line of the next token.
    Mark(Place),
}
