//! The names (CWEB manual, "Section names"), parts and tokens of a web: a builder that is called as a web is scanned, and
//! the store that it makes. All strings are in one byte buffer, and equal words are stored once.
#![tactic(auto)]

// the edge of a string
mod edges;
// strings in one byte buffer
mod strings;
// the same strings, as borrowed slices
mod slices;
// interned words
mod words;
// strings in one table, those that repeat stored once
mod string_table;

// the spelling of section names
mod spelling;
// names as numbers, and faults of names
mod name;
// sorted byte strings
mod sorted;
// the names that begin with a prefix
mod found;
// the names so far
mod known;
// the name that an occurrence resolves to
mod resolution;
// finished occurrences of names
mod occurrences;
// the occurrences of names, while they are added
mod table;

// tokens of parts
mod tokens;

// parts as ranges of tokens, and the parts of each name
mod parts;

// the faults of names
mod faults;

// transliterations of `@l`
mod replacements;

// what a scan adds, call by call
mod builder;

// these calls as values
mod call;

// what the builder makes
mod store;

// laws for any calls
pub mod laws;

pub use builder::Builder;
pub use call::{Answered, Call};
pub use edges::{Edge, TokenBytes, punctuator_edge};
pub use name::{How, NameFault, NameId, NameKind, NameRef};
pub use parts::iter::Parts;
pub use parts::{Part, PartKind};
pub use spelling::{is_prefix, is_squeezed, squeezed};
pub use store::Store;
pub use tokens::Token;
pub use tokens::token_reader::TokenReader;
