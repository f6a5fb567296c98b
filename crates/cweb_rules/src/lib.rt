//! The lexical rules of a web: classes of bytes, control codes, delimited items, and the next lexeme in each context.
//! Sources: the CWEB manual, "Control codes", and the C standard for the lexemes of C text.
#![tactic(auto)]

// the contexts of the rules
mod context;
// classes of bytes
pub mod bytes;
// control codes, and the effect of each in each context
pub mod codes;
mod effect;
// lexemes of C text
pub mod constants;
pub mod literals;
pub mod numbers;
pub mod punctuators;
// first bytes of C lexemes
mod firsts;
// items that end at a closer, unit by unit
mod end;
pub mod items;
mod look;
mod units;
// literals that end in their line
mod whole_literals;
// spans of bytes before the next special byte
pub mod plains;
// the rule that applies next
pub mod rule;
// faults of a web
mod fault;
// what holds for any source
pub mod laws;

pub use context::Context;
pub use effect::Effect;
pub use end::End;
pub use fault::{ScanFault, ScanKind};
pub use firsts::{Plain, first_byte_class, past_blank};
pub use look::Look;
pub use units::{continues, push_unit, push_units};
pub use whole_literals::quoted_len;
