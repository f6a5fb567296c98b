// Classes of the first byte of a lexeme of C text.
ghost use Rattle.std.specs.Prelude.{◌≡◌, ◌≤◌, length};
ghost use Rattle.cweb_rules.specs.inner.Rules.{past_blank, first_byte_class};

use crate::firsts::Plain::{Blank, Digit, Further, Lone, Operator, Quote, Stop, Word};

/// The class of a lexeme by its first byte. `Further`: more bytes decide. `Stop`: `@`, `#` or `\`, left to the rules.
#[derive(Clone, Copy)]
pub enum Plain {
    Blank,
    Word,
    Lone,
    Operator,
    Digit,
    Quote,
    Further,
    Stop,
}

// The class of each byte.
static FIRSTS: [Plain; 256] = [
    Operator, Operator, Operator, Operator, Operator, Operator, Operator, Operator, Operator,
    Blank, Further, Blank, Blank, Blank, Operator, Operator, Operator, Operator, Operator,
    Operator, Operator, Operator, Operator, Operator, Operator, Operator, Operator, Operator,
    Operator, Operator, Operator, Operator, Blank, Operator, Quote, Stop, Word, Operator, Operator,
    Quote, Lone, Lone, Operator, Operator, Lone, Operator, Further, Further, Digit, Digit, Digit,
    Digit, Digit, Digit, Digit, Digit, Digit, Digit, Operator, Lone, Operator, Operator, Operator,
    Lone, Stop, Word, Word, Word, Word, Word, Word, Word, Word, Word, Word, Word, Further, Word,
    Word, Word, Word, Word, Further, Word, Word, Further, Word, Word, Word, Word, Word, Lone, Stop,
    Lone, Operator, Word, Operator, Word, Word, Word, Word, Word, Word, Word, Word, Word, Word,
    Word, Word, Word, Word, Word, Word, Word, Word, Word, Word, Further, Word, Word, Word, Word,
    Word, Lone, Operator, Lone, Lone, Operator, Word, Word, Word, Word, Word, Word, Word, Word,
    Word, Word, Word, Word, Word, Word, Word, Word, Word, Word, Word, Word, Word, Word, Word, Word,
    Word, Word, Word, Word, Word, Word, Word, Word, Word, Word, Word, Word, Word, Word, Word, Word,
    Word, Word, Word, Word, Word, Word, Word, Word, Word, Word, Word, Word, Word, Word, Word, Word,
    Word, Word, Word, Word, Word, Word, Word, Word, Word, Word, Word, Word, Word, Word, Word, Word,
    Word, Word, Word, Word, Word, Word, Word, Word, Word, Word, Word, Word, Word, Word, Word, Word,
    Word, Word, Word, Word, Word, Word, Word, Word, Word, Word, Word, Word, Word, Word, Word, Word,
    Word, Word, Word, Word, Word, Word, Word, Word, Word, Word, Word, Word, Word, Word, Word, Word,
    Word, Word, Word, Word, Word, Word, Word, Word,
];

/// The class of a lexeme's first byte.
#[inline(always)]
pub fn first_byte_class(byte: u8) -> Plain
    ensures { result ≡ first_byte_class byte }
{
    FIRSTS[byte as usize]
}

/// The rest after a leading space. Most lexemes have one space before them, which emits nothing.
#[inline(always)]
pub fn past_blank(text: &[u8]) -> &[u8]
    requires { 1 ≤ length text.now }
    ensures { result.now ≡ past_blank text.now }
{
    if text[0] == b' ' {
        return text.split_at(1).1;
    }
    text
}
