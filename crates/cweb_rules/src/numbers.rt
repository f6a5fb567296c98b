// Numbers of C text, like the preprocessing numbers of the C standard.
ghost use Rattle.std.specs.Prelude.{◌≡◌, length};
ghost use Rattle.cweb_rules.specs.Bytes as spec;
ghost use Rattle.cweb_rules.specs.inner.LineItems.{IsSizeIn};

use crate::bytes::{is_digit, is_word_byte};

/// Whether a number is next: a digit, or `.` and a digit.
pub fn starts_number(text: &[u8]) -> bool
    ensures { result ≡ spec.starts_number text.now }
{
    match text {
        [first, second, ..] => is_digit(*first) || (*first == b'.' && is_digit(*second)),
        [first] => is_digit(*first),
        [] => false,
    }
}

fn continues_number(last: u8, byte: u8) -> bool
    ensures { result ≡ spec.continues_number last byte }
{
    is_word_byte(byte)
        || byte == b'.'
        || (matches!(byte, b'+' | b'-') && matches!(last, b'e' | b'E' | b'p' | b'P'))
}

/// The length of the longest number that is next.
pub fn number_len(text: &[u8]) -> usize
    ensures { IsSizeIn (spec.number_len 0) text.now result }
{
    let mut last = 0;
    for (i, byte) in text.iter().enumerate() {
        if !continues_number(last, *byte) {
            return i;
        }
        last = *byte;
    }
    text.len()
}
