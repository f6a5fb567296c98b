// How literals of C text begin.
ghost use Rattle.std.specs.Prelude.{◌≡◌, ◌<◌, ◌+◌, length, true, IfOk, IsTrue};
ghost use Rattle.cweb_rules.specs.Literals as spec;
ghost use Rattle.cweb_rules.specs.inner.LineItems.{raw_opener_len, raw_closer_of, IsSizeIn};

use crate::bytes::{Class, begins, span_len};
use std::alloc::{AllocError, Global};

/// The maximum length of the delimiter of a raw literal, in bytes (as in C++).
pub const MAX_DELIMITER: usize = 16;

/// The length of `L`, `u`, `U` or `u8` before a quote.
pub fn literal_prefix(text: &[u8]) -> usize
    ensures { IsSizeIn spec.literal_prefix text.now result }
{
    match text {
        [b'u', b'8', b'"' | b'\'', ..] => 2,
        [b'L' | b'u' | b'U', b'"' | b'\'', ..] => 1,
        _ => 0,
    }
}

/// Whether a literal is next: a quote, with a prefix or without.
pub fn starts_literal(text: &[u8]) -> bool
    ensures value { result ≡ spec.starts_literal text.now }
    ensures within { IsTrue result → spec.literal_prefix text.now < length text.now }
{
    let (_, rest) = text.split_at(literal_prefix(text));
    matches!(rest, [b'"' | b'\'', ..])
}

/// The quote that is next, `"` unless it is `'`.
pub fn quote_of(text: &[u8]) -> u8
    ensures { result ≡ spec.quote_of text.now }
{
    if begins(b"'", text) { b'\'' } else { b'"' }
}

/// The length of `L`, `u`, `U` or `u8` before `R"`.
pub fn raw_prefix(text: &[u8]) -> usize
    ensures { IsSizeIn spec.raw_prefix text.now result }
{
    match text {
        [b'u', b'8', b'R', b'"', ..] => 2,
        [b'L' | b'u' | b'U', b'R', b'"', ..] => 1,
        _ => 0,
    }
}

fn has_delimiter(text: &[u8]) -> bool
    ensures { result ≡ spec.has_delimiter text.now }
{
    let size = span_len(Class::Delimiter, text);
    let (_, rest) = text.split_at(size);
    size <= MAX_DELIMITER && begins(b"(", rest)
}

/// Whether a raw literal is next: `R"`, a delimiter of at most `MAX_DELIMITER` bytes and `(`, with a prefix or without.
pub fn starts_raw(text: &[u8]) -> bool
    ensures { result ≡ spec.starts_raw text.now }
{
    let prefix = raw_prefix(text);
    let (_, opener) = text.split_at(prefix);
    if !begins(b"R\"", opener) {
        return false;
    }
    let (_, rest) = text.split_at(prefix + 2);
    has_delimiter(rest)
}

// The delimiter of a raw literal. `text` is what follows its `R"`.
fn delimiter(text: &[u8]) -> &[u8]
    ensures { result.now ≡ spec.delimiter text.now }
{
    let (delimiter, _) = text.split_at(span_len(Class::Delimiter, text));
    delimiter
}

/// The length of the opener of a raw literal, up to its `(`.
pub fn raw_opener_len(text: &[u8]) -> usize
    requires { spec.starts_raw text.now ≡ true }
    ensures { IsSizeIn raw_opener_len text.now result }
{
    let start = raw_prefix(text) + 2;
    let (_, named) = text.split_at(start);
    start + delimiter(named).len() + 1
}

/// The closer of a raw literal: `)`, its delimiter and `"`.
pub fn raw_closer(alloc: Global, text: &[u8]) -> Result<Vec<u8>, AllocError>
    requires { spec.starts_raw text.now ≡ true }
    ensures { IfOk result (λ closer. closer.items ≡ raw_closer_of text.now) }
{
    let (_, named) = text.split_at(raw_prefix(text) + 2);
    let mut closer = Vec::new(alloc);
    closer.push(b')')?;
    closer.extend_from_slice(delimiter(named))?;
    closer.push(b'"')?;
    Ok(closer)
}
