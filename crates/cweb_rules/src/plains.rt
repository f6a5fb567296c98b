// Spans of plain bytes: bytes of an item that are units of their own.
ghost use Rattle.std.specs.Prelude.{◌==◌, ◌||◌, length, not};
ghost use Rattle.std.specs.List.{prefix_len};
ghost use Rattle.cweb_rules.specs.inner.LineItems.{is_plain, is_raw_special, IsSizeIn};
ghost use Rattle.memchr.specs.Find.{is_byte, is_byte2, is_byte3};

use crate::items::Item;
use memchr::{memchr, memchr2, memchr3};

/// The number of bytes before the first occurrence of a byte.
pub fn len_before(byte: u8, text: &[u8]) -> usize
    ensures { IsSizeIn (prefix_len (λ b. not (is_byte byte b))) text.now result }
{
    memchr(byte, text).unwrap_or(text.len())
}

fn len_before2(one: u8, other: u8, text: &[u8]) -> usize
    ensures { IsSizeIn (prefix_len (λ b. not (is_byte2 one other b))) text.now result }
{
    memchr2(one, other, text).unwrap_or(text.len())
}

fn len_before3(one: u8, other: u8, third: u8, text: &[u8]) -> usize
    ensures { IsSizeIn (prefix_len (λ b. not (is_byte3 one other third b))) text.now result }
{
    memchr3(one, other, third, text).unwrap_or(text.len())
}

#[inline(always)]
pub(crate) fn plain_in_literal(quote: u8, text: &[u8]) -> usize
    ensures { IsSizeIn (prefix_len (λ b. not ((b == 64 || b == 92 || b == quote) || b == 10)))
        text.now result }
{
    // A plain loop, since most literals are short.
    for (i, byte) in text.iter().enumerate() {
        if matches!(*byte, b'@' | b'\\' | b'\n') || *byte == quote {
            return i;
        }
    }
    text.len()
}

fn plain_in_raw(closer: &[u8], text: &[u8]) -> usize
    ensures { IsSizeIn (prefix_len (λ b. not (is_raw_special closer.now b))) text.now result }
{
    match closer {
        [first, ..] => len_before2(b'@', *first, text),
        [] => 0,
    }
}

impl Item<'_> {
    /// The length of the longest prefix of plain bytes, whatever follows it.
    pub fn plain_len(self, text: &[u8]) -> usize
        ensures { IsSizeIn (prefix_len (is_plain self.entry)) text.now result }
    {
        match self {
            Item::ControlText | Item::LineComment => len_before2(b'@', b'\n', text),
            Item::Name => len_before(b'@', text),
            Item::Comment => len_before2(b'@', b'*', text),
            Item::Literal(quote) => plain_in_literal(quote, text),
            Item::IncludedName => len_before3(b'@', b'\n', b'>', text),
            Item::RawLiteral(closer) => plain_in_raw(closer, text),
        }
    }
}
