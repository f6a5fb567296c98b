// Delimited items: control texts, names, comments, literals and included names.
ghost use Rattle.std.specs.Prelude.{◌≡◌, ◌≤◌, ◌<◌, ◌+◌, length};
ghost use Rattle.cweb_rules.specs.Items as spec;
ghost use Rattle.cweb_rules.specs.inner.LineItems.{look_of, reached, MovesOn, IsSizeIn, is_plain};
ghost use Rattle.cweb_rules.specs.declared.end.End.TheVariants as how;
ghost use Rattle.std.specs.List.{prefix_len};

use crate::bytes::{Class, at_line_end, begins, span_len, starts_section};
use crate::{End, Look};

/// A delimited item, as it is after its opener.
#[derive(Clone, Copy)]
pub enum Item<'a> {
    /// After `@^`, `@.`, `@:`, `@t`, `@q` and `@=`.
    ControlText,
    /// After `@<` and `@(`.
    Name,
    /// After `/*`.
    Comment,
    /// After `//`.
    LineComment,
    /// After this quote.
    Literal(u8),
    /// After the `<` of an included name.
    IncludedName,
    /// After the `(` of a raw literal with this closer.
    RawLiteral(&'a [u8]),
}

/// The extent of an item: the bytes before its closer, those of the closer, and how it ended.
#[derive(Clone, Copy)]
pub struct Reached {
    pub size: usize,
    pub close: usize,
    pub how: End,
}

fn look_in_control(text: &[u8]) -> Look
    ensures { result ≡ spec.look_in_control text.now }
{
    if begins(b"@>", text) {
        return Look::Ends(2, End::Closed);
    }
    if begins(b"@@", text) {
        return Look::Goes(2);
    }
    if begins(b"@", text) || at_line_end(text) {
        return Look::Ends(0, End::Cut);
    }
    Look::Goes(1)
}

fn look_in_name(text: &[u8]) -> Look
    ensures { result ≡ spec.look_in_name text.now }
{
    if begins(b"@>", text) {
        return Look::Ends(2, End::Closed);
    }
    if begins(b"@<", text) || begins(b"@(", text) {
        return Look::Ends(0, End::Nested);
    }
    if starts_section(text) {
        return Look::Ends(0, End::Cut);
    }
    if begins(b"@", text) {
        return Look::Goes(2);
    }
    Look::Goes(1)
}

// `closes` says whether the closer, of `size` bytes, is next.
fn look_in_comment(closes: bool, size: usize, text: &[u8]) -> Look
    ensures { result ≡ spec.look_in_comment (λ t. closes) size text.now }
{
    if closes {
        return Look::Ends(size, End::Closed);
    }
    if starts_section(text) {
        return Look::Ends(0, End::Cut);
    }
    if begins(b"@", text) {
        return Look::Goes(2);
    }
    Look::Goes(1)
}

fn look_in_literal(quote: u8, text: &[u8]) -> Look
    ensures { result ≡ spec.look_in_literal quote text.now }
{
    if begins(&[quote], text) {
        return Look::Ends(1, End::Closed);
    }
    if at_line_end(text) {
        return Look::Ends(0, End::Cut);
    }
    if begins(b"\\@", text) {
        return Look::Goes(1);
    }
    if begins(b"\\", text) || begins(b"@@", text) {
        return Look::Goes(2);
    }
    Look::Goes(1)
}

fn look_in_include(text: &[u8]) -> Look
    ensures { result ≡ spec.look_in_include text.now }
{
    if begins(b">", text) {
        return Look::Ends(1, End::Closed);
    }
    if at_line_end(text) {
        return Look::Ends(0, End::Cut);
    }
    if begins(b"@@", text) {
        return Look::Goes(2);
    }
    Look::Goes(1)
}

fn look_in_raw(closer: &[u8], text: &[u8]) -> Look
    ensures { result ≡ spec.look_in_raw closer.now text.now }
{
    if begins(closer, text) {
        return Look::Ends(closer.len(), End::Closed);
    }
    if starts_section(text) {
        return Look::Ends(0, End::Cut);
    }
    if begins(b"@@", text) {
        return Look::Goes(2);
    }
    Look::Goes(1)
}

impl Item<'_> {
    /// The next unit of the item, or its end.
    pub fn look(self, text: &[u8]) -> Look
        ensures value { result ≡ look_of self.entry text.now }
        ensures some { MovesOn result }
    {
        match self {
            Item::ControlText => look_in_control(text),
            Item::Name => look_in_name(text),
            Item::Comment => look_in_comment(begins(b"*/", text), 2, text),
            Item::LineComment => look_in_comment(at_line_end(text), 0, text),
            Item::Literal(quote) => look_in_literal(quote, text),
            Item::IncludedName => look_in_include(text),
            Item::RawLiteral(closer) => look_in_raw(closer, text),
        }
    }
}

/// The extent of an item within a source that may end before the item does.
// Not inlined: its locals would cost each line that the reader takes.
#[inline(never)]
pub fn reach(item: Item<'_>, text: &[u8]) -> Reached
    ensures value { result ≡ reached (spec.reach (look_of item.entry) how.Open text.now) }
    ensures within { result.size + result.close ≤ length text.now }
{
    reach_after(item, text, item.plain_len(text))
}

/// The extent of an item that begins with this many single-byte units. Spans of those are skipped.
pub fn reach_after(item: Item<'_>, text: &[u8], plain: usize) -> Reached
    requires { IsSizeIn (prefix_len (is_plain item)) text.now plain }
    ensures value { result ≡ reached (spec.reach (look_of item.entry) how.Open text.now) }
    ensures within { result.size + result.close ≤ length text.now }
{
    let mut rest = text.split_at(plain).1;
    let mut size = plain;
    'units: while !rest.is_empty() {
        match item.look(rest) {
            Look::Goes(unit) => {
                let step = unit.min(rest.len());
                let after = rest.split_at(step).1;
                let plain = item.plain_len(after);
                rest = after.split_at(plain).1;
                size += step + plain;
            }
            Look::Ends(close, how) => return Reached { size, close, how },
        }
    }
    Reached {
        size,
        close: 0,
        how: End::Open,
    }
}

/// The length of an opener of a part: spaces and tabs, then `=` or `+=` without a further `=`. 0 if there is none.
pub fn opener_len(text: &[u8]) -> usize
    ensures { IsSizeIn spec.opener_len text.now result }
{
    let gap = span_len(Class::Gap, text);
    let (_, rest) = text.split_at(gap);
    let size = if begins(b"=", rest) {
        1
    } else if begins(b"+=", rest) {
        2
    } else {
        return 0;
    };
    if begins(b"=", rest.split_at(size).1) {
        return 0;
    }
    gap + size
}
