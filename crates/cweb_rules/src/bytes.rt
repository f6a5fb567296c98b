// Classes of bytes, and what a source begins with.
ghost use Rattle.std.specs.Prelude.{◌≡◌, ◌≤◌, IsTrue, length, take, true};
ghost use Rattle.std.specs.List.{prefix_len};
ghost use Rattle.cweb_rules.specs.Bytes as spec;
ghost use Rattle.cweb_rules.specs.Edges.{first_is};
ghost use Rattle.cweb_rules.specs.inner.Rules.{in_class};
ghost use Rattle.cweb_rules.specs.inner.LineItems.{IsSizeIn};

/// A class of bytes.
#[derive(Clone, Copy)]
pub enum Class {
    /// Space, tab, CR, VT and FF.
    Blank,
    /// Space and tab alone.
    Gap,
    Octal,
    /// Identifier bytes: letters, digits, `_`, `$` and bytes from 128 on.
    Word,
    /// Bytes of a transliteration: letters, digits and `_`.
    Replacing,
    /// Bytes of a raw literal's delimiter.
    Delimiter,
}

fn is_blank(byte: u8) -> bool
    ensures { result ≡ spec.is_blank byte }
{
    matches!(byte, b' ' | b'\t' | b'\r' | 11 | 12)
}

fn is_gap(byte: u8) -> bool
    ensures { result ≡ spec.is_gap byte }
{
    matches!(byte, b' ' | b'\t')
}

/// Whether a byte is an ASCII digit.
pub fn is_digit(byte: u8) -> bool
    ensures { result ≡ spec.is_digit byte }
{
    matches!(byte, b'0'..=b'9')
}

fn is_octal(byte: u8) -> bool
    ensures { result ≡ spec.is_octal byte }
{
    matches!(byte, b'0'..=b'7')
}

/// Whether a byte is an ASCII hexadecimal digit of either case.
pub fn is_hex(byte: u8) -> bool
    ensures { result ≡ spec.is_hex byte }
{
    matches!(byte, b'0'..=b'9' | b'A'..=b'F' | b'a'..=b'f')
}

// The identifier bytes as a table.
const WORD_BYTES: [bool; 256] = [
    false, false, false, false, false, false, false, false, false, false, false, false, false,
    false, false, false, false, false, false, false, false, false, false, false, false, false,
    false, false, false, false, false, false, false, false, false, false, true, false, false,
    false, false, false, false, false, false, false, false, false, true, true, true, true, true,
    true, true, true, true, true, false, false, false, false, false, false, false, true, true,
    true, true, true, true, true, true, true, true, true, true, true, true, true, true, true, true,
    true, true, true, true, true, true, true, true, false, false, false, false, true, false, true,
    true, true, true, true, true, true, true, true, true, true, true, true, true, true, true, true,
    true, true, true, true, true, true, true, true, true, false, false, false, false, false, true,
    true, true, true, true, true, true, true, true, true, true, true, true, true, true, true, true,
    true, true, true, true, true, true, true, true, true, true, true, true, true, true, true, true,
    true, true, true, true, true, true, true, true, true, true, true, true, true, true, true, true,
    true, true, true, true, true, true, true, true, true, true, true, true, true, true, true, true,
    true, true, true, true, true, true, true, true, true, true, true, true, true, true, true, true,
    true, true, true, true, true, true, true, true, true, true, true, true, true, true, true, true,
    true, true, true, true, true, true, true, true, true, true, true, true, true, true, true, true,
    true, true, true, true, true, true, true, true, true, true, true, true, true, true, true,
];

/// Whether a byte may be in an identifier.
pub fn is_word_byte(byte: u8) -> bool
    ensures { result ≡ spec.is_word_byte byte }
{
    WORD_BYTES[byte as usize]
}

fn is_replacing(byte: u8) -> bool
    ensures { result ≡ spec.is_replacing byte }
{
    matches!(byte, b'a'..=b'z' | b'A'..=b'Z' | b'0'..=b'9' | b'_')
}

fn is_delimiter(byte: u8) -> bool
    ensures { result ≡ spec.is_delimiter byte }
{
    !matches!(
        byte,
        b' ' | b'\t' | b'\r' | 11 | 12 | b'\n' | b'(' | b')' | b'\\' | b'"' | b'@'
    )
}

impl Class {
    /// Whether a byte is in the class.
    pub fn has(self, byte: u8) -> bool
        ensures { result ≡ in_class self byte }
    {
        match self {
            Class::Blank => is_blank(byte),
            Class::Gap => is_gap(byte),
            Class::Octal => is_octal(byte),
            Class::Word => is_word_byte(byte),
            Class::Replacing => is_replacing(byte),
            Class::Delimiter => is_delimiter(byte),
        }
    }
}

/// Whether the first byte is in a class.
pub fn starts(class: Class, text: &[u8]) -> bool
    ensures { result ≡ first_is (in_class class) text.now }
{
    match text {
        [first, ..] => class.has(*first),
        [] => false,
    }
}

#[inline(always)]
fn word_len_of_four(text: &[u8]) -> usize
    requires { 4 ≤ length text.now }
    ensures { result ≡ prefix_len spec.is_word_byte (take 4 text.now) }
{
    let [first, second, third, fourth, ..] = text else {
        return 0;
    };
    if !is_word_byte(*first) {
        return 0;
    }
    if !is_word_byte(*second) {
        return 1;
    }
    if !is_word_byte(*third) {
        return 2;
    }
    if !is_word_byte(*fourth) {
        return 3;
    }
    4
}

// Tests four bytes per step.
#[inline(always)]
fn word_len(text: &[u8]) -> usize
    ensures { IsSizeIn (prefix_len spec.is_word_byte) text.now result }
{
    let mut rest = text;
    'fours: while 4 <= rest.len() {
        let size = word_len_of_four(rest);
        if size < 4 {
            return text.len() - rest.len() + size;
        }
        rest = rest.split_at(4).1;
    }
    text.len() - rest.len() + span_len_bytewise(Class::Word, rest)
}

/// The length of the longest prefix whose bytes are in a class.
#[inline(always)]
pub fn span_len(class: Class, text: &[u8]) -> usize
    ensures { IsSizeIn (prefix_len (in_class class)) text.now result }
{
    match class {
        Class::Word => word_len(text),
        _ => span_len_bytewise(class, text),
    }
}

fn span_len_bytewise(class: Class, text: &[u8]) -> usize
    ensures { IsSizeIn (prefix_len (in_class class)) text.now result }
{
    for (i, byte) in text.iter().enumerate() {
        if !class.has(*byte) {
            return i;
        }
    }
    text.len()
}

/// `span_len` if the first byte is known to be in the class. That byte isn't tested again.
#[inline(always)]
pub fn nonempty_span_len(class: Class, text: &[u8]) -> usize
    requires first { first_is (in_class class) text.now ≡ true }
    ensures value { result ≡ prefix_len (in_class class) text.now }
    ensures within { result ≤ length text.now }
    ensures some { 1 ≤ result }
{
    let (_, rest) = text.split_at(1);
    1 + span_len(class, rest)
}

/// Whether a source begins with a given prefix.
pub fn begins(prefix: &[u8], text: &[u8]) -> bool
    ensures value { result ≡ spec.begins prefix.now text.now }
    ensures within { IsTrue result → length prefix.now ≤ length text.now }
{
    text.starts_with(prefix)
}

/// Whether the next byte is a newline. The end of the source counts as one.
pub fn at_line_end(text: &[u8]) -> bool
    ensures { result ≡ spec.at_line_end text.now }
{
    match text {
        [first, ..] => *first == b'\n',
        [] => true,
    }
}

/// Whether a section starts here: `@` before a space, a tab, a newline, the end of the source or `*`.
pub fn starts_section(text: &[u8]) -> bool
    ensures { result ≡ spec.starts_section text.now }
{
    match text {
        [first, second, ..] => *first == b'@' && matches!(*second, b' ' | b'\t' | b'\n' | b'*'),
        [first] => *first == b'@',
        [] => false,
    }
}
