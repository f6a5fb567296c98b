// The ASCII constants of `@'` and the transliterations of `@l`.
ghost use Rattle.std.specs.Prelude.{◌≡◌, ◌≤◌, ◌<◌, ◌+◌, length, IfSome, true};
ghost use Rattle.std.specs.List.{position_or_len};
ghost use Rattle.cweb_rules.specs.Bytes as bytes;
ghost use Rattle.cweb_rules.specs.Constants as spec;
ghost use Rattle.cweb_rules.specs.inner.Rules.{ends_faulty, octal_value};
ghost use Rattle.cweb_rules.specs.inner.LineItems.{IsSizeIn};

use crate::bytes::{Class, begins, is_digit, is_hex, span_len};

/// The maximum length of a replacement after `@l`, in bytes.
pub const MAX_REPLACEMENT: usize = 31;

/// The code of a character, and the number of bytes that it is written with.
#[derive(Clone, Copy)]
pub struct Character {
    pub code: u8,
    pub size: usize,
}

/// What follows `@'`: the character's code, `None` if the constant is faulty, and the size in bytes.
#[derive(Clone, Copy)]
pub struct Valued {
    pub value: Option<u8>,
    pub size: usize,
}

/// What follows `@l`: the byte, and the start and size of its replacement.
#[derive(Clone, Copy)]
pub struct Transliteration {
    pub byte: u8,
    pub start: usize,
    pub size: usize,
}

// The escape sequence of a letter after `\`.
fn escaped(text: &[u8]) -> Option<Character>
    ensures { result ≡ spec.escaped spec.escapes text.now }
{
    let [letter, ..] = text else {
        return None;
    };
    let code = match *letter {
        b'a' => 7,
        b'b' => 8,
        b'f' => 12,
        b'n' => 10,
        b'r' => 13,
        b't' => 9,
        b'v' => 11,
        b'\\' => b'\\',
        b'\'' => b'\'',
        b'"' => b'"',
        b'?' => b'?',
        _ => return None,
    };
    Some(Character { code, size: 2 })
}

fn octal_value(digits: &[u8]) -> u32
    requires { length digits.now ≤ 3 }
    ensures { result ≡ octal_value digits.now }
{
    let mut value = 0;
    for digit in digits {
        value = value * 8 + (*digit as u32).saturating_sub(48);
    }
    value
}

// The escape sequence of octal digits after `\`.
fn octal(digits: &[u8]) -> Option<Character>
    requires { length digits.now ≤ 3 }
    ensures { result ≡ spec.octal digits.now }
{
    let value = octal_value(digits);
    if value > 255 {
        return None;
    }
    Some(Character {
        code: value as u8,
        size: 1 + digits.len(),
    })
}

// The escape sequence after `\`: up to three octal digits, or a letter.
fn after_backslash(text: &[u8]) -> Option<Character>
    ensures { result ≡ spec.after_backslash text.now }
{
    let size = span_len(Class::Octal, text).min(3);
    if size == 0 {
        return escaped(text);
    }
    let (digits, _) = text.split_at(size);
    octal(digits)
}

fn is_plain_character(byte: u8) -> bool
    ensures { result ≡ spec.is_plain_character byte }
{
    byte < 128 && !matches!(byte, b'\'' | b'\\' | b'@' | b'\n')
}

fn character_at(text: &[u8]) -> Option<Character>
    ensures { result ≡ spec.character_at text.now }
{
    let Some((first, rest)) = text.split_first() else {
        return None;
    };
    if begins(b"@@", text) {
        return Some(Character {
            code: b'@',
            size: 2,
        });
    }
    if begins(b"\\", text) {
        return after_backslash(rest);
    }
    if is_plain_character(*first) {
        return Some(Character {
            code: *first,
            size: 1,
        });
    }
    None
}

// The length up to the first `'` or newline, where a faulty constant ends.
fn faulty_len(text: &[u8]) -> usize
    ensures { IsSizeIn (position_or_len ends_faulty) text.now result }
{
    for (i, byte) in text.iter().enumerate() {
        if matches!(*byte, b'\'' | b'\n') {
            return i;
        }
    }
    text.len()
}

// The size of a faulty constant. It includes its `'`, but not a newline.
fn faulty_size(text: &[u8]) -> usize
    ensures { IsSizeIn spec.faulty_size text.now result }
{
    let size = faulty_len(text);
    let (_, rest) = text.split_at(size);
    if begins(b"'", rest) { size + 1 } else { size }
}

/// What follows `@'`: one character and `'`. Otherwise the constant is faulty and lasts to a `'` or the line end.
pub fn constant(text: &[u8]) -> Valued
    ensures value { result ≡ spec.constant text.now }
    ensures within { result.size ≤ length text.now }
{
    if let Some(character) = character_at(text) {
        if character.size <= text.len() {
            let (_, rest) = text.split_at(character.size);
            if begins(b"'", rest) {
                return Valued {
                    value: Some(character.code),
                    size: character.size + 1,
                };
            }
        }
    }
    Valued {
        value: None,
        size: faulty_size(text),
    }
}

fn hex_value(byte: u8) -> u8
    requires { bytes.is_hex byte ≡ true }
    ensures value { result ≡ spec.hex_value byte }
    ensures small { result < 16 }
{
    match byte {
        b'0'..=b'9' => byte - b'0',
        b'A'..=b'F' => byte - b'A' + 10,
        _ => byte - b'a' + 10,
    }
}

// The value of two hexadecimal digits if it is 0x80 or more.
fn hex_at(text: &[u8]) -> Option<u8>
    ensures value { result ≡ spec.hex_at text.now }
    ensures within { IfSome result (λ byte. 2 ≤ length text.now) }
    ensures high { IfSome result (λ byte. 128 ≤ byte) }
{
    let [first, second, ..] = text else {
        return None;
    };
    if !is_hex(*first) || !is_hex(*second) {
        return None;
    }
    let value = 16 * hex_value(*first) + hex_value(*second);
    if value < 128 {
        return None;
    }
    Some(value)
}

/// What follows `@l`: two hexadecimal digits, 80 or above, between spaces and tabs, and a replacement, maybe empty.
pub fn letter(text: &[u8]) -> Option<Transliteration>
    ensures value { result ≡ spec.letter text.now }
    ensures within { IfSome result (λ found. found.start + found.size ≤ length text.now) }
    ensures high { IfSome result (λ found. 128 ≤ found.byte) }
{
    let gap = span_len(Class::Gap, text);
    let (_, digits) = text.split_at(gap);
    let byte = hex_at(digits)?;
    let (_, rest) = digits.split_at(2);
    let more = span_len(Class::Gap, rest);
    if more == 0 {
        return None;
    }
    let (_, replacement) = rest.split_at(more);
    Some(Transliteration {
        byte,
        start: gap + 2 + more,
        size: span_len(Class::Replacing, replacement),
    })
}
