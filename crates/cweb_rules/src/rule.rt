// Which rule applies next.
ghost use Rattle.std.specs.Prelude.{◌≡◌, ◌<◌};
ghost use Rattle.cweb_rules.specs.Matches as spec;

use crate::bytes::{Class, begins, starts, starts_section};
use crate::items::{Item, reach};
use crate::literals::{starts_literal, starts_raw};
use crate::numbers::starts_number;
use crate::{End, Plain, first_byte_class};

/// The rules of C text, in the order in which they are tried.
#[derive(Clone, Copy, Debug, PartialEq, Eq)]
pub enum Rule {
    Blanks,
    LineEnd,
    Comment,
    LineComment,
    Section,
    Code,
    RawLiteral,
    Literal,
    IncludedName,
    Number,
    Identifier,
    Punctuator,
}

fn is_closed(how: End) -> bool
    ensures { result ≡ spec.is_closed how }
{
    matches!(how, End::Closed)
}

fn starts_include(text: &[u8]) -> bool
    ensures { result ≡ spec.starts_include text.now }
{
    if !begins(b"<", text) {
        return false;
    }
    let (_, name) = text.split_at(1);
    is_closed(reach(Item::IncludedName, name).how)
}

/// The first rule of C text that applies, `IncludedName` only if `includes` is set. Mostly the first byte decides.
#[inline(always)]
pub fn c_rule(includes: bool, text: &[u8]) -> Rule
    ensures { result ≡ spec.c_rule includes text.now }
{
    let [first, ..] = text else {
        return first_rule(includes, text);
    };
    match first_byte_class(*first) {
        Plain::Blank => Rule::Blanks,
        Plain::Word => Rule::Identifier,
        Plain::Lone => Rule::Punctuator,
        Plain::Operator if !includes => Rule::Punctuator,
        _ => first_rule(includes, text),
    }
}

// Slow path: tries each rule in order.
#[inline(never)]
fn first_rule(includes: bool, text: &[u8]) -> Rule
    ensures { result ≡ spec.c_rule includes text.now }
{
    if starts(Class::Blank, text) {
        Rule::Blanks
    } else if matches!(text, [b'\n', ..]) {
        Rule::LineEnd
    } else if matches!(text, [b'/', b'*', ..]) {
        Rule::Comment
    } else if matches!(text, [b'/', b'/', ..]) {
        Rule::LineComment
    } else if starts_section(text) {
        Rule::Section
    } else if matches!(text, [b'@', ..]) {
        Rule::Code
    } else if starts_raw(text) {
        Rule::RawLiteral
    } else if starts_literal(text) {
        Rule::Literal
    } else if includes && starts_include(text) {
        Rule::IncludedName
    } else if starts_number(text) {
        Rule::Number
    } else if starts(Class::Word, text) {
        Rule::Identifier
    } else {
        Rule::Punctuator
    }
}
