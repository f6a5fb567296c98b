// Worked examples of the rules, as tables.
use super::wanted::*;
use cweb_rules::bytes::{Class, span_len, starts_section};
use cweb_rules::codes::{in_c, in_limbo, in_macro, in_tex};
use cweb_rules::constants::{Transliteration, constant, letter};
use cweb_rules::items::{Item, opener_len, reach};
use cweb_rules::literals::{literal_prefix, raw_opener_len, raw_prefix, starts_raw};
use cweb_rules::numbers::number_len;
use cweb_rules::punctuators::punctuator_len;
use cweb_rules::rule::{Rule, c_rule};
use cweb_rules::{Effect, End, ScanKind};

#[test]
fn first_rule_that_fits(rt: HostRuntime) {
    const C_RULES: &[(bool, &[u8], Rule)] = &[
        (false, b" x", Rule::Blanks),
        (false, b"\nx", Rule::LineEnd),
        (false, b"/*", Rule::Comment),
        (false, b"//", Rule::LineComment),
        (false, b"/ /", Rule::Punctuator),
        (false, b"@ c", Rule::Section),
        (false, b"@", Rule::Section),
        (false, b"@c", Rule::Code),
        (false, b"u8R\"(", Rule::RawLiteral),
        (false, b"R\"a b(", Rule::Identifier),
        (false, b"u8'a'", Rule::Literal),
        (false, b"L2\"", Rule::Identifier),
        (false, b".5", Rule::Number),
        (false, b".x", Rule::Punctuator),
        (false, b"\x80", Rule::Identifier),
        (false, b"<a>", Rule::Punctuator),
        // after `#include`
        (true, b"<a>", Rule::IncludedName),
        (true, b"<a\n>", Rule::Punctuator),
    ];
    for (includes, text, want) in C_RULES {
        holds_at(&rt, c_rule(*includes, *text) == *want, *text);
    }
}

#[test]
fn codes_by_context(rt: HostRuntime) {
    let limbo = (in_limbo(b'L'), in_limbo(b'<'));
    holds(
        &rt,
        matches!(
            limbo,
            (Effect::Letter, Effect::Faulty(ScanKind::DoubleAtInLimbo))
        ),
    );
    let text = (in_tex(b'P'), in_tex(b'h'));
    holds(&rt, matches!(text, (Effect::Program, Effect::Nothing)));
    let middle = (in_macro(b'F'), in_macro(b'h'));
    holds(
        &rt,
        matches!(
            middle,
            (Effect::Format, Effect::Faulty(ScanKind::DefsInMacro))
        ),
    );
    let c = (in_c(b'd'), in_c(b'H'), in_c(b'z'));
    holds(
        &rt,
        matches!(
            c,
            (
                Effect::Faulty(ScanKind::IgnoredInCText),
                Effect::InsertDefs,
                Effect::Nothing
            )
        ),
    );
}

#[test]
fn sizes(rt: HostRuntime) {
    has_size(&rt, number_len(b"0xe+1-2 "), 5);
    has_size(&rt, number_len(b"1.5E-3f;"), 7);
    has_size(&rt, punctuator_len(b"->*x"), 3);
    has_size(&rt, punctuator_len(b"<=>"), 2);
    has_size(&rt, punctuator_len(b";;"), 1);
    has_size(&rt, span_len(Class::Word, b"a_$\xff-"), 4);
    has_size(&rt, opener_len(b" \t+=x"), 4);
    has_size(&rt, opener_len(b"=="), 0);
    has_size(&rt, opener_len(b"\r="), 0);
    has_size(&rt, literal_prefix(b"u8\""), 2);
    has_size(&rt, raw_prefix(b"LR\""), 1);
    let raw = b"LR\"d(x".as_slice();
    holds(&rt, starts_raw(raw));
    if starts_raw(raw) {
        has_size(&rt, raw_opener_len(raw), 5);
    }
    holds(&rt, starts_section(b"@\t") && !starts_section(b"@\r"));
}

#[test]
fn ends_of_items(rt: HostRuntime) {
    const EXAMPLES: &[(Item<'static>, &[u8], usize, End)] = &[
        (Item::Comment, b"a*/b", 1, End::Closed),
        (Item::Comment, b"/", 1, End::Open),
        (Item::Comment, b"a@ b*/", 1, End::Cut),
        (Item::Comment, b"@*/", 0, End::Cut),
        (Item::LineComment, b"a\nb", 1, End::Closed),
        (Item::Name, b"a@@>b@>", 5, End::Closed),
        (Item::Name, b"a@<", 1, End::Nested),
        (Item::Name, b"a", 1, End::Open),
        (Item::ControlText, b"a@@b@x", 4, End::Cut),
        (Item::Literal(b'"'), b"a\\\"b\"", 4, End::Closed),
        (Item::Literal(b'\''), b"a\nb'", 1, End::Cut),
        (Item::IncludedName, b"a@>", 2, End::Closed),
        (Item::RawLiteral(b")d\""), b"a)\")d\"", 3, End::Closed),
        (Item::RawLiteral(b")\""), b"a@*b)\"", 1, End::Cut),
    ];
    for (item, text, size, how) in EXAMPLES {
        let reached = reach(*item, *text);
        holds_at(&rt, reached.size == *size, *text);
        holds_at(&rt, reached.how == *how, *text);
    }
}

#[test]
fn constants_and_letters(rt: HostRuntime) {
    const CONSTANTS: &[(&[u8], Option<u8>, usize)] = &[
        (b"a'", Some(97), 2),
        (b"@@'", Some(64), 3),
        (b"\\t'", Some(9), 3),
        (b"\\101'", Some(65), 5),
        (b"\\377'", Some(255), 5),
        (b"\\400'x", None, 5),
        (b"ab'c", None, 3),
        (b"''", None, 1),
        (b"a\n'", None, 1),
    ];
    for (text, value, size) in CONSTANTS {
        let found = constant(*text);
        holds_at(&rt, found.value == *value, *text);
        holds_at(&rt, found.size == *size, *text);
    }
    let found = letter(b" fC\t ue_1.");
    holds(
        &rt,
        matches!(
            found,
            Some(Transliteration {
                byte: 252,
                start: 5,
                size: 4
            })
        ),
    );
    holds(&rt, letter(b"7f x").is_none());
    holds(&rt, letter(b"fcx").is_none());
}
