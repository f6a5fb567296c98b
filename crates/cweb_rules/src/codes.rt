// The effect of each control code in each context (CWEB manual, "Control codes").
ghost use Rattle.std.specs.Prelude.{◌≡◌};
ghost use Rattle.cweb_rules.specs.Codes as spec;

use crate::{Effect, ScanKind};

/// The effect of a code before the first section.
pub fn in_limbo(letter: u8) -> Effect
    ensures { result ≡ spec.in_limbo letter }
{
    match letter {
        b'@' | b'f' | b'F' | b's' | b'S' => Effect::Nothing,
        b'q' | b'Q' => Effect::ControlText,
        b'l' | b'L' => Effect::Letter,
        _ => Effect::Faulty(ScanKind::DoubleAtInLimbo),
    }
}

/// The effect of a code in the TeX and middle parts of a section.
pub fn in_tex(letter: u8) -> Effect
    ensures { result ≡ spec.in_tex letter }
{
    match letter {
        b'd' | b'D' => Effect::Define,
        b'c' | b'C' | b'p' | b'P' => Effect::Program,
        b'(' | b'<' => Effect::Named,
        _ => Effect::Nothing,
    }
}

/// The effect of a code in a macro.
pub fn in_macro(letter: u8) -> Effect
    ensures { result ≡ spec.in_macro letter }
{
    match letter {
        b'd' | b'D' => Effect::Define,
        b'f' | b'F' | b's' | b'S' => Effect::Format,
        b'c' | b'C' | b'p' | b'P' => Effect::Program,
        b'<' | b'(' => Effect::Named,
        b'h' | b'H' => Effect::Faulty(ScanKind::DefsInMacro),
        b'&' => Effect::Joins,
        b'=' => Effect::Verbatim,
        b'\'' => Effect::Constant,
        b'^' | b'.' | b':' | b't' | b'T' | b'q' | b'Q' => Effect::ControlText,
        b'l' | b'L' => Effect::Faulty(ScanKind::LetterOutsideLimbo),
        b'@' => Effect::EmitAt,
        _ => Effect::Nothing,
    }
}

/// The effect of a code in the C part of a section.
pub fn in_c(letter: u8) -> Effect
    ensures { result ≡ spec.in_c letter }
{
    match letter {
        b'd' | b'D' | b'f' | b'F' | b's' | b'S' | b'c' | b'C' | b'p' | b'P' => {
            Effect::Faulty(ScanKind::IgnoredInCText)
        }
        b'<' | b'(' => Effect::Named,
        b'h' | b'H' => Effect::InsertDefs,
        b'&' => Effect::Joins,
        b'=' => Effect::Verbatim,
        b'\'' => Effect::Constant,
        b'^' | b'.' | b':' | b't' | b'T' | b'q' | b'Q' => Effect::ControlText,
        b'l' | b'L' => Effect::Faulty(ScanKind::LetterOutsideLimbo),
        b'@' => Effect::EmitAt,
        _ => Effect::Nothing,
    }
}
