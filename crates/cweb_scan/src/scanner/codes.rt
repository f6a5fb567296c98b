// Control codes, and the items that they begin within a line.
ghost use Rattle.std.specs.Prelude.{◌≡◌, ◌≤◌, IfOk, OnOk, length, true, false};
ghost use Rattle.cweb_scan.specs.inner.MatchSteps.{may_do, ended_as, Applies};
ghost use Rattle.cweb_scan.specs.inner.MatchSteps as match_steps;

use crate::scanner::Scanner;
use cweb_rules::bytes::begins;
use cweb_rules::constants::{MAX_REPLACEMENT, constant, letter};
use cweb_rules::items::{Item, reach};
use cweb_rules::{Context, Effect, End, ScanKind, push_units};
use cweb_store::{PartKind, Token};
use std::alloc::AllocError;

/// How an item ended: `at_end` if it ended at the line's end.
pub fn ended(at_end: End, how: End) -> End
    ensures { result ≡ ended_as at_end how }
{
    match how {
        End::Open => at_end,
        _ => how,
    }
}

impl Scanner {
    ghost use Rattle.cweb_rules.specs.Matches.{section_match, control_text_match, verbatim_match, constant_match};
    ghost use Rattle.cweb_rules.specs.Matches.{letter_match, effect_match, line_comment_match};
    ghost use Rattle.cweb_scan.specs.Effects as spec;
    ghost use Rattle.cweb_scan.specs.inner.ReaderModel.{CanEmit, HasItemRoom};

    /// A section start. Like the functions below, it returns the number of bytes taken.
    #[inline(never)]
    pub fn take_section(&mut self, rest: &[u8]) -> Result<usize, AllocError>
        requires { HasItemRoom 1 self.old }
        ensures { IfOk result (λ n. Applies (section_match rest.now) rest.now n self.old self.new) }
    {
        if begins(b"@*", rest) {
            self.begin_section(true)?;
            return Ok(2);
        }
        self.begin_section(false)?;
        Ok(1)
    }

    /// Applies a code that begins no item.
    pub fn apply_effect(&mut self, effect: Effect) -> Result<(), AllocError>
        requires may { may_do self.old.context effect ≡ true }
        requires room { HasItemRoom 2 self.old }
        ensures { OnOk result (self.new ≡ spec.apply_effect effect self.old) }
    {
        match effect {
            Effect::Define => {
                self.begin_definition();
                Ok(())
            }
            Effect::Format => {
                self.end_macro();
                Ok(())
            }
            Effect::Program => {
                self.end_macro();
                self.begin_part(PartKind::Unnamed)
            }
            Effect::InsertDefs => self.insert_definitions(),
            Effect::Joins => self.join(),
            Effect::EmitAt => self.emit(Token::Punct(b"@")),
            Effect::Faulty(kind) => self.fault(kind, self.here),
            _ => Ok(()),
        }
    }

    // `@^`, `@.`, `@:`, `@t` and `@q`: a control text, which emits nothing.
    fn take_control_text(&mut self, rest: &[u8]) -> Result<usize, AllocError>
        requires { 2 ≤ length rest.now }
        ensures { IfOk result
            (λ n. Applies (control_text_match rest.now) rest.now n self.old self.new) }
    {
        let (_, text) = rest.split_at(2);
        let reached = reach(Item::ControlText, text);
        self.pass_control_text(ended(End::Cut, reached.how))?;
        Ok(2 + (reached.size + reached.close))
    }

    // `@=`: verbatim bytes up to `@>`.
    fn take_verbatim(&mut self, rest: &[u8]) -> Result<usize, AllocError>
        requires two { 2 ≤ length rest.now }
        requires part { CanEmit 1 self.old }
        ensures { IfOk result
            (λ n. Applies (verbatim_match rest.now) rest.now n self.old self.new) }
    {
        let (_, line) = rest.split_at(2);
        let reached = reach(Item::ControlText, line);
        let mut text = Vec::new(self.alloc);
        push_units(&mut text, Item::ControlText, line)?;
        self.emit_verbatim(&text, ended(End::Cut, reached.how))?;
        Ok(2 + (reached.size + reached.close))
    }

    // `@'`: the code of a character.
    fn take_constant(&mut self, rest: &[u8]) -> Result<usize, AllocError>
        requires two { 2 ≤ length rest.now }
        requires part { CanEmit 1 self.old }
        ensures { IfOk result
            (λ n. Applies (constant_match rest.now) rest.now n self.old self.new) }
    {
        let (_, text) = rest.split_at(2);
        let found = constant(text);
        match found.value {
            Some(code) => self.emit_constant(code)?,
            None => self.fault(ScanKind::FaultyConstant, self.here)?,
        }
        Ok(2 + found.size)
    }

    // `@l`: a byte and its transliteration.
    fn take_letter(&mut self, rest: &[u8]) -> Result<usize, AllocError>
        requires { 2 ≤ length rest.now }
        ensures { IfOk result (λ n. Applies (letter_match rest.now) rest.now n self.old self.new) }
    {
        let (_, text) = rest.split_at(2);
        let Some(found) = letter(text) else {
            self.fault(ScanKind::ImproperHexNumber, self.here)?;
            return Ok(2);
        };
        if found.size > MAX_REPLACEMENT {
            self.fault(ScanKind::ReplacementTooLong, self.here)?;
        } else {
            let (_, replacement) = rest.split_at(2 + found.start);
            self.set_letter(found.byte, replacement.split_at(found.size).0)?;
        }
        Ok(2 + (found.start + found.size))
    }

    /// Takes any code that begins no name.
    pub fn take_item(&mut self, effect: Effect, rest: &[u8]) -> Result<usize, AllocError>
        requires two { 2 ≤ length rest.now }
        requires may { may_do self.old.context effect ≡ true }
        requires room { HasItemRoom 2 self.old }
        requires unnamed { match_steps.is_name_effect effect ≡ false }
        ensures { IfOk result
            (λ n. Applies (effect_match effect true rest.now) rest.now n self.old self.new) }
    {
        match effect {
            Effect::Letter => self.take_letter(rest),
            Effect::ControlText => self.take_control_text(rest),
            Effect::Constant => self.take_constant(rest),
            Effect::Verbatim => self.take_verbatim(rest),
            _ => {
                self.apply_effect(effect)?;
                Ok(2)
            }
        }
    }

    /// `//`: a comment up to the end of the line.
    #[inline(never)]
    pub fn take_line_comment(&mut self, rest: &[u8]) -> Result<usize, AllocError>
        requires two { 2 ≤ length rest.now }
        requires room { HasItemRoom 1 self.old }
        ensures { IfOk result
            (λ n. Applies (line_comment_match rest.now) rest.now n self.old self.new) }
    {
        let (_, text) = rest.split_at(2);
        let reached = reach(Item::LineComment, text);
        let here = self.here;
        self.blank()?;
        self.pass_comment(ended(End::Closed, reached.how), here)?;
        Ok(2 + (reached.size + reached.close))
    }
}
