// Fast path for C text outside directives: whole lexemes that their first byte doesn't determine.
ghost use Rattle.std.specs.Prelude.{◌≡◌, ◌≤◌, ◌<◌, ◌+◌, IfOk, false, length};
ghost use Rattle.cweb_scan.specs.inner.MatchSteps.{HasPlainRoom, IsPlainC, PassesPlain, TakesPlain};
ghost use Rattle.cweb_rules.specs.inner.Rules.{stops_plain};

use crate::rest::Rest;
use crate::scanner::Scanner;
use crate::skipped::skipped_len;
use cweb_rules::bytes::{Class, span_len};
use cweb_rules::items::{Item, reach};
use cweb_rules::literals::{literal_prefix, quote_of};
use cweb_rules::numbers::number_len;
use cweb_rules::punctuators::punctuator_len;
use cweb_rules::rule::{Rule, c_rule};
use cweb_rules::{End, quoted_len};
use cweb_store::Token;
use std::alloc::AllocError;

impl Scanner {
    ghost use Rattle.cweb_rules.specs.Edges.{first_is};
    ghost use Rattle.cweb_rules.specs.Matches as spec;
    ghost use Rattle.cweb_rules.specs.declared.rule.Rule.TheVariants as rule;

    #[inline(always)]
    pub(crate) fn take_number(&mut self, rest: Rest<'_>) -> Result<usize, AllocError>
        requires plain { HasPlainRoom self.old }
        requires first { rule.Number ≡ spec.c_rule false rest.bytes.now }
        ensures { IfOk result (λ n. PassesPlain n rest.entry.bytes.now self.old self.new) }
    {
        let size = number_len(rest.bytes);
        self.emit_plain(Token::Number(rest.bytes.split_at(size).0))?;
        Ok(size)
    }

    // Takes a Word that looked like a literal's prefix.
    #[inline(always)]
    fn take_word(&mut self, rest: Rest<'_>) -> Result<usize, AllocError>
        requires plain { HasPlainRoom self.old }
        requires first { rule.Identifier ≡ spec.c_rule false rest.bytes.now }
        ensures { IfOk result (λ n. PassesPlain n rest.entry.bytes.now self.old self.new) }
    {
        let size = span_len(Class::Word, rest.bytes);
        self.emit_plain(Token::Word(rest.bytes.split_at(size).0))?;
        Ok(size)
    }

    // Takes a punctuator other than `#` and `\`.
    #[inline(always)]
    pub(crate) fn take_operator(&mut self, rest: Rest<'_>) -> Result<usize, AllocError>
        requires plain { HasPlainRoom self.old }
        requires first { rule.Punctuator ≡ spec.c_rule false rest.bytes.now }
        requires kept { first_is stops_plain rest.bytes.now ≡ false }
        ensures { IfOk result (λ n. PassesPlain n rest.entry.bytes.now self.old self.new) }
    {
        let size = punctuator_len(rest.bytes);
        self.emit_plain(Token::Punct(rest.bytes.split_at(size).0))?;
        self.folded = false;
        Ok(size)
    }

    // The size of a comment that ends in its line, or 0.
    fn comment_len(&self, rest: Rest<'_>) -> usize
        requires in_c { IsPlainC self.now }
        requires two { 2 ≤ length rest.bytes.now }
        requires first { rule.Comment ≡ spec.c_rule false rest.bytes.now }
        ensures { TakesPlain result rest.entry.bytes.now self.now self.now }
    {
        let (_, text) = rest.bytes.split_at(2);
        let reached = reach(Item::Comment, text);
        match reached.how {
            End::Closed => 2 + (reached.size + reached.close),
            _ => 0,
        }
    }

    // The size of a comment up to the end of the line, or 0 if something in it ends it before.
    fn line_comment_len(&self, rest: Rest<'_>) -> usize
        requires in_c { IsPlainC self.now }
        requires two { 2 ≤ length rest.bytes.now }
        requires first { rule.LineComment ≡ spec.c_rule false rest.bytes.now }
        ensures { TakesPlain result rest.entry.bytes.now self.now self.now }
    {
        let (_, text) = rest.bytes.split_at(2);
        let reached = reach(Item::LineComment, text);
        match reached.how {
            End::Open => 2 + (reached.size + reached.close),
            _ => 0,
        }
    }

    // Takes a literal that ends in its line and has no `@`.
    pub(crate) fn take_whole_literal(&mut self, rest: Rest<'_>) -> Result<usize, AllocError>
        requires plain { HasPlainRoom self.old }
        requires first { rule.Literal ≡ spec.c_rule false rest.bytes.now }
        ensures { IfOk result (λ n. PassesPlain n rest.entry.bytes.now self.old self.new) }
    {
        let prefix = literal_prefix(rest.bytes);
        let quote = quote_of(rest.bytes.split_at(prefix).1);
        match quoted_len(quote, rest.bytes.split_at(prefix + 1).1) {
            Some(inner) => {
                let size = prefix + 1 + (inner + 1);
                let (text, _) = rest.bytes.split_at(size);
                if skipped_len(text) < size {
                    return Ok(0);
                }
                self.emit_plain(Token::Literal(text))?;
                Ok(size)
            }
            None => Ok(0),
        }
    }

    /// Takes the next lexeme by the first rule that applies. Returns 0 for the slow path: the lexeme doesn't end in the
    /// line, may concern a directive, or may have a code, a section start or a fault in it.
    #[inline(always)]
    pub fn take_further(&mut self, rest: Rest<'_>) -> Result<usize, AllocError>
        requires plain { HasPlainRoom self.old }
        requires kept { first_is stops_plain rest.bytes.now ≡ false }
        ensures { IfOk result (λ n. PassesPlain n rest.entry.bytes.now self.old self.new) }
    {
        match c_rule(false, rest.bytes) {
            Rule::Number => self.take_number(rest),
            Rule::Identifier => self.take_word(rest),
            Rule::Punctuator => self.take_operator(rest),
            Rule::Comment => Ok(self.comment_len(rest)),
            Rule::LineComment => Ok(self.line_comment_len(rest)),
            Rule::Literal => self.take_whole_literal(rest),
            _ => Ok(0),
        }
    }
}
