// Applies a rule of C text to the next lexeme.
ghost use Rattle.std.specs.Prelude.{◌≡◌, ◌≤◌, IfOk, length, true, false};

use crate::rest::Rest;
use crate::scanner::Scanner;
use cweb_rules::bytes::{Class, span_len};
use cweb_rules::items::Item;
use cweb_rules::numbers::number_len;
use cweb_rules::punctuators::punctuator_len;
use cweb_rules::rule::Rule;
use cweb_store::Token;
use std::alloc::AllocError;

impl Scanner {
    ghost use Rattle.cweb_rules.specs.Codes.{in_c};
    ghost use Rattle.cweb_rules.specs.Matches.{c_match_by};
    ghost use Rattle.cweb_scan.specs.inner.MatchSteps.{ends_in_line, needs_two, Applies};
    ghost use Rattle.cweb_scan.specs.inner.ReaderModel.{CanEmit};

    /// Takes the lexeme of a rule, if it ends in its line and is no code. Returns its size.
    #[inline(always)]
    pub fn take_rule(&mut self, rule: Rule, rest: Rest<'_>) -> Result<usize, AllocError>
        requires ends { ends_in_line rule ≡ true }
        requires part { CanEmit 1 self.old }
        requires two { needs_two rule ≡ true → 2 ≤ length rest.bytes.now }
        ensures { IfOk result (λ n. Applies (c_match_by in_c false rest.entry.bytes.now rule)
            rest.entry.bytes.now n self.old self.new) }
    {
        match rule {
            Rule::Blanks => {
                self.blank()?;
                Ok(span_len(Class::Blank, rest.bytes))
            }
            Rule::LineComment => self.take_line_comment(rest.bytes),
            Rule::IncludedName => self.take_quoted(1, Item::IncludedName, rest.bytes, &[]),
            Rule::Number => {
                let size = number_len(rest.bytes);
                self.emit(Token::Number(rest.bytes.split_at(size).0))?;
                Ok(size)
            }
            Rule::Identifier => {
                let size = span_len(Class::Word, rest.bytes);
                self.emit(Token::Word(rest.bytes.split_at(size).0))?;
                Ok(size)
            }
            _ => {
                let size = punctuator_len(rest.bytes);
                self.punctuator(rest.bytes.split_at(size).0)?;
                Ok(size)
            }
        }
    }
}
