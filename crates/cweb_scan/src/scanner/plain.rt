// Fast path for C text outside items and directives: lexemes whose rule is determined by their first byte.
ghost use Rattle.std.specs.Prelude.{◌≡◌, ◌≤◌, ◌<◌, ◌+◌, ◌*◌, IfOk, IfSome, OnOk, OnErr, length};
ghost use Rattle.cweb_store.specs.surface.Tokens.{too_many, token_model};
ghost use Rattle.cweb_scan.specs.inner.MatchSteps.{taken_size, HasPlainRoom, IsPlainC, IsPlainToken, PassesPlain};
ghost use Rattle.cweb_scan.specs.inner.MatchSteps.{TakesPlain};

use crate::directive::{Directive, Last, Stage};
use crate::rest::Rest;
use crate::scanner::Scanner;
use cweb_rules::bytes::{Class, nonempty_span_len};
use cweb_rules::{Context, Plain, first_byte_class, past_blank};
use cweb_store::Token;
use std::alloc::AllocError;

// `None` for an empty lexeme.
#[inline(always)]
fn nonempty_len(size: usize) -> Option<usize>
    ensures size { taken_size result ≡ size }
    ensures some { IfSome result (λ n. 1 ≤ n) }
{
    if size == 0 { None } else { Some(size) }
}

impl Scanner {
    ghost use Rattle.cweb_store.specs.surface.Tokens.{token_count};
    ghost use Rattle.cweb_rules.specs.inner.LineItems.{IsLine};
    ghost use Rattle.cweb_scan.specs.inner.ReaderModel.{weight};
    ghost use Rattle.cweb_scan.specs.State as spec;

    // Emits a token that opens no directive. A refused call changes nothing.
    #[inline(always)]
    pub(crate) fn emit_plain(&mut self, token: Token<'_>) -> Result<(), AllocError>
        requires in_c { IsPlainC self.old }
        requires plain { IsPlainToken (token_model token) }
        requires few { token_count self.old.contents.parts + 1 < too_many }
        ensures ok { OnOk result (self.new ≡ spec.emit (token_model token.entry) self.old) }
        ensures err { OnErr result (self.new ≡ self.old) }
    {
        self.builder.push(token)?;
        let next = Directive {
            stage: Stage::Outside,
            last: Last::Other,
        };
        self.solid = next;
        self.directive = next;
        Ok(())
    }

    // Takes the next lexeme if its first byte determines its rule.
    #[inline(always)]
    fn take_lexeme(&mut self, rest: Rest<'_>) -> Result<Option<usize>, AllocError>
        requires { HasPlainRoom self.old }
        ensures taken { IfOk result (λ o.
            PassesPlain (taken_size o) rest.entry.bytes.now self.old self.new) }
        ensures some { IfOk result (λ o. IfSome o (λ n. 1 ≤ n)) }
    {
        match first_byte_class(rest.bytes[0]) {
            Plain::Blank => Ok(Some(nonempty_span_len(Class::Blank, rest.bytes))),
            Plain::Word => {
                let size = nonempty_span_len(Class::Word, rest.bytes);
                self.emit_plain(Token::Word(rest.bytes.split_at(size).0))?;
                Ok(Some(size))
            }
            Plain::Lone => {
                self.emit_plain(Token::Punct(rest.bytes.split_at(1).0))?;
                self.folded = false;
                Ok(Some(1))
            }
            Plain::Operator => Ok(nonempty_len(self.take_operator(rest)?)),
            Plain::Digit => Ok(nonempty_len(self.take_number(rest)?)),
            Plain::Quote => Ok(nonempty_len(self.take_whole_literal(rest)?)),
            Plain::Further => Ok(nonempty_len(self.take_further(rest)?)),
            Plain::Stop => Ok(None),
        }
    }

    /// Takes lexemes of C text whose rule is determined by their first byte. Returns the number of bytes.
    pub fn take_plain(&mut self, rest: &[u8]) -> Result<usize, AllocError>
        requires line { IsLine rest.now }
        requires room { weight self.old + 3 * length rest.now + 8 < too_many }
        ensures { IfOk result (λ n. TakesPlain n rest.now self.old self.new) }
    {
        if !matches!(self.context(), Context::CText) || self.in_directive() {
            return Ok(0);
        }
        let mut left = rest;
        'pieces: while !left.is_empty() {
            let piece = past_blank(left);
            if piece.is_empty() {
                return Ok(rest.len() - piece.len());
            }
            match self.take_lexeme(Rest { bytes: piece })? {
                Some(size) => left = piece.split_at(size).1,
                None => return Ok(rest.len() - piece.len()),
            }
        }
        Ok(rest.len() - left.len())
    }
}
