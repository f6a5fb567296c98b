// Newlines.
ghost use Rattle.std.specs.Prelude.{◌≡◌, ◌<◌, ◌+◌, OnOk, true};

use crate::directive::Last;
use crate::lines::is_next_line;
use crate::scanner::Scanner;
use cweb_files::Place;
use cweb_rules::Context;
use cweb_store::Token;
use std::alloc::AllocError;

impl Scanner {
    ghost use Rattle.cweb_store.specs.surface.Tokens.{too_many, token_count};
    ghost use Rattle.cweb_scan.specs.Effects.{line_end, comment_line_end, line_end_token};
    ghost use Rattle.cweb_scan.specs.State.{is_c};
    ghost use Rattle.cweb_scan.specs.inner.MatchSteps.{IsPlainC};
    ghost use Rattle.cweb_store.specs.Parts.{Newline};
    ghost use Rattle.cweb_scan.specs.State as spec;

    // Emits the token of a newline in C text.
    fn emit_line_end(&mut self, next: Place) -> Result<(), AllocError>
        requires in_c { is_c self.old.context ≡ true }
        requires few { token_count self.old.contents.parts + 1 < too_many }
        ensures { OnOk result (self.new ≡ spec.emit (line_end_token next self.old) self.old) }
    {
        if self.in_directive() && matches!(self.directive.last, Last::Backslash) {
            self.emit(Token::Newline)?;
            return Ok(());
        }
        if (self.in_directive() && self.folded) || !is_next_line(self.here, next) {
            self.emit(Token::Mark(next))?;
            return Ok(());
        }
        self.emit(Token::Newline)?;
        Ok(())
    }

    // Emits a Newline outside directives. It opens none.
    #[inline(always)]
    fn emit_newline(&mut self) -> Result<(), AllocError>
        requires in_c { IsPlainC self.old }
        requires few { token_count self.old.contents.parts + 1 < too_many }
        ensures { OnOk result (self.new ≡ spec.emit Newline self.old) }
    {
        self.builder.push(Token::Newline)?;
        self.directive.last = Last::LineEnd;
        Ok(())
    }

    /// Takes the newline before a line. Fast path: a Newline between consecutive lines of C text outside directives.
    #[inline(always)]
    pub fn end_line(&mut self, next: Place) -> Result<(), AllocError>
        requires { token_count self.old.contents.parts + 1 < too_many }
        ensures { OnOk result (self.new ≡ line_end next self.old) }
    {
        if matches!(self.context, Context::CText)
            && !self.in_directive()
            && is_next_line(self.here, next)
        {
            self.emit_newline()?;
            self.go_to(next);
            return Ok(());
        }
        self.end_any_line(next)
    }

    // Slow path of `end_line`.
    #[inline(never)]
    fn end_any_line(&mut self, next: Place) -> Result<(), AllocError>
        requires { token_count self.old.contents.parts + 1 < too_many }
        ensures { OnOk result (self.new ≡ line_end next self.old) }
    {
        if matches!(self.context, Context::CText) {
            self.emit_line_end(next)?;
        } else if matches!(self.context, Context::Macro) {
            self.emit(Token::Newline)?;
        }
        self.go_to(next);
        Ok(())
    }

    /// A newline in a comment. In a directive it emits nothing.
    pub fn end_comment_line(&mut self, next: Place) -> Result<(), AllocError>
        requires { token_count self.old.contents.parts + 1 < too_many }
        ensures { OnOk result (self.new ≡ comment_line_end next self.old) }
    {
        if self.in_directive() {
            self.go_to(next);
            return Ok(());
        }
        self.end_line(next)
    }
}
