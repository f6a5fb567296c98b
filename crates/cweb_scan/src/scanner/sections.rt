// Starts and ends of sections, parts and macros.
ghost use Rattle.std.specs.Prelude.{◌≡◌, ◌<◌, ◌+◌, OnOk, true, false};

use crate::directive::Directive;
use crate::scanner::Scanner;
use cweb_files::Place;
use cweb_rules::{Context, ScanKind};
use cweb_store::{PartKind, Token};
use std::alloc::AllocError;

impl Scanner {
    ghost use Rattle.cweb_store.specs.Parts.{is_macro};
    ghost use Rattle.cweb_scan.specs.Effects as after;
    ghost use Rattle.cweb_scan.specs.inner.ScanParts.{in_open_part};
    ghost use Rattle.cweb_scan.specs.inner.ReaderModel.{HasPartRoom, HasItemRoom};
    ghost use Rattle.cweb_scan.specs.State as spec;

    /// Begins a part after its opener, with a Head and a Mark.
    pub fn begin_part(&mut self, kind: PartKind) -> Result<(), AllocError>
        requires closed { in_open_part self.old.context ≡ false }
        requires in_c { is_macro kind ≡ false }
        requires room { HasPartRoom self.old }
        ensures { OnOk result (self.new ≡ spec.begin_part kind self.old) }
    {
        self.builder.open_part(kind)?;
        self.context = Context::CText;
        self.directive = Directive::new();
        self.solid = Directive::new();
        self.folded = false;
        self.emit(Token::Head(self.sections))?;
        self.emit(Token::Mark(self.here))
    }

    /// Ends the open part.
    pub fn end_part(&mut self)
        requires { in_open_part self.old.context ≡ true }
        ensures { self.new ≡ spec.end_part self.old }
    {
        self.builder.close_part();
        self.context = Context::TeX;
    }

    /// Ends an open macro, before another definition or a part.
    pub fn end_macro(&mut self)
        ensures { self.new ≡ spec.end_macro self.old }
    {
        if matches!(self.context, Context::Macro) {
            self.end_part();
        }
    }

    /// Drops a definition without an identifier, and reports it.
    pub fn drop_definition(&mut self, begun: Place) -> Result<(), AllocError>
        requires { in_open_part self.old.context ≡ false }
        ensures { OnOk result (self.new ≡ spec.drop_definition begun self.old) }
    {
        self.fault(ScanKind::DefinitionDropped, begun)?;
        self.context = Context::TeX;
        Ok(())
    }

    /// Ends the context, at a section start or at the end of the source.
    pub fn leave(&mut self) -> Result<(), AllocError>
        requires { HasItemRoom 1 self.old }
        ensures { OnOk result (self.new ≡ spec.leave self.old) }
    {
        match self.context {
            Context::Limbo | Context::TeX => Ok(()),
            Context::Definition(begun) => self.drop_definition(begun),
            Context::Macro => {
                self.end_part();
                Ok(())
            }
            Context::CText => {
                self.emit(Token::Tail(self.sections))?;
                self.end_part();
                Ok(())
            }
        }
    }

    /// Begins a section.
    pub fn begin_section(&mut self, starred: bool) -> Result<(), AllocError>
        requires { HasItemRoom 1 self.old }
        ensures { OnOk result (self.new ≡ spec.begin_section starred self.old) }
    {
        let number = self.sections + 1;
        self.leave()?;
        self.context = Context::TeX;
        self.sections = number;
        if starred {
            self.starred.push(number)?;
        }
        Ok(())
    }

    /// Begins a macro with the identifier after `@d`. A Blank follows, unless `(` follows directly.
    pub fn define(&mut self, name: &[u8], tight: bool) -> Result<(), AllocError>
        requires closed { in_open_part self.old.context ≡ false }
        requires room { HasItemRoom 2 self.old }
        ensures { OnOk result (self.new ≡ after.define name.now tight self.old) }
    {
        self.builder.open_part(PartKind::Macro)?;
        self.context = Context::Macro;
        self.emit(Token::Word(name))?;
        if !tight {
            self.emit(Token::Blank)?;
        }
        Ok(())
    }
}
