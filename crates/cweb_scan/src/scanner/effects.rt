// The effects of control codes and items.
ghost use Rattle.std.specs.Prelude.{◌≡◌, ◌≤◌, OnOk, true, false};

use crate::scanner::Scanner;
use cweb_files::Place;
use cweb_rules::{Context, End, ScanKind};
use cweb_store::{NameRef, PartKind, Token};
use itoa::Buffer;
use std::alloc::AllocError;

impl Scanner {
    ghost use Rattle.std.specs.Prelude.{Some};
    ghost use Rattle.cweb_scan.specs.Effects.{apply_effect};
    ghost use Rattle.cweb_scan.specs.Effects as after;
    ghost use Rattle.cweb_rules.specs.declared.effect.Effect.TheVariants as effect;
    ghost use Rattle.cweb_scan.specs.inner.ScanParts.{in_open_part};
    ghost use Rattle.cweb_scan.specs.inner.ReaderModel.{CanEmit, HasPartRoom};
    ghost use Rattle.cweb_scan.specs.State as spec;

    /// `@d`: begins a macro definition.
    pub fn begin_definition(&mut self)
        requires { in_open_part (spec.end_macro self.old).context ≡ false }
        ensures { self.new ≡ apply_effect effect.Define self.old }
    {
        self.end_macro();
        self.context = Context::Definition(self.here);
    }

    /// `@h`: emits Defs, the place of the macro lines.
    pub fn insert_definitions(&mut self) -> Result<(), AllocError>
        requires { CanEmit 2 self.old }
        ensures { OnOk result (self.new ≡ apply_effect effect.InsertDefs self.old) }
    {
        self.emit(Token::Defs)?;
        self.emit(Token::Mark(self.here))
    }

    /// `@&`: emits a Join, and drops the layout before it.
    pub fn join(&mut self) -> Result<(), AllocError>
        requires { CanEmit 1 self.old }
        ensures { OnOk result (self.new ≡ apply_effect effect.Joins self.old) }
    {
        self.builder.drop_layout();
        self.directive = self.solid;
        self.emit(Token::Join)
    }

    /// `@l`: sets the transliteration of a byte in Words.
    pub fn set_letter(&mut self, byte: u8, text: &[u8]) -> Result<(), AllocError>
        requires { 128 ≤ byte }
        ensures { OnOk result (self.new ≡ after.set_letter byte (Some text.now) self.old) }
    {
        self.builder.transliterate(byte, text)
    }

    /// `@'`: emits the code of a character, in decimal.
    pub fn emit_constant(&mut self, value: u8) -> Result<(), AllocError>
        requires { CanEmit 1 self.old }
        ensures { OnOk result (self.new ≡ after.emit_constant (Some value) self.old) }
    {
        let mut digits = Buffer::new();
        self.emit(Token::Number(digits.format(value).as_bytes()))
    }

    /// Reports a control text that didn't end.
    pub fn pass_control_text(&mut self, how: End) -> Result<(), AllocError>
        ensures { OnOk result (self.new ≡ after.pass_control_text how self.old) }
    {
        match how {
            End::Cut => self.fault(ScanKind::ControlTextDidNotEnd, self.here),
            _ => Ok(()),
        }
    }

    /// `@=`: emits verbatim bytes.
    pub fn emit_verbatim(&mut self, text: &[u8], how: End) -> Result<(), AllocError>
        requires { CanEmit 1 self.old }
        ensures { OnOk result (self.new ≡ after.emit_verbatim text.now how self.old) }
    {
        match how {
            End::Closed => self.emit(Token::Verbatim(text)),
            End::Cut => self.fault(ScanKind::ControlTextDidNotEnd, self.here),
            _ => Ok(()),
        }
    }

    /// Reports a comment that didn't end.
    pub fn pass_comment(&mut self, how: End, begun: Place) -> Result<(), AllocError>
        ensures { OnOk result (self.new ≡ after.pass_comment how begun self.old) }
    {
        match how {
            End::Cut => self.fault(ScanKind::CommentDidNotEnd, begun),
            _ => Ok(()),
        }
    }

    /// Reports a name that didn't end at its closer.
    pub fn report_name_fault(&mut self, how: End, begun: Place) -> Result<(), AllocError>
        ensures { OnOk result (self.new ≡ after.report_name_fault how begun self.old) }
    {
        match how {
            End::Cut => self.fault(ScanKind::NameDidNotEnd, begun),
            End::Nested => self.fault(ScanKind::NamesDoNotNest, begun),
            _ => Ok(()),
        }
    }

    /// In C text a name is a use. A part opener after it is a fault.
    pub fn use_name(&mut self, name: NameRef, opens: bool, begun: Place) -> Result<(), AllocError>
        requires part { in_open_part self.old.context ≡ true }
        requires room { HasPartRoom self.old }
        ensures { OnOk result (self.new ≡ after.use_name name opens begun self.old) }
    {
        self.emit(Token::Name(name))?;
        self.emit(Token::Mark(self.here))?;
        if opens {
            self.fault(ScanKind::MissingAt, begun)?;
        }
        Ok(())
    }

    /// Outside C text a name with a part opener begins a part.
    pub fn open_name(&mut self, name: NameRef, opens: bool) -> Result<(), AllocError>
        requires closed { in_open_part (spec.end_macro self.old).context ≡ false }
        requires room { HasPartRoom (spec.end_macro self.old) }
        ensures { OnOk result (self.new ≡ after.open_name name opens self.old) }
    {
        self.end_macro();
        if opens {
            self.begin_part(PartKind::Named(name))?;
        }
        Ok(())
    }

    /// Emits a literal that began at `begun`.
    pub fn emit_literal(&mut self, text: &[u8], how: End, begun: Place) -> Result<(), AllocError>
        requires { CanEmit 1 self.old }
        ensures { OnOk result (self.new ≡ after.emit_literal text.now how begun self.old) }
    {
        match how {
            End::Closed => self.emit(Token::Literal(text)),
            End::Cut => {
                self.emit(Token::Literal(text))?;
                self.fault(ScanKind::StringDidNotEnd, begun)
            }
            _ => Ok(()),
        }
    }
}
