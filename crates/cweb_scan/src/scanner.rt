// The scanner's state, and the steps that many rules share.
ghost use Rattle.std.specs.Prelude.{◌≡◌, ◌<◌, ◌+◌, OnOk, OnErr, true, if◌then◌else◌};
ghost use Rattle.cweb_store.specs.Parts as layout;
ghost use Rattle.cweb_store.specs.surface.Tokens.{token_model};

pub mod codes;
pub mod effects;
pub mod further;
pub mod items;
pub mod line_ends;
pub mod literals;
pub mod names;
pub mod plain;
pub mod rule;
pub mod scanned;
pub mod sections;

use crate::directive::{Directive, Last, Stage};
use cweb_files::Place;
use cweb_rules::{Context, ScanFault, ScanKind};
use cweb_store::{Builder, Token};
use std::alloc::{AllocError, Global};
use std::marker::Model;

/// The result of the source so far, and the directive's state. `solid` is that state without the trailing layout.
pub struct Scanner {
    pub(crate) alloc: Global,
    pub(crate) context: Context,
    pub(crate) builder: Builder,
    pub(crate) faults: Vec<ScanFault>,
    pub(crate) sections: u32,
    pub(crate) starred: Vec<u32>,
    pub(crate) here: Place,
    pub(crate) folded: bool,
    pub(crate) directive: Directive,
    pub(crate) solid: Directive,
}

impl Drop for Scanner {
    fn drop(self) {
        let Self {
            alloc: _,
            context: _,
            builder: _,
            faults: _,
            sections: _,
            starred: _,
            here: _,
            folded: _,
            directive: _,
            solid: _,
        } = self;
    }
}

impl Model for Scanner {
    ghost use Rattle.std.specs.Prelude.{◌≡◌};
    ghost use Rattle.cweb_scan.specs.inner.ScanParts.{IsTied};
    ghost use Rattle.cweb_scan.specs.State.{ScanState};

    ghost Value = { ScanState };

    ghost view = { λ s.
        record {
          context = s.context;
          contents = s.builder.contents;
          faults = s.faults.items;
          sections = s.sections;
          starred = s.starred.items;
          here = s.here;
          folded = s.folded;
        } };

    ghost invariant = { λ s. IsTied s.directive s.solid s.context s.builder.contents.parts.current };
}

fn is_layout(token: Token<'_>) -> bool
    ensures { result ≡ layout.is_layout (token_model token.entry) }
{
    matches!(token, Token::Blank | Token::Newline | Token::Mark(_))
}

// The directive's state after a token, if the part's trailing layout were dropped.
fn solid_after(solid: Directive, next: Directive, token: Token<'_>) -> Directive
    ensures { result ≡ (if layout.is_layout (token_model token.entry) then solid else next) }
{
    if is_layout(token) { solid } else { next }
}

impl Scanner {
    ghost use Rattle.cweb_store.specs.surface.Tokens.{too_many, token_count};
    ghost use Rattle.cweb_scan.specs.Effects as after;
    ghost use Rattle.cweb_scan.specs.State.{in_directive, is_c, names_include, start_state, report_at, move_to};
    ghost use Rattle.cweb_scan.specs.inner.ScanParts.{in_open_part};
    ghost use Rattle.cweb_scan.specs.State as spec;

    /// The state at the start of a source.
    pub fn new(alloc: Global, here: Place) -> Scanner
        ensures { result ≡ start_state here }
    {
        Scanner {
            alloc,
            context: Context::Limbo,
            builder: Builder::new(alloc),
            faults: Vec::new(alloc),
            sections: 0,
            starred: Vec::new(alloc),
            here,
            folded: false,
            directive: Directive::new(),
            solid: Directive::new(),
        }
    }

    /// The current line.
    pub fn here(&self) -> Place
        ensures { result ≡ self.now.here }
    {
        self.here
    }

    /// The current context.
    pub fn context(&self) -> Context
        ensures { result ≡ self.now.context }
    {
        self.context
    }

    /// Adds a fault. A refused call changes nothing.
    pub fn fault(&mut self, kind: ScanKind, place: Place) -> Result<(), AllocError>
        ensures ok { OnOk result (self.new ≡ report_at kind place self.old) }
        ensures err { OnErr result (self.new ≡ self.old) }
    {
        self.faults.push(ScanFault { kind, place })?;
        Ok(())
    }

    /// Appends a token to the open part. A refused call changes nothing.
    #[inline(always)]
    pub fn emit(&mut self, token: Token<'_>) -> Result<(), AllocError>
        requires part { in_open_part self.old.context ≡ true }
        requires few { token_count self.old.contents.parts + 1 < too_many }
        ensures ok { OnOk result (self.new ≡ spec.emit (token_model token.entry) self.old) }
        ensures err { OnErr result (self.new ≡ self.old) }
    {
        self.builder.push(token)?;
        let next = self.directive.after_token(token);
        self.solid = solid_after(self.solid, next, token);
        self.directive = next;
        Ok(())
    }

    /// Moves to another line, and sets `folded`.
    pub fn go_to(&mut self, place: Place)
        ensures { self.new ≡ move_to place self.old }
    {
        self.here = place;
        self.folded = true;
    }

    /// Whether a directive is open.
    pub fn in_directive(&self) -> bool
        ensures { result ≡ in_directive self.now }
    {
        matches!(self.context, Context::CText) && !matches!(self.directive.stage, Stage::Outside)
    }

    /// Whether an included name may follow in the directive.
    pub fn names_include(&self) -> bool
        requires { is_c self.now.context ≡ true }
        ensures { result ≡ names_include self.now }
    {
        self.directive.names_include()
    }

    /// Blanks or a comment. In a directive they emit one Blank.
    pub fn blank(&mut self) -> Result<(), AllocError>
        requires { token_count self.old.contents.parts + 1 < too_many }
        ensures { OnOk result (self.new ≡ after.blank self.old) }
    {
        if self.in_directive() && !matches!(self.directive.last, Last::Blank) {
            self.emit(Token::Blank)?;
        }
        Ok(())
    }

    /// Emits a punctuator. A `#` may begin a directive.
    #[inline(always)]
    pub fn punctuator(&mut self, bytes: &[u8]) -> Result<(), AllocError>
        requires part { in_open_part self.old.context ≡ true }
        requires few { token_count self.old.contents.parts + 1 < too_many }
        ensures { OnOk result (self.new ≡ after.punctuator bytes.now self.old) }
    {
        let folded = self.in_directive() && self.folded;
        self.emit(Token::Punct(bytes))?;
        self.folded = folded;
        Ok(())
    }
}
