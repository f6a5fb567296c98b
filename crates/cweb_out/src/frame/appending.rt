// Fast path of a frame: prints runs of direct tokens.
ghost use Rattle.std.specs.Prelude.{◌≡◌, ◌≢◌, ◌∷◌, [], None, IfSome, true, false};
ghost use Rattle.cweb_store.specs.Parts.{Name};
ghost use Rattle.cweb_out.specs.surface.FrameStacks.{FrameIsWithin, suffix};
ghost use Rattle.cweb_out.specs.inner.FrameStacks.{KeepsFrame, PrintsFrame};

use crate::frame::Frame;
use crate::{OutBuffer, Printer};
use cweb_store::{NameRef, Store, Token};

impl<'a> Frame<'a> {
    /// Prints tokens up to one that isn't direct or doesn't fit. Returns whether the list has ended.
    pub(crate) fn append(
        &mut self,
        store: &'a Store,
        printer: &mut Printer<'_>,
        buffer: &mut OutBuffer,
    ) -> bool
        requires { FrameIsWithin store.now self.old }
        ensures prints { PrintsFrame store.now
            self.old self.new printer.old printer.new buffer.old.bytes buffer.new.bytes }
        ensures ended { result ≡ true → suffix store.now self.new ≡ [] }
        ensures goes_on { result ≡ false → suffix store.now self.new ≢ [] }
    {
        if self.defs {
            return false;
        }
        'parts: loop {
            self.append_part(store, printer, buffer);
            if self.part.first < self.part.after {
                return false;
            }
            let Some(part) = self.rest.next() else {
                return true;
            };
            self.part = part;
        }
    }

    // Prints those of the part.
    fn append_part(&mut self, store: &Store, printer: &mut Printer<'_>, buffer: &mut OutBuffer)
        requires started { self.old.defs ≡ false }
        requires within { FrameIsWithin store.now self.old }
        ensures started { self.new.defs ≡ false }
        ensures rest { self.new.rest ≡ self.old.rest }
        ensures prints { PrintsFrame store.now
            self.old self.new printer.old printer.new buffer.old.bytes buffer.new.bytes }
    {
        if self.part.first < self.part.after {
            self.part.first = printer.append_range(store, self.part, buffer);
        }
    }

    /// Takes the next token of the part if it is a use of a name, else nothing.
    pub(crate) fn take_name(&mut self, store: &Store) -> Option<NameRef>
        requires { FrameIsWithin store.now self.old }
        ensures keeps { KeepsFrame store.now self.old self.new }
        ensures some { IfSome result
            (λ name. suffix store.now self.old ≡ Name name ∷ suffix store.now self.new) }
        ensures none { result ≡ None → self.new ≡ self.old }
    {
        if self.defs || self.part.first >= self.part.after {
            return None;
        }
        let Token::Name(name) = store.token(self.part.first) else {
            return None;
        };
        self.part.first += 1;
        Some(name)
    }
}
