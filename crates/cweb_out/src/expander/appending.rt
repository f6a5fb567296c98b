// Fast path of an expander: prints runs of direct tokens.
ghost use Rattle.std.specs.Prelude.{◌≡◌};
ghost use Rattle.cweb_out.specs.surface.FrameStacks.{IsReady, left};
ghost use Rattle.cweb_out.specs.inner.BufferedPrinting.{PrintsPrefix};
ghost use Rattle.cweb_out.specs.surface.Printed.{setting_of};

use crate::{Expander, OutBuffer, Printer};

impl<'a> Expander<'a> {
    /// Prints the next tokens into the buffer, up to one that isn't direct or doesn't fit. No allocation.
    pub fn append(&mut self, printer: &mut Printer<'_>, buffer: &mut OutBuffer)
        requires { IsReady self.old }
        ensures valid { IsReady self.new }
        ensures store { self.new.store ≡ self.old.store }
        ensures plan { self.new.plan ≡ self.old.plan }
        ensures setting { setting_of printer.new ≡ setting_of printer.old }
        ensures prints { PrintsPrefix printer.old printer.new
            (left self.old.store.now self.old.frames.items)
            (left self.old.store.now self.new.frames.items) buffer.old.bytes buffer.new.bytes }
    {
        let store = self.store;
        'frames: while let Some(frame) = self.frames.last_mut() {
            if frame.append(store, printer, buffer) {
                self.frames.pop();
                continue;
            }
            let Some(name) = frame.take_name(store) else {
                break;
            };
            self.enter(name);
        }
    }
}
