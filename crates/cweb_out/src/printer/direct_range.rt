// Prints stored tokens in one loop, as long as they are direct.
ghost use Rattle.std.specs.Prelude.{◌≤◌, ◌≡◌, false, length, slice_range, take};
ghost use Rattle.cweb_store.specs.Parts.{all_tokens};
ghost use Rattle.cweb_out.specs.declared.buffer.TheConstants.{ROOM};
ghost use Rattle.cweb_out.specs.inner.Edges.{left_after_edge, AreDirect};
ghost use Rattle.cweb_out.specs.inner.BufferedPrinting.{MovesBy, PrintsBy};
ghost use Rattle.cweb_out.specs.surface.Printed.{left_in_printer, setting_of};

use crate::buffer::copying::put_if_fits;
use crate::printer::edges::edge_is_apart;
use crate::printer::left::Left;
use crate::{OutBuffer, Printer};
use cweb_store::{Edge, Part, Store};

// The progress in a range: the next token, the edge of the last one, and the number of used bytes.
#[derive(Clone, Copy)]
struct Reached {
    number: u32,
    last: Edge,
    used: usize,
}

impl<'a> Printer<'a> {
    /// Prints a range's tokens up to one that isn't direct or doesn't fit. Returns its index. Prints none after a join.
    // Inlined into a run, its loop would have fewer registers.
    #[inline(never)]
    pub fn append_range(&mut self, store: &Store, part: Part, buffer: &mut OutBuffer) -> u32
        requires ordered { part.first ≤ part.after }
        requires within { part.after ≤ length (all_tokens store.now.parts) }
        ensures from { part.first ≤ result }
        ensures upto { result ≤ part.after }
        ensures setting { setting_of self.new ≡ setting_of self.old }
        ensures direct { AreDirect (slice_range (all_tokens store.now.parts) part.first result) }
        ensures moves { MovesBy (left_in_printer self.old)
            (slice_range (all_tokens store.now.parts) part.first result)
            (left_in_printer self.new) }
        ensures prints { PrintsBy self.old
            (slice_range (all_tokens store.now.parts) part.first result)
            buffer.old.bytes buffer.new.bytes }
    {
        if self.left.joined {
            return part.first;
        }
        let reached = self.put_range(store, part, buffer.bytes.as_mut_slice(), buffer.used);
        buffer.used = reached.used;
        self.left = Left {
            last: reached.last,
            joined: false,
        };
        reached.number
    }

    // Puts a range's tokens that fit. The loop reads locals only, so that the writes to `bytes` force no reloads.
    #[inline(always)]
    fn put_range(&self, store: &Store, part: Part, bytes: &mut [u8], used: usize) -> Reached
        requires open { (left_in_printer self.now).joined ≡ false }
        requires ordered { part.first ≤ part.after }
        requires within { part.after ≤ length (all_tokens store.now.parts) }
        requires room { (length bytes.old ≡ ROOM) × (used ≤ ROOM) }
        ensures from { part.first ≤ result.number }
        ensures upto { result.number ≤ part.after }
        ensures room { (length bytes.new ≡ ROOM) × (result.used ≤ ROOM) }
        ensures direct { AreDirect
            (slice_range (all_tokens store.now.parts) part.first result.number) }
        ensures moves { MovesBy (left_in_printer self.now)
            (slice_range (all_tokens store.now.parts) part.first result.number)
            (left_after_edge result.last) }
        ensures prints { PrintsBy self.now
            (slice_range (all_tokens store.now.parts) part.first result.number)
            (take used bytes.old) (take result.used bytes.new) }
    {
        let token_reader = store.token_reader();
        let mut reached = Reached {
            number: part.first,
            last: self.left.last,
            used,
        };
        'tokens: while reached.number < part.after {
            let Some(direct) = token_reader.direct(reached.number) else {
                break;
            };
            let is_apart = edge_is_apart(reached.last, direct.edge);
            let Some(used) = put_if_fits(bytes, reached.used, is_apart, direct.string) else {
                break;
            };
            reached = Reached {
                number: reached.number + 1,
                last: direct.edge,
                used,
            };
        }
        reached
    }
}
