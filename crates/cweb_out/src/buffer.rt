// The output buffer in front of a sink.
ghost use Rattle.std.specs.Prelude.{◌≡◌, ◌≤◌, ◌<◌, ◌+◌, ◌^◌, ◌++◌, [], length, take, drop, IfOk};
ghost use Rattle.std.specs.Prelude.{IfErr, OnErr, OnOk};
ghost use Rattle.cweb_files.specs.surface.Writes.{Wrote};
ghost use Rattle.cweb_files.specs.Sinks.{failing, with_printed, written};
ghost use Rattle.cweb_out.specs.inner.BufferedPrinting.{FlushesPrefix};

pub mod copying;

use crate::buffer::copying::put_slice;
use crate::chunks::ChunkSink;
use cweb_files::{Sink, SinkFault, write_all};
use std::alloc::{AllocError, Global};
use std::boxed::BoxedSlice;
use std::marker::Model;

/// The size of the buffer. A sink that buffers 65,536 bytes itself writes a full buffer without a copy.
pub const ROOM: usize = 65_792;

/// Printed bytes that no sink has yet. The buffer is allocated once and cannot grow.
#[derive(Drop)]
pub struct OutBuffer {
    /// ROOM bytes, whose first `used` ones are buffered.
    pub bytes: BoxedSlice<u8>,
    /// The number of buffered bytes. Code that writes after them adds to it.
    pub used: usize,
}

impl Model for OutBuffer {
    ghost use Rattle.std.specs.Prelude.{◌≡◌, ◌≤◌, length, take};
    ghost use Rattle.std.specs.Box.{boxed_slice_items};
    ghost use Rattle.cweb_out.specs.inner.BufferedPrinting.{Buffered};
    ghost use Rattle.cweb_out.specs.declared.buffer.TheConstants.{ROOM};

    ghost Value = { Buffered };

    ghost view = { λ g.
        record { bytes = take g.used (boxed_slice_items g.bytes) } };

    ghost invariant = { λ g. (length (boxed_slice_items g.bytes) ≡ ROOM) × (g.used ≤ ROOM) };
}

impl OutBuffer {
    /// An empty buffer.
    pub fn new(alloc: Global) -> Result<OutBuffer, AllocError>
        ensures { IfOk result (λ buffer. buffer.bytes ≡ []) }
    {
        Ok(OutBuffer {
            bytes: Vec::from_elem(alloc, 0, ROOM)?.into_boxed_slice(),
            used: 0,
        })
    }

    /// Empties the buffer.
    pub fn clear(&mut self)
        ensures { self.new.bytes ≡ [] }
    {
        self.used = 0;
    }

    /// Appends bytes. If they don't fit, the buffer is filled and flushed first. What is longer than the buffer after
    /// that goes to the sink at once. After a fault, a prefix of the bytes is appended or written.
    #[inline(always)]
    pub fn append<W: Sink>(&mut self, piece: &[u8], out: &mut W) -> Result<(), SinkFault>
        requires { (W.model out.old).failed + 1 < 2 ^ 64 }
        ensures { Wrote piece.now (written self.old.bytes (W.model out.old))
            (written self.new.bytes (W.model out.new)) result }
    {
        if self.used + piece.len() > ROOM {
            return self.append_full(piece, out);
        }
        self.push(piece);
        Ok(())
    }

    // Appends bytes that don't fit.
    #[cold]
    #[inline(never)]
    fn append_full<W: Sink>(&mut self, piece: &[u8], out: &mut W) -> Result<(), SinkFault>
        requires count { (W.model out.old).failed + 1 < 2 ^ 64 }
        requires full { ROOM < length self.old.bytes + length piece.now }
        ensures { Wrote piece.now (written self.old.bytes (W.model out.old))
            (written self.new.bytes (W.model out.new)) result }
    {
        let (first, rest) = piece.split_at(ROOM - self.used);
        self.push(first);
        self.flush(out)?;
        if rest.len() > ROOM {
            return write_all(out, rest);
        }
        self.push(rest);
        Ok(())
    }

    // Appends bytes that fit.
    #[inline(always)]
    fn push(&mut self, piece: &[u8])
        requires { length self.old.bytes + length piece.now ≤ ROOM }
        ensures { self.new.bytes ≡ self.old.bytes ++ piece.now }
    {
        self.used = put_slice(self.bytes.as_mut_slice(), self.used, piece);
    }

    /// Writes the buffered bytes to a sink. After a fault, the bytes that weren't written stay buffered.
    pub fn flush<W: Sink>(&mut self, out: &mut W) -> Result<(), SinkFault>
        requires { (W.model out.old).failed + 1 < 2 ^ 64 }
        ensures moved { OnOk result
            (W.model out.new ≡ written self.old.bytes (W.model out.old)) }
        ensures empty { OnOk result (self.new.bytes ≡ []) }
        ensures err { OnErr result
            (FlushesPrefix self.old.bytes self.new.bytes (W.model out.old) (W.model out.new)) }
    {
        match write_counted(out, &self.bytes[..self.used]) {
            Ok(()) => {
                self.clear();
                Ok(())
            }
            Err(taken) => {
                self.drop_first(taken);
                Err(SinkFault)
            }
        }
    }

    // Removes the first bytes.
    fn drop_first(&mut self, count: usize)
        requires { count ≤ length self.old.bytes }
        ensures { self.new.bytes ≡ drop count self.old.bytes }
    {
        self.bytes.rotate_left(count);
        self.used -= count;
    }
}

/// A sink behind a buffer, as one sink. It has written what the sink has, followed by the buffered bytes.
#[derive(Drop)]
pub(crate) struct BufferedSink<'b, W: Sink> {
    pub buffer: &'b mut OutBuffer,
    pub sink: &'b mut W,
}

impl<W: Sink> ChunkSink for BufferedSink<'_, W> {
    ghost use Rattle.std.specs.Prelude.{◌∷◌, []};

    ghost model = { λ s. written s.buffer.now.bytes (W.model s.sink.now) };

    ghost borrows = { λ s. s.buffer.ghost_name ∷ s.sink.ghost_name ∷ [] };

    #[inline(always)]
    fn put(&mut self, piece: &[u8]) -> Result<(), SinkFault> {
        self.buffer.append(piece, self.sink)
    }
}

// Writes bytes. The error is the number of bytes that were written.
fn write_counted<W: Sink>(out: &mut W, bytes: &[u8]) -> Result<(), usize>
    requires { (W.model out.old).failed + 1 < 2 ^ 64 }
    ensures ok { OnOk result (W.model out.new ≡ written bytes.now (W.model out.old)) }
    ensures within { IfErr result (λ taken. taken ≤ length bytes.now) }
    ensures err { IfErr result (λ taken.
        W.model out.new ≡ failing (with_printed (take taken bytes.now)) (W.model out.old)) }
{
    let mut taken = 0;
    'pieces: while taken < bytes.len() {
        match out.write(&bytes[taken..]) {
            Ok(n) => taken += n,
            Err(_) => return Err(taken),
        }
    }
    Ok(())
}
