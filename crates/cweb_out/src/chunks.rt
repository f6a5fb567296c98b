// Writes byte chunks in order.
ghost use Rattle.std.specs.Prelude.{◌≡◌, ◌<◌, ◌+◌, ◌^◌, ◌++◌, ◌∷◌, [], ℕ, List};
ghost use Rattle.cweb_files.specs.Sinks.{SinkModel};
ghost use Rattle.cweb_files.specs.surface.Writes.{Wrote};
ghost use Rattle.cweb_out.specs.inner.BufferedPrinting.{blank_where};

use cweb_files::{Sink, SinkFault, write_all};

/// What chunks are written to: a sink, or a sink behind a buffer.
pub(crate) trait ChunkSink {
    /// The sink with all that was written, be it buffered or not.
    ghost model: { Self → SinkModel };

    /// The names of the references that it holds. A function that lends them knows by this that they come back.
    ghost borrows: { Self → List ℕ };

    /// Writes a whole chunk. After a fault, a prefix of it is written.
    fn put(&mut self, piece: &[u8]) -> Result<(), SinkFault>
        requires { (model self.old).failed + 1 < 2 ^ 64 }
        ensures wrote { Wrote piece.now (model self.old) (model self.new) result }
        ensures borrows { borrows self.new ≡ borrows self.old };
}

impl<W: Sink> ChunkSink for &mut W {
    ghost model = { λ out. W.model out.now };

    ghost borrows = { λ out. out.ghost_name ∷ [] };

    fn put(&mut self, piece: &[u8]) -> Result<(), SinkFault> {
        write_all(&mut **self, piece)
    }
}

/// Writes a blank, if one is wanted.
#[inline(always)]
pub(crate) fn write_blank<W: ChunkSink>(out: &mut W, is_wanted: bool) -> Result<(), SinkFault>
    requires { (W.model out.old).failed + 1 < 2 ^ 64 }
    ensures wrote { Wrote (blank_where is_wanted) (W.model out.old) (W.model out.new) result }
    ensures borrows { W.borrows out.new ≡ W.borrows out.old }
{
    if is_wanted { out.put(b" ") } else { Ok(()) }
}

/// Writes three chunks in order. After a fault, a prefix of them is written.
#[inline(always)]
pub(crate) fn write_three<W: ChunkSink>(
    out: &mut W,
    first: &[u8],
    second: &[u8],
    third: &[u8],
) -> Result<(), SinkFault>
    requires { (W.model out.old).failed + 1 < 2 ^ 64 }
    ensures wrote { Wrote (first.now ++ (second.now ++ third.now))
        (W.model out.old) (W.model out.new) result }
    ensures borrows { W.borrows out.new ≡ W.borrows out.old }
{
    out.put(first)?;
    out.put(second)?;
    out.put(third)
}
