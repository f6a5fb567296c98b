// Writes of whole slices.
ghost use Rattle.std.specs.Prelude.{◌<◌, ◌+◌, ◌^◌, OnErr, length};
ghost use Rattle.cweb_files.specs.surface.Writes.{Wrote};

use crate::device::{Sink, SinkFault};

/// Writes all bytes in as many calls of `write` as it takes. After a fault a prefix of them is written.
pub fn write_all<W: Sink>(out: &mut W, bytes: &[u8]) -> Result<(), SinkFault>
    requires { (W.model out.old).failed + 1 < 2 ^ 64 }
    ensures wrote { Wrote bytes.now (W.model out.old) (W.model out.new) result }
    ensures some { OnErr result (0 < length bytes.now) }
{
    let mut at = 0;
    'pieces: while at < bytes.len() {
        match out.write(&bytes[at..]) {
            Ok(n) => at += n,
            Err(fault) => return Err(fault),
        }
    }
    Ok(())
}
