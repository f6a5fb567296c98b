// A sink of a client's own.
ghost use Rattle.std.specs.Prelude.{◌≡◌, [], None, Some};

use cweb_lines::{Sink, SinkFault};
use std::alloc::Global;

/// An observable sink. A write takes one byte.
#[derive(Drop)]
pub struct ByteSink {
    pub bytes: Vec<u8>,
    pub failed: u64,
}

impl ByteSink {
    /// A sink to which nothing was written.
    pub fn new(alloc: Global) -> Self
        ensures { result.failed ≡ 0 }
    {
        ByteSink {
            bytes: Vec::new(alloc),
            failed: 0,
        }
    }
}

impl Sink for ByteSink {
    ghost model = { λ sink. record {
      failed = sink.failed;
      contents = Some (record {
        bytes = sink.bytes.items;
        beside = record { files = []; draft = Some []; refused = None };
      });
    } };

    fn write(&mut self, piece: &[u8]) -> Result<usize, SinkFault> {
        let Some((first, _)) = piece.split_first() else {
            return Ok(0);
        };
        if self.bytes.push(*first).is_err() {
            self.failed += 1;
            return Err(SinkFault);
        }
        Ok(1)
    }

    fn failures(&self) -> u64 {
        self.failed
    }
}
