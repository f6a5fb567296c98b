// A sink in memory whose n-th write fails.
ghost use Rattle.std.specs.Prelude.{◌≡◌, IfOk, None};

use cweb_files::{Sink, SinkFault};
use std::alloc::{AllocError, Global};

/// A sink in memory with limited writes, one of which may fail. A write also fails if memory is refused.
#[derive(Drop)]
pub struct TrialSink {
    pub bytes: Vec<u8>,
    /// The maximum number of bytes of a write.
    pub most: usize,
    pub writes: u64,
    /// The number of the write that fails, from 1. With 0 none fails.
    pub fails_at: u64,
    pub failed: u64,
}

impl TrialSink {
    /// A sink without a limit and a failure.
    pub fn new(alloc: Global) -> Self
        ensures { result.failed ≡ 0 }
    {
        TrialSink {
            bytes: Vec::new(alloc),
            most: usize::MAX,
            writes: 0,
            fails_at: 0,
            failed: 0,
        }
    }

    /// A sink with room for `bytes` bytes.
    pub fn with_room(alloc: Global, bytes: usize) -> Result<Self, AllocError>
        ensures { IfOk result (λ sink. sink.failed ≡ 0) }
    {
        let mut sink = TrialSink::new(alloc);
        sink.bytes = Vec::with_capacity(alloc, bytes)?;
        Ok(sink)
    }

    /// A sink with room for `bytes` bytes that writes at most two bytes at once, and fails once after `good` writes.
    pub fn failing_after(alloc: Global, bytes: usize, good: u64) -> Result<Self, AllocError>
        ensures { IfOk result (λ sink. sink.failed ≡ 0) }
    {
        let mut sink = TrialSink::with_room(alloc, bytes)?;
        sink.most = 2;
        sink.fails_at = good.saturating_add(1);
        Ok(sink)
    }

    /// All bytes written so far.
    pub fn bytes(&self) -> &[u8] {
        self.bytes.as_slice()
    }
}

impl Sink for TrialSink {
    ghost model = { λ sink. record { failed = sink.failed; contents = None } };

    fn write(&mut self, piece: &[u8]) -> Result<usize, SinkFault> {
        self.writes = self.writes.saturating_add(1);
        let n = piece.len().min(self.most.max(1));
        if self.writes == self.fails_at || self.bytes.extend_from_slice(&piece[..n]).is_err() {
            self.failed += 1;
            return Err(SinkFault);
        }
        Ok(n)
    }

    fn failures(&self) -> u64 {
        self.failed
    }
}
