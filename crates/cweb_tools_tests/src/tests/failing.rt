// Bins in memory that fail once, at a chosen call.
ghost use Rattle.std.specs.Prelude.{None};

use cweb_lines::{Sink, SinkFault};
use cweb_out::{BinFault, Bins, MemoryBins};

/// Fails once, after this many successful calls that begin, write and commit.
#[derive(Drop)]
pub struct FailingBins {
    pub bins: MemoryBins,
    pub good: u64,
    pub failed: u64,
}

impl FailingBins {
    /// Bins that don't fail until they are set to.
    pub fn new(bins: MemoryBins) -> Self {
        FailingBins {
            bins,
            good: u64::MAX,
            failed: 0,
        }
    }
}

impl Sink for FailingBins {
    ghost model = { λ bins. record { failed = bins.failed; contents = None } };

    fn write(&mut self, piece: &[u8]) -> Result<usize, SinkFault> {
        if (self.good == 0 && self.failed == 0) || self.bins.failures() > 0 {
            self.failed += 1;
            return Err(SinkFault);
        }
        self.good = self.good.saturating_sub(1);
        match self.bins.write(piece) {
            Ok(n) => Ok(n),
            Err(fault) => {
                self.failed += 1;
                Err(fault)
            }
        }
    }

    fn failures(&self) -> u64 {
        self.failed
    }
}

impl Bins for FailingBins {
    fn start_file(&mut self, name: &str) -> Result<(), BinFault> {
        if (self.good == 0 && self.failed == 0) || self.bins.failures() > 0 {
            self.failed += 1;
            return Err(BinFault::Device);
        }
        self.good = self.good.saturating_sub(1);
        match self.bins.start_file(name) {
            Ok(()) => Ok(()),
            Err(_) => Err(BinFault::Memory),
        }
    }

    fn commit_file(&mut self) -> Result<(), BinFault> {
        if (self.good == 0 && self.failed == 0) || self.bins.failures() > 0 {
            self.failed += 1;
            self.bins.abandon_file();
            return Err(BinFault::Device);
        }
        self.good = self.good.saturating_sub(1);
        match self.bins.commit_file() {
            Ok(()) => Ok(()),
            Err(_) => {
                self.failed += 1;
                Err(BinFault::Device)
            }
        }
    }

    fn abandon_file(&mut self) {
        self.bins.abandon_file()
    }
}
