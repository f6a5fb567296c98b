// The trait of a device that stores named files.
ghost use Rattle.std.specs.Prelude.{◌≡◌, ◌<◌, ◌+◌, ◌^◌, IfErr, OnOk, OnErr};
ghost use Rattle.cweb_files.specs.Bins.{refused};
ghost use Rattle.cweb_files.specs.Sinks.{HasDraft, changed, committed, failing, with_draft, without_draft};

pub mod memory;

use crate::device::Sink;
use thiserror::Error;

/// Why a file could not be begun or committed.
#[derive(Clone, Copy, Debug, PartialEq, Eq, Error)]
pub enum BinFault {
    #[error("out of memory")]
    Memory,
    #[error("the device failed")]
    Device,
}

/// A device that stores files under names, and at most one draft of a file.
///
/// The bytes that it has written as a `Sink` are those of the draft. Writes go to the draft, and `commit_file` replaces
/// the file. So a file is either the old or the whole new one. Each `BinFault::Device` raises the failure count by one,
/// as a `SinkFault` does.
pub trait Bins: Sink {
    /// Begins an empty draft and discards an open one. The files are unchanged. After a fault there is no draft, and
    /// the device records why, until the next call succeeds.
    fn start_file(&mut self, name: &str) -> Result<(), BinFault>
        requires { (Self.model self.old).failed + 1 < 2 ^ 64 }
        ensures begun { OnOk result
            (Self.model self.new ≡ changed (with_draft name.now) (Self.model self.old)) }
        ensures err { IfErr result
            (λ fault. Self.model self.new ≡ refused fault (Self.model self.old)) };

    /// Appends the draft to the files and removes an earlier file of its name. It fails without a draft. After a fault
    /// the files are unchanged. In any case no draft remains. It allocates nothing, so its fault is never `Memory`.
    fn commit_file(&mut self) -> Result<(), BinFault>
        requires { (Self.model self.old).failed + 1 < 2 ^ 64 }
        ensures device { IfErr result (λ fault. fault ≡ BinFault.Device) }
        ensures begun { OnOk result (HasDraft (Self.model self.old)) }
        ensures ok { OnOk result (Self.model self.new ≡ changed committed (Self.model self.old)) }
        ensures err { OnErr result
            (Self.model self.new ≡ failing without_draft (Self.model self.old)) };

    /// Discards the draft, if there is one. It allocates nothing.
    fn abandon_file(&mut self)
        ensures gone { Self.model self.new ≡ changed without_draft (Self.model self.old) };
}
