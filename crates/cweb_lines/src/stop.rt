// What ends a run early.
ghost use Rattle.std.specs.Prelude.{◌≡◌};
ghost use Rattle.cweb_lines.specs.declared.stop.Stop.TheVariants.{Memory};

use cweb_files::FileId;
use std::alloc::AllocError;
use thiserror::Error;

/// Why a run ended early. The tools print messages of their own.
#[derive(Clone, Copy, Debug, PartialEq, Eq, Error)]
pub enum Stop {
    #[error("the command line can't be read")]
    Usage,
    #[error("the web isn't there")]
    WebNotOpened,
    #[error("the change file isn't there")]
    ChangeNotOpened,
    #[error("a read of file {} failed", .0.0)]
    ReadFault(FileId),
    #[error("a line of file {} is too long", .0.0)]
    LineTooLong(FileId),
    #[error("more lines or bytes than may be taken")]
    TooMuchText,
    #[error("out of memory")]
    Memory,
    #[error("an output file could not be begun")]
    OutNotOpened,
    #[error("an output failed")]
    WriteFault,
    #[error("the log failed")]
    LogFault,
}

impl From<AllocError> for Stop {
    ghost from_gives = { λ _ e. e ≡ Memory };

    fn from(_: AllocError) -> Self {
        Stop::Memory
    }
}
