// What lies under a path.
ghost use Rattle.std.specs.Prelude.{◌≡◌};
ghost use Rattle.cweb_system.specs.declared.node.FileFault.TheVariants.{Memory};

use std::alloc::AllocError;

/// The identity of a file: its device and inode number. It is the same under all names of the file.
#[derive(Clone, Copy, PartialEq, Eq, PartialOrd, Ord)]
pub struct FileKey {
    pub device: u64,
    pub number: u64,
}

/// What lies under a path.
#[derive(Clone, Copy)]
pub enum Node {
    /// A regular file and its nine permission bits.
    File(FileKey, u32),
    Link,
    Folder(FileKey),
    /// A device, a FIFO or a socket.
    Device(FileKey),
    /// It can't be looked up, and this is why.
    Unknown(FileFault),
}

/// Why a call failed.
#[derive(Clone, Copy, Debug, PartialEq, Eq)]
pub enum FileFault {
    Memory,
    NotFound,
    Denied,
    Other,
}

impl From<AllocError> for FileFault {
    ghost from_gives = { λ _ fault. fault ≡ Memory };

    fn from(_: AllocError) -> Self {
        FileFault::Memory
    }
}
