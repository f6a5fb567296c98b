// The files of the system as a file system. Their state isn't observable in contracts.
ghost use Rattle.std.specs.Prelude.{◌≡◌, ◌≤◌, ◌%◌, [], None, length, IfOk};
ghost use Rattle.std.specs.Io.KnownBytes.{ReadConsumes};
ghost use Rattle.cweb_system.specs.inner.StreamCalls.{WritesPart};

use crate::streams::{read_once, write_once};
use crate::{FileFault, FileKey, FileSystem, Node};
use std::alloc::Global;
use std::fs::{File, Metadata, OpenFile, OpenOptions, Permissions};
use std::io::{Error, ErrorKind};
use std::os::fd::AsRawFd;
use std::os::unix::fs::{MetadataExt, OpenOptionsExt, PermissionsExt};
use std::rt::Files;
use std::{fs, io};

/// The permission bits of a file. The bits above (setuid, setgid, sticky) aren't preserved.
const PERMISSIONS: u32 = 0o777;

/// The descriptor of standard error, the last standard stream.
const LAST_STREAM: i32 = 2;

/// A folder that can be opened for reading on every system.
const ROOT: &str = "/";

/// An open file that can be locked, and whose descriptor is known.
pub trait LockableFile {
    /// Waits for the file's lock, which is held until this opening is closed. Fails if the system has no such locks.
    fn lock(&self) -> io::Result<()>;

    /// Whether it has the descriptor of a standard stream, which must have been closed.
    fn is_stream(&self) -> bool;
}

impl LockableFile for File {
    /// Over a network an exclusive lock may require a file open for writing. A shared lock suffices to wait.
    fn lock(&self) -> io::Result<()> {
        match File::lock(self) {
            Ok(()) => Ok(()),
            Err(_) => self.lock_shared(),
        }
    }

    fn is_stream(&self) -> bool {
        self.as_raw_fd() <= LAST_STREAM
    }
}

/// The files of the system.
#[derive(Drop)]
pub struct StdFolder<R: Files + Drop> {
    alloc: Global,
    files: R,
    /// Read-only files on the descriptors of closed standard streams, so that no draft gets one. Writing to them fails.
    streams: [Option<R::File>; 3],
}

impl<R: Files + Drop> StdFolder<R> {
    /// A file system to read from.
    pub fn new(alloc: Global, files: R) -> Self {
        StdFolder {
            alloc,
            files,
            streams: [None, None, None],
        }
    }
}

impl<R: Files<File: LockableFile> + Drop> StdFolder<R> {
    /// A file system to write to. Call it before any other file is opened.
    pub fn with_streams(alloc: Global, files: R) -> Self {
        let streams = [
            fill_closed_stream(&files),
            fill_closed_stream(&files),
            fill_closed_stream(&files),
        ];
        StdFolder {
            alloc,
            files,
            streams,
        }
    }
}

impl<R: Files + Drop> StdFolder<R> {
    /// Why a link that leads nowhere may not be replaced, if so. Where /proc isn't mounted, the links to the standard
    /// streams lead nowhere.
    fn fault_of_link(&self, path: &str) -> Option<FileFault> {
        match self.files.read_link(self.alloc, path) {
            Ok(target) if is_of_system(target.as_str()) => Some(FileFault::Other),
            Ok(_) => None,
            Err(error) => match FileFault::from(error) {
                FileFault::Memory => Some(FileFault::Memory),
                _ => None,
            },
        }
    }
}

/// Whether a path is below a folder of the system.
fn is_of_system(path: &str) -> bool {
    path.starts_with("/proc/") || path.starts_with("/dev/")
}

/// Opens a file on the descriptor of a closed standard stream, if there is one.
fn fill_closed_stream<R: Files<File: LockableFile>>(files: &R) -> Option<R::File> {
    match fs::open(files, ROOT) {
        Ok(folder) if folder.is_stream() => Some(folder),
        _ => None,
    }
}

fn key_of(found: &Metadata) -> FileKey {
    FileKey {
        device: found.dev(),
        number: found.ino(),
    }
}

impl From<Error> for FileFault {
    fn from(error: Error) -> Self {
        match error.kind() {
            ErrorKind::OutOfMemory => FileFault::Memory,
            ErrorKind::NotFound => FileFault::NotFound,
            ErrorKind::PermissionDenied => FileFault::Denied,
            _ => FileFault::Other,
        }
    }
}

/// The nine permission bits of a mode.
fn permissions(mode: u32) -> u32
    ensures { result ≡ mode % 512 }
{
    mode & PERMISSIONS
}

fn node_of(found: &Metadata) -> Node {
    let key = key_of(found);
    if found.is_file() {
        Node::File(key, permissions(found.mode()))
    } else if found.is_dir() {
        Node::Folder(key)
    } else {
        Node::Device(key)
    }
}

impl<R: Files<File: LockableFile> + Drop> FileSystem for StdFolder<R> {
    type File = R::File;

    ghost disk = { None };

    ghost key = { λ _. record { device = 0; number = 0 } };

    ghost opened_as = { λ _. [] };

    ghost position = { λ _. 0 };

    /// Nothing is below a regular file.
    fn look(&self, path: &str) -> Option<Node> {
        match fs::symlink_metadata(&self.files, path) {
            Ok(found) if found.is_symlink() => Some(Node::Link),
            Ok(found) => Some(node_of(&found)),
            Err(error) => match error.kind() {
                ErrorKind::NotFound | ErrorKind::NotADirectory => None,
                _ => Some(Node::Unknown(FileFault::from(error))),
            },
        }
    }

    fn follow(&self, path: &str) -> Option<Node> {
        match fs::metadata(&self.files, path) {
            Ok(found) => Some(node_of(&found)),
            Err(_) => self.fault_of_link(path).map(Node::Unknown),
        }
    }

    fn key_of(&self, file: &R::File) -> Result<FileKey, FileFault> {
        Ok(key_of(&file.metadata()?))
    }

    fn lock(&self, file: &R::File) -> Result<(), FileFault> {
        Ok(file.lock()?)
    }

    fn open(&self, path: &str) -> Result<R::File, FileFault> {
        Ok(fs::open(&self.files, path)?)
    }

    /// The bytes come from the file in order; none is lost or added.
    fn read(&self, file: &mut R::File, piece: &mut [u8]) -> Result<usize, FileFault>
        ensures within { IfOk result (λ n. n ≤ length piece.new) }
        ensures passes { ReadConsumes (R.File.remaining file.old) (R.File.remaining file.new)
            result piece.new }
    {
        match read_once(file, piece) {
            Ok(n) => Ok(n),
            Err(_) => Err(FileFault::Other),
        }
    }

    fn open_device(&self, path: &str) -> Result<R::File, FileFault> {
        Ok(OpenOptions::new().write(true).open(&self.files, path)?)
    }

    fn create(&mut self, path: &str, mode: Option<u32>) -> Result<Option<R::File>, FileFault> {
        let mut how = OpenOptions::new();
        how.write(true).create_new(true);
        if let Some(mode) = mode {
            how.mode(mode);
        }
        match how.open(&self.files, path) {
            Ok(file) => Ok(Some(file)),
            Err(error) => match error.kind() {
                ErrorKind::AlreadyExists => Ok(None),
                _ => Err(FileFault::from(error)),
            },
        }
    }

    /// The bytes go to the file in order; none is lost or added.
    fn write(&mut self, file: &mut R::File, piece: &[u8]) -> Result<usize, FileFault>
        ensures passes { WritesPart (R.File.contents file.old) (R.File.contents file.new)
            piece.now result }
    {
        match write_once(file, piece) {
            Ok(n) => Ok(n),
            Err(_) => Err(FileFault::Other),
        }
    }

    fn set_mode(&mut self, file: &R::File, mode: u32) -> Result<(), FileFault> {
        Ok(file.set_permissions(Permissions::from_mode(mode))?)
    }

    fn rename(&mut self, from: &str, to: &str) -> Result<(), FileFault> {
        Ok(fs::rename(&self.files, from, to)?)
    }

    fn remove(&mut self, path: &str) -> Result<(), FileFault> {
        Ok(fs::remove_file(&self.files, path)?)
    }
}
