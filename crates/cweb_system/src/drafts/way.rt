// How an output is written.
ghost use Rattle.std.specs.Prelude.{◌≡◌, Contains, Some, Ok, IsErr};
ghost use Rattle.cweb_system.specs.declared.node.FileKey.{FileKey};
ghost use Rattle.cweb_system.specs.Steps.{keys_in, OnDisk};
ghost use Rattle.cweb_system.specs.Tree.{IsFile, at};
ghost use Rattle.cweb_system.specs.inner.Drafts.{IsReplaceable};
ghost use Rattle.cweb_system.specs.inner.Written.{HasFiles};

use crate::file_set::FileSet;
use crate::run_files::RunFiles;
use crate::{FileFault, FileKey, FileSystem, Node};

/// The owner may always read and write a draft.
const OWNERS: u32 = 0o600;

/// The system's links to the standard streams.
const STREAMS: [&str; 3] = ["/proc/self/fd/0", "/proc/self/fd/1", "/proc/self/fd/2"];

/// How an output is written.
pub enum Way {
    /// To a draft. If it replaces a file, the draft is created with these permissions.
    Draft(Option<u32>),
    Device(FileKey),
}

/// How an output of this name is written. A folder, or a file that was read or written under another name, is refused.
pub fn way_to<F: FileSystem>(fs: &F, name: &str, files: &RunFiles) -> Result<Way, FileFault>
    requires { HasFiles F.disk fs.now files.now.written.items }
    ensures read { OnDisk F.disk (λ see. (key : FileKey) →
        IsFile key (at (see fs.now).tree name.now) →
        Contains (keys_in files.now.read) key → IsErr result) }
    ensures free { OnDisk F.disk (λ see.
        IsReplaceable files.now name.now (at (see fs.now).tree name.now) →
        (IsErr result → ⊥) × ((key : FileKey) → result ≡ Ok (Way.Device key) → ⊥)) }
    ensures folder { OnDisk F.disk (λ see. (key : FileKey) →
        at (see fs.now).tree name.now ≡ Some (Node.Folder key) → IsErr result) }
    ensures device { OnDisk F.disk (λ see. (key : FileKey) →
        at (see fs.now).tree name.now ≡ Some (Node.Device key) → result ≡ Ok (Way.Device key)) }
{
    match fs.look(name) {
        None => Ok(Way::Draft(None)),
        Some(Node::File(key, mode)) => {
            if !files.may_replace(fs, key, name) {
                return Err(FileFault::Other);
            }
            Ok(Way::Draft(Some(mode | OWNERS)))
        }
        Some(Node::Link) => way_of_link(fs, name, &files.read),
        Some(Node::Device(device)) => Ok(Way::Device(device)),
        Some(Node::Folder(_)) => Err(FileFault::Other),
        Some(Node::Unknown(fault)) => Err(fault),
    }
}

/// How an output under a link is written. A link to a file that was read, or to a standard stream's file, is refused, and
/// so is a link that may lead to a standard stream.
fn way_of_link<F: FileSystem>(fs: &F, name: &str, read: &FileSet) -> Result<Way, FileFault> {
    match fs.follow(name) {
        Some(Node::File(target, _)) | Some(Node::Folder(target)) => {
            if read.contains(target) || is_stream(fs, target) {
                return Err(FileFault::Other);
            }
            Ok(Way::Draft(None))
        }
        Some(Node::Device(device)) => Ok(Way::Device(device)),
        Some(Node::Unknown(fault)) => Err(fault),
        _ => Ok(Way::Draft(None)),
    }
}

/// Whether a file is a standard stream of the run. A stream that can't be looked up counts as none.
fn is_stream<F: FileSystem>(fs: &F, file: FileKey) -> bool {
    for stream in STREAMS {
        match fs.follow(stream) {
            Some(Node::File(found, _)) | Some(Node::Folder(found)) if found == file => return true,
            _ => {}
        }
    }
    false
}
