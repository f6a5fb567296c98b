// Committed files.
ghost use Rattle.std.specs.Prelude.{◌≡◌, ◌≤◌, IsSomeAnd, false, true, filter, not, string_bytes, vec_len, vec_capacity};
ghost use Rattle.std.specs.Option.{option_copied};
ghost use Rattle.std.specs.Str.{bytes_eq};
ghost use Rattle.cweb_system.specs.Steps.{OnDisk};
ghost use Rattle.cweb_system.specs.inner.Written.{HasFiles, IsNewBut};
ghost use Rattle.cweb_system.specs.Tree.{IsFile, at};

use crate::{FileKey, FileSystem, Node};

/// A file that was committed.
#[derive(Drop)]
pub struct WrittenFile {
    pub name: String,
    pub key: FileKey,
}

/// Whether a file of this key was written under a name other than `but`. It wasn't if that name now leads elsewhere:
/// another run has replaced the file, and the system may have reused its key.
pub fn is_written<F: FileSystem>(
    fs: &F,
    written: &[WrittenFile],
    key: FileKey,
    but: Option<&str>,
) -> bool
    requires { HasFiles F.disk fs.now written.now }
    ensures value { result ≡ false →
        OnDisk F.disk (λ _. IsNewBut (option_copied but.entry) key written.now) }
    ensures none { IsNewBut (option_copied but.entry) key written.now → result ≡ false }
{
    for file in written {
        if is_of_key(fs, file, key, but) {
            return true;
        }
    }
    false
}

/// Whether this file has the key and another name than `but`, and is still there.
fn is_of_key<F: FileSystem>(fs: &F, file: &WrittenFile, key: FileKey, but: Option<&str>) -> bool
    requires { OnDisk F.disk (λ see. IsFile file.now.key
        (at (see fs.now).tree (string_bytes file.now.name))) }
    ensures value { result ≡ false → OnDisk F.disk (λ _. file.now.key ≡ key →
        IsSomeAnd (option_copied but.entry) (λ name. string_bytes file.now.name ≡ name)) }
    ensures none { (file.now.key ≡ key →
        IsSomeAnd (option_copied but.entry) (λ name. string_bytes file.now.name ≡ name)) →
        result ≡ false }
{
    let name = file.name.as_str();
    match but {
        Some(but) if name == but => false,
        _ => file.key == key && is_at(fs, name, key),
    }
}

/// Whether a path names this very file, or can't be looked up.
pub fn is_at<F: FileSystem>(fs: &F, path: &str, key: FileKey) -> bool
    ensures { OnDisk F.disk (λ see. IsFile key (at (see fs.now).tree path.now) → result ≡ true) }
{
    match fs.look(path) {
        Some(Node::File(found, _)) => found == key,
        Some(Node::Unknown(_)) => true,
        _ => false,
    }
}

/// Removes the file of this name.
pub fn remove_named(files: &mut Vec<WrittenFile>, name: &str)
    ensures others { files.new.items
        ≡ filter (λ file. not (bytes_eq (string_bytes file.name) name.now)) files.old.items }
    ensures capacity { vec_capacity files.new ≡ vec_capacity files.old }
    ensures len { vec_len files.new ≤ vec_len files.old }
{
    files.retain(|file| file.name.as_str() != name);
}
