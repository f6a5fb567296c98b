// The files, folders and links of the comparison, in a new folder and in memory.
use super::paths::path_in;
use super::streams::put_file;
use super::universe::{
    BELOW_FILES, ENTRIES, Entry, IN_LOCKED, LOCKED, MISSING, NEW_FILE, SPELLINGS,
};
use crate::{Fact, Layout, MemoryFolder};
use cweb_system::{FileFault, FileKey, FileSystem, Node};
use std::alloc::{AllocError, Global};
use std::fs::Permissions;
use std::os::unix::fs::{PermissionsExt, symlink};
use std::rt::{Env, Files};
use std::test::Fail;
use std::{env, fs, io};

/// Makes what is at a path at first.
fn make(rt: &(impl Files + AllocGlobal), top: &str, name: &str, entry: &Entry) -> io::Result<()> {
    let alloc = rt.alloc();
    let path = path_in(alloc, top, name)?;
    match entry {
        Entry::Folder => fs::create_dir(rt, path),
        Entry::File(text) => fs::write(rt, path, *text),
        Entry::HardLink(original) => fs::hard_link(rt, path_in(alloc, top, original)?, path),
        Entry::Link(text, _) => symlink(rt, *text, path),
        Entry::Unknown => Ok(()),
    }
}

fn lay_out(rt: &(impl Files + AllocGlobal), top: &str) -> io::Result<()> {
    for (name, entry) in ENTRIES {
        make(rt, top, name, entry)?;
    }
    let locked = path_in(rt.alloc(), top, LOCKED)?;
    fs::set_permissions(rt, locked, Permissions::from_mode(0o555))
}

/// Whether the kernel refuses to create a file in the locked folder. It refuses the superuser nothing, so the gate runs
/// tests as nobody.
fn is_refused<F: FileSystem>(real: &mut F, path: &str) -> bool {
    match real.create(path, None) {
        Err(FileFault::Denied) => true,
        _ => {
            let _ = real.remove(path);
            false
        }
    }
}

/// A list of facts with one more.
fn add<V: Drop>(
    alloc: Global,
    facts: &mut Vec<Fact<V>>,
    path: &str,
    value: V,
) -> Result<(), AllocError> {
    let path = String::from_str(alloc, path)?;
    facts.push(Fact { path, value })?;
    Ok(())
}

fn add_spellings(alloc: Global, facts: &mut Vec<Fact<String>>) -> Result<(), AllocError> {
    for (path, place) in SPELLINGS {
        add(alloc, facts, path, String::from_str(alloc, place)?)?;
    }
    Ok(())
}

fn add_links(alloc: Global, facts: &mut Vec<Fact<String>>) -> Result<(), AllocError> {
    for (name, entry) in ENTRIES {
        if let Entry::Link(_, to) = entry {
            add(alloc, facts, name, String::from_str(alloc, to)?)?;
        }
    }
    Ok(())
}

fn add_refusals(
    alloc: Global,
    facts: &mut Vec<Fact<FileFault>>,
    names: &[&str],
    fault: FileFault,
) -> Result<(), AllocError> {
    for name in names {
        add(alloc, facts, name, fault)?;
    }
    Ok(())
}

fn add_facts(alloc: Global, layout: &mut Layout, is_locked: bool) -> Result<(), AllocError> {
    add_spellings(alloc, &mut layout.spellings)?;
    add_links(alloc, &mut layout.links)?;
    let refusals = &mut layout.refusals;
    add_refusals(alloc, refusals, MISSING, FileFault::NotFound)?;
    add_refusals(alloc, refusals, BELOW_FILES, FileFault::Other)?;
    if is_locked {
        add_refusals(alloc, refusals, IN_LOCKED, FileFault::Denied)?;
    }
    Ok(())
}

/// What calls don't change.
fn layout(alloc: Global, new_mode: u32, is_locked: bool) -> Result<Layout, AllocError> {
    let mut layout = Layout::new(alloc, new_mode);
    match add_facts(alloc, &mut layout, is_locked) {
        Ok(()) => Ok(layout),
        Err(error) => {
            drop(layout);
            Err(error)
        }
    }
}

/// Puts into memory what is at a path at first.
fn put(memory: &mut MemoryFolder, name: &str, entry: &Entry) -> Result<(), FileFault> {
    let node = match entry {
        Entry::File(text) => return put_file(memory, name, text.as_bytes()),
        Entry::Folder => Node::Folder(FileKey {
            device: 1,
            number: name.len() as u64,
        }),
        Entry::HardLink(original) => memory.look(original).ok_or(FileFault::NotFound)?,
        Entry::Link(_, _) => Node::Link,
        Entry::Unknown => Node::Unknown(FileFault::Other),
    };
    memory.put(name, node)
}

fn lay_out_memory(memory: &mut MemoryFolder) -> Result<(), FileFault> {
    for (name, entry) in ENTRIES {
        put(memory, name, entry)?;
    }
    Ok(())
}

/// The permissions of a file that was created without any.
fn new_mode<F: FileSystem>(real: &F, path: &str) -> u32 {
    match real.look(path) {
        Some(Node::File(_, mode)) => mode,
        _ => 0,
    }
}

/// The folder in memory that is laid out as the real one.
pub fn memory_like<F: FileSystem>(
    alloc: Global,
    real: &mut F,
    top: &str,
) -> Result<MemoryFolder, Fail> {
    let mode = new_mode(real, path_in(alloc, top, NEW_FILE)?.as_str());
    let is_locked = is_refused(real, path_in(alloc, top, "locked/new")?.as_str());
    let mut memory = MemoryFolder::new(alloc, layout(alloc, mode, is_locked)?);
    match lay_out_memory(&mut memory) {
        Ok(()) => Ok(memory.begin_run()),
        Err(fault) => {
            drop(memory);
            Err(fault.into())
        }
    }
}

/// Creates a folder under a free name.
fn free_folder(rt: &(impl Files + AllocGlobal), temporary: &str) -> Result<String, Fail> {
    for number in 0..10_000 {
        let path = format!(in rt.alloc(); "{temporary}/cweb_system-{number}")?;
        if fs::create_dir(rt, path.as_str()).is_ok() {
            return Ok(path);
        }
    }
    Err("no name is free".into())
}

/// A new folder, laid out.
pub fn new_folder(rt: &(impl Files + Env + AllocGlobal)) -> Result<String, Fail> {
    let temporary = env::temp_dir(rt)?;
    let top = free_folder(rt, temporary.as_str())?;
    lay_out(rt, top.as_str())?;
    Ok(top)
}

pub fn remove_folder(rt: &(impl Files + AllocGlobal), top: &str) -> io::Result<()> {
    let locked = path_in(rt.alloc(), top, LOCKED)?;
    fs::set_permissions(rt, locked, Permissions::from_mode(0o755))?;
    fs::remove_dir_all(rt, top)
}
