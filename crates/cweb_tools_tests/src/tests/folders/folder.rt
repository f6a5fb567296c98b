// A file of a real folder. Outputs and drafts of other kinds are tested with `ctangle` (`tests/draft_cases.py`, `tests/output_cases.py`).
use super::runs::tangle_twice;
use super::wanted::*;
use cweb_lines::write_all;
use cweb_out::{BinFault, Bins};
use cweb_tools::{FolderShelf, StdFolder};
use std::process::Abort;
use std::rt::{Env, Files};
use std::{env, fs};

/// Creates a folder and returns its path.
fn new_folder(rt: &(impl Abort + Files + Env + AllocGlobal)) -> String {
    let top = env::temp_dir(rt).expect(rt, "a folder of temporary files");
    new_folder_in(rt, top.as_str()).expect(rt, "a name that is free")
}

fn new_folder_in(rt: &(impl Abort + Files + AllocGlobal), top: &str) -> Option<String> {
    for number in 0..10_000 {
        let path = format!(in rt.alloc(); "{top}/cweb_tools-{number}").expect(rt, "memory");
        if fs::create_dir(rt, path.as_str()).is_ok() {
            return Some(path);
        }
    }
    None
}

/// Writes a draft. If a write fails, it is abandoned.
fn write_draft<B: Bins>(bins: &mut B, path: &str, text: &[u8]) -> Result<(), BinFault> {
    if bins.failures() > 1000 {
        return Err(BinFault::Memory);
    }
    bins.start_file(path)?;
    if bins.failures() > 1000 {
        return Err(BinFault::Memory);
    }
    if write_all(bins, text).is_err() {
        bins.abandon_file();
        return Err(BinFault::Device);
    }
    Ok(())
}

/// Writes and commits a file.
fn put<B: Bins>(bins: &mut B, path: &str, text: &[u8]) -> Result<(), BinFault> {
    write_draft(bins, path, text)?;
    if bins.failures() > 1000 {
        return Err(BinFault::Memory);
    }
    bins.commit_file()
}

/// The file has these contents, and no draft.
fn check_file(rt: &(impl Abort + Files + AllocGlobal), path: &str, text: &[u8]) {
    let held = fs::read(rt, path).expect(rt, "a file");
    same_bytes(rt, &held, text);
    let draft = joined(rt, &[path, "\u{7f}"]);
    holds_of(rt, fs::symlink_metadata(rt, draft.as_str()).is_err(), path);
}

/// A file is replaced by contents that are longer than the buffer, and left as it is by a draft that is abandoned.
fn check_bins<B: Bins>(rt: &(impl Abort + Files + AllocGlobal), bins: &mut B, path: &str) {
    let large = "x".repeat(rt.alloc(), 200_000).expect(rt, "memory");
    holds(rt, put(bins, path, b"old").is_ok());
    check_file(rt, path, b"old");
    holds(rt, put(bins, path, large.as_bytes()).is_ok());
    holds(rt, write_draft(bins, path, b"lost").is_ok());
    bins.abandon_file();
    check_file(rt, path, large.as_bytes());
    holds(rt, bins.failures() == 0);
}

/// Checks the bins in a new folder, and two runs over them.
fn check_in_folder<B: Bins>(rt: &(impl Abort + Env + Files + AllocGlobal), bins: &mut B) {
    let folder = new_folder(rt);
    let path = joined(rt, &[folder.as_str(), "/a.c"]);
    check_bins(rt, bins, path.as_str());
    tangle_twice(rt, bins, folder.as_str());
    fs::remove_dir_all(rt, folder.as_str()).expect(rt, "the folder");
}

#[test]
fn files_of_a_folder_are_replaced_whole(rt: HostRuntime) {
    let fs = StdFolder::with_streams(rt.alloc(), &rt);
    let mut bins = FolderShelf::new(rt.alloc(), fs).into_bins(rt.alloc());
    check_in_folder(&rt, &mut bins);
}
