// Test cases over the store of a web. Only functions here own a store or a merger, since owning one makes verification
// slow. After a failed allocation they try once more.
use super::webs::store_of;
use cweb_files::MemoryShelf;
use cweb_lines::{FileNames, Merger, Stop};
use cweb_store::Store;
use std::alloc::{AllocError, Global};
use std::process::Abort;
use trial::shelf_of;

/// The checks of a store. The files of its line marks have these names.
pub trait Case {
    fn look<A: Abort>(&self, rt: &A, alloc: Global, store: &Store, names: &FileNames);
}

/// The names of the files of line marks.
pub const FILES: (&str, Option<&str>) = ("s.w", Some("a\\b\".ch"));

/// Checks the store of a web.
pub fn check<C: Case>(rt: &impl Abort, alloc: Global, web: &[u8], case: &C) {
    check_files(rt, alloc, FILES, web, case);
}

/// Checks the store of a web whose files have these names.
pub fn check_files<C: Case>(
    rt: &impl Abort,
    alloc: Global,
    files: (&str, Option<&str>),
    web: &[u8],
    case: &C,
) {
    let merger = begun_again(alloc, files).expect(rt, "memory");
    check_named(rt, alloc, merger.names(), web, case);
}

fn begun_again(alloc: Global, files: (&str, Option<&str>)) -> Result<Merger<MemoryShelf>, Stop> {
    match begun(alloc, files) {
        Ok(merger) => Ok(merger),
        Err(_) => begun(alloc, files),
    }
}

fn begun(alloc: Global, files: (&str, Option<&str>)) -> Result<Merger<MemoryShelf>, Stop> {
    let change = files.1.unwrap_or("no.ch");
    let mut shelf = shelf_of(alloc, &[(files.0, b""), (change, b"")])?;
    Merger::start(alloc, &mut shelf, files.0, None, files.1, None)
}

fn check_named<C: Case>(rt: &impl Abort, alloc: Global, names: &FileNames, web: &[u8], case: &C) {
    let store = made_again(rt, alloc, web).expect(rt, "memory");
    case.look(rt, alloc, &store, names);
}

fn made_again(rt: &impl Abort, alloc: Global, web: &[u8]) -> Result<Store, AllocError> {
    match store_of(rt, alloc, web) {
        Ok(store) => Ok(store),
        Err(_) => store_of(rt, alloc, web),
    }
}
