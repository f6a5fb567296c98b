// Runs of `ctangle` with the bins of one folder.
use super::wanted::{holds, joined, same_bytes};
use cweb_lines::{MemoryShelf, MemorySink, Shelf, Sink};
use cweb_out::Bins;
use cweb_tools::run_ctangle;
use std::alloc::{AllocError, Global};
use std::fs;
use std::process::Abort;
use std::rt::Files;

/// Runs `ctangle` over a web. Returns its status, or the failed allocation.
fn tangle<B: Bins>(alloc: Global, bins: &mut B, web: &[u8], path: &str) -> Result<u8, AllocError> {
    let mut shelf = MemoryShelf::new(alloc);
    shelf.put("a.w", web)?;
    let mut log = MemorySink::with_room(alloc, 4096)?;
    if bins.failures() > 0 || shelf.failures() > 0 || log.failures() > 0 {
        return Ok(2);
    }
    let words = ["a.w", "-", path];
    Ok(run_ctangle(alloc, &words, None, &mut shelf, bins, &mut log))
}

fn tangles<B: Bins>(
    rt: &(impl Abort + Files + AllocGlobal),
    bins: &mut B,
    web: &[u8],
    path: &str,
    text: &[u8],
) {
    let status = tangle(rt.alloc(), bins, web, path).expect(rt, "memory");
    holds(rt, status == 0);
    let held = fs::read(rt, path).expect(rt, "a file");
    same_bytes(rt, &held, text);
}

/// The second run replaces the file of the first one.
pub fn tangle_twice<B: Bins>(rt: &(impl Abort + Files + AllocGlobal), bins: &mut B, folder: &str) {
    let path = joined(rt, &[folder, "/a.c"]);
    let path = path.as_str();
    tangles(
        rt,
        bins,
        b"@ @c one;\n",
        path,
        b"/*1:*/\n#line 1 \"a.w\"\none;/*:1*/\n",
    );
    tangles(
        rt,
        bins,
        b"@ @c two;\n",
        path,
        b"/*1:*/\n#line 1 \"a.w\"\ntwo;/*:1*/\n",
    );
}
