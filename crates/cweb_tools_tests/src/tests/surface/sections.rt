// A client of cweb_scan and cweb_store.
use crate::tests::wanted::{holds, same_bytes};
use cweb_lines::{MemoryShelf, Merger, Shelf, Stop};
use cweb_scan::{Scanned, scan};
use cweb_store::{NameId, Store};
use std::alloc::{AllocError, Global};

/// The number of sections, and the names of the web, one per line.
pub fn outline<S: Shelf>(alloc: Global, shelf: &mut S, web: &str) -> Result<(u32, Vec<u8>), Stop> {
    let mut merger = Merger::start(alloc, shelf, web, None, None, None)?;
    outline_of(alloc, shelf, &mut merger)
}

fn outline_of<S: Shelf>(
    alloc: Global,
    shelf: &mut S,
    merger: &mut Merger<S>,
) -> Result<(u32, Vec<u8>), Stop> {
    if shelf.failures() == u64::MAX {
        return Err(merger.halt());
    }
    let scanned = scan(alloc, merger, shelf)?;
    outline_of_scanned(alloc, &scanned)
}

fn outline_of_scanned(alloc: Global, scanned: &Scanned) -> Result<(u32, Vec<u8>), Stop> {
    Ok((scanned.sections, names(alloc, &scanned.store)?))
}

fn names(alloc: Global, store: &Store) -> Result<Vec<u8>, AllocError> {
    let mut names = Vec::new(alloc);
    for number in 0..store.names() {
        names.extend_from_slice(store.name_text(NameId(number)))?;
        names.push(b'\n')?;
    }
    Ok(names)
}

#[test]
fn sections_and_names_of_a_web(rt: HostRuntime) {
    let mut shelf = MemoryShelf::new(rt.alloc());
    shelf
        .put("t.w", b"@ @<First@>=\nx;\n@ @(t.h@>=\n@<First@>\n@*Last.\n")
        .expect(&rt, "memory");
    let made = outline(rt.alloc(), &mut shelf, "t.w").expect(&rt, "scanned");
    holds(&rt, made.0 == 3);
    same_bytes(&rt, made.1.as_slice(), b"First\nt.h\n");
}
