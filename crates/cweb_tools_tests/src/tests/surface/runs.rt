// A client of cweb_tools, and whole runs over devices of one's own.
use super::types::web_of;
use crate::tests::wanted::{holds, same_bytes, same_string};
use crate::{ByteSink, OneBin, OneShelf};
use cweb_lines::{MemoryShelf, MemorySink};
use cweb_out::{BinFile, MemoryBins};
use cweb_tools::{Options, laws, run_ctangle, run_wmerge};
use std::alloc::{AllocError, Global};
use std::process::Abort;

/// A run of `ctangle` on a web in memory: its status, its files, and its log.
#[derive(Drop)]
pub struct Run {
    pub status: u8,
    pub bins: MemoryBins,
    pub log: MemorySink,
}

/// Tangles a web in memory.
pub fn tangle(alloc: Global, web: &[u8]) -> Result<Run, AllocError> {
    let mut shelf = MemoryShelf::new(alloc);
    shelf.put("hello.w", web)?;
    let mut bins = MemoryBins::with_room(alloc, 4, 4096)?;
    let mut log = MemorySink::with_room(alloc, 4096)?;
    let status = run_ctangle(alloc, &["hello"], None, &mut shelf, &mut bins, &mut log);
    Ok(Run { status, bins, log })
}

const HELLO: &[u8] =
    b"@ Hello.\n@c\n#include <stdio.h>\nint main(void) { @<Greet@> return 0; }\n@ @<Greet@>=\nputs(\"hi\");\n";

const HELLO_C: &[u8] =
    b"/*1:*/\n#line 2 \"hello.w\"\n\n#include <stdio.h>\nint main(void){/*2:*/\n#line 5 \"hello.w\"\n\nputs(\"hi\");/*:2*/\n#line 4 \"hello.w\"\nreturn 0;}\n/*:1*/\n";

const HELLO_LOG: &[u8] =
    b"This is CTANGLE, profile of CWEB 3\nWriting hello.c\n(No errors were found.)\n";

fn one_file(rt: &impl Abort, files: &[BinFile], name: &str, bytes: &[u8]) {
    holds(rt, files.len() == 1);
    same_string(rt, files[0].name.as_str(), name);
    same_bytes(rt, files[0].bytes.as_slice(), bytes);
}

#[test]
fn a_run_in_memory(rt: HostRuntime) {
    let run = tangle(rt.alloc(), HELLO).expect(&rt, "memory");
    holds(&rt, run.status == 0);
    one_file(&rt, run.bins.files(), "hello.c", HELLO_C);
    same_bytes(&rt, run.log.bytes(), HELLO_LOG);
}

#[test]
fn ctangle_over_own_devices(rt: HostRuntime) {
    let mut shelf = OneShelf::new(rt.alloc(), "hello.w", HELLO).expect(&rt, "memory");
    let mut bins = OneBin::new(rt.alloc());
    let mut log = ByteSink::new(rt.alloc());
    let status = run_ctangle(
        rt.alloc(),
        &["hello"],
        None,
        &mut shelf,
        &mut bins,
        &mut log,
    );
    holds(&rt, status == 0);
    let file = bins.file.as_ref().expect(&rt, "a file");
    same_string(&rt, file.name.as_str(), "hello.c");
    same_bytes(&rt, file.bytes.as_slice(), HELLO_C);
    same_bytes(&rt, log.bytes.as_slice(), HELLO_LOG);
}

#[test]
fn wmerge_over_own_devices(rt: HostRuntime) {
    let mut shelf = OneShelf::new(rt.alloc(), "a.w", b"x \r\n\ny\t").expect(&rt, "memory");
    let mut out = ByteSink::new(rt.alloc());
    let mut log = ByteSink::new(rt.alloc());
    let status = run_wmerge(rt.alloc(), &["a"], None, &mut shelf, &mut out, &mut log);
    holds(&rt, status == 0);
    same_bytes(&rt, out.bytes.as_slice(), b"x\n\ny\n");
    same_bytes(&rt, log.bytes.as_slice(), b"");
}

#[test]
fn wmerge_in_memory(rt: HostRuntime) {
    let mut shelf = MemoryShelf::new(rt.alloc());
    shelf
        .put("m.w", b"@i inc.w\nL2\nL3\n")
        .expect(&rt, "memory");
    shelf.put("inc.w", b"I1\nI2\n").expect(&rt, "memory");
    shelf
        .put("c.ch", b"@x\nI2\nLX\n@y\nN\n@z\n")
        .expect(&rt, "memory");
    let mut out = MemorySink::with_room(rt.alloc(), 64).expect(&rt, "memory");
    let mut log = MemorySink::with_room(rt.alloc(), 64).expect(&rt, "memory");
    let status = run_wmerge(
        rt.alloc(),
        &["m", "c"],
        None,
        &mut shelf,
        &mut out,
        &mut log,
    );
    holds(&rt, status == 1);
    same_bytes(&rt, out.bytes(), b"I1\nN\nL3\n");
    same_bytes(
        &rt,
        log.bytes(),
        b"c.ch:1: ! Lines that failed to match: 1\n",
    );
}

#[test]
fn options_and_spacing(rt: HostRuntime) {
    let options = Options::read(rt.alloc(), &["+s", "x.y/web"]).expect(&rt, "read");
    same_string(&rt, web_of(&options), "x.y/web.w");
    holds(&rt, options.statistics);
    laws::spacing();
}
