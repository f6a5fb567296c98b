// A client that relies on the headlines: it runs each program on one web in memory, and its contracts have the bytes.
ghost use Rattle.std.specs.Prelude.{◌≡◌, IfOk, IfSome};
ghost use Rattle.cweb_tools_tests.specs.inner.Hello.{IsMergedHello, IsRuleOfHello, IsTangledHello, NoneFailed};
ghost use Rattle.cweb_tools_tests.specs.inner.Hello.{files_of, hello_contents, text_of};

use cweb_lines::{MemoryShelf, MemorySink, Shelf, Sink};
use cweb_out::MemoryBins;
use cweb_tools::{run_ctangle, run_wdep, run_wmerge};
use std::alloc::{AllocError, Global};

/// The web hello.w. Its first section uses the name of the second.
pub const HELLO: &[u8] =
    b"@ Hello.\n@c\n#include <stdio.h>\nint main(void) { @<Greet@> return 0; }\n@ @<Greet@>=\nputs(\"hi\");\n";

/// A run of `ctangle`: its status, its files, and its log.
#[derive(Drop)]
pub struct Tangled {
    pub status: u8,
    pub bins: MemoryBins,
    pub log: MemorySink,
}

/// A run of `wmerge` or `wdep`: its status, its output, and its log.
#[derive(Drop)]
pub struct Printed {
    pub status: u8,
    pub out: MemorySink,
    pub log: MemorySink,
}

/// A shelf with hello.w alone.
fn hello_shelf(alloc: Global) -> Result<MemoryShelf, AllocError>
    ensures { IfOk result (λ shelf. IfSome (⟦<MemoryShelf as Shelf>⟧.model shelf).contents
        (λ seen. seen.texts ≡ hello_contents)) }
{
    let mut shelf = MemoryShelf::new(alloc);
    shelf.put("hello.w", HELLO)?;
    Ok(shelf)
}

/// Tangles hello.w.
pub fn tangle_hello(alloc: Global) -> Result<Tangled, AllocError>
    ensures { IfOk result (λ run. let log = text_of (⟦<MemorySink as Sink>⟧.model run.log) in
        NoneFailed (⟦<MemoryBins as Sink>⟧.model run.bins).failed
        (⟦<MemorySink as Sink>⟧.model run.log).failed log
        → IsTangledHello (files_of (⟦<MemoryBins as Sink>⟧.model run.bins)) log run.status) }
{
    let mut shelf = hello_shelf(alloc)?;
    let mut bins = MemoryBins::with_room(alloc, 1, 4096)?;
    let mut log = MemorySink::with_room(alloc, 4096)?;
    let status = run_ctangle(alloc, &["hello"], None, &mut shelf, &mut bins, &mut log);
    Ok(Tangled { status, bins, log })
}

/// Prints the merged lines of hello.w.
pub fn merge_hello(alloc: Global) -> Result<Printed, AllocError>
    ensures { IfOk result (λ run. let log = text_of (⟦<MemorySink as Sink>⟧.model run.log) in
        NoneFailed (⟦<MemorySink as Sink>⟧.model run.out).failed
        (⟦<MemorySink as Sink>⟧.model run.log).failed log
        → IsMergedHello (text_of (⟦<MemorySink as Sink>⟧.model run.out)) log run.status) }
{
    let mut shelf = hello_shelf(alloc)?;
    let mut out = MemorySink::with_room(alloc, 4096)?;
    let mut log = MemorySink::with_room(alloc, 4096)?;
    let status = run_wmerge(alloc, &["hello"], None, &mut shelf, &mut out, &mut log);
    Ok(Printed { status, out, log })
}

/// Prints the dependencies of hello.w.
pub fn depend_hello(alloc: Global) -> Result<Printed, AllocError>
    ensures { IfOk result (λ run. let log = text_of (⟦<MemorySink as Sink>⟧.model run.log) in
        NoneFailed (⟦<MemorySink as Sink>⟧.model run.out).failed
        (⟦<MemorySink as Sink>⟧.model run.log).failed log
        → IsRuleOfHello (text_of (⟦<MemorySink as Sink>⟧.model run.out)) log run.status) }
{
    let mut shelf = hello_shelf(alloc)?;
    let mut out = MemorySink::with_room(alloc, 4096)?;
    let mut log = MemorySink::with_room(alloc, 4096)?;
    let status = run_wdep(alloc, &["hello"], None, &mut shelf, &mut out, &mut log);
    Ok(Printed { status, out, log })
}
