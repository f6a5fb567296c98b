// Failed allocations in a scan.
use super::*;
use cweb_lines::Stop;

const NAMES: &[u8] = b"@ @c\n@<Glob...@> @<a  b@>\n@ @<Global@>=\nint g;\n@ @(a b@>= \"x\\\ny\"\n";

const MACROS: &[u8] = b"@l fc ue\n@* @d f(x) R\"(a\nb)\" @'a'\n@d g @=v@>\n@c @h\n#include <a.h>\n";

const FAULTS: &[u8] = b"@x\n@ @d 1\n@c @^a\n@<A@<B\n@* @c \"x@y\n/* z\n";

// The number of tokens and faults of a scan.
#[derive(Clone, Copy)]
struct Sizes {
    tokens: u32,
    faults: usize,
}

impl Case<Stop> for Sizes {
    fn look<A: AllocGlobal + Abort>(&self, rt: &A, made: &Scanned) -> Result<(), Stop> {
        holds(rt, made.store.tokens() == self.tokens);
        holds(rt, made.faults.len() == self.faults);
        Ok(())
    }
}

// Scans a web. A failed allocation is the only accepted stop.
fn refuse_memory(rt: &(impl AllocGlobal + Abort), web: &[u8], tokens: u32, faults: usize) {
    let ended = check(rt, &[("a.w", web)], None, &Sizes { tokens, faults });
    holds(rt, matches!(ended, Ok(()) | Err(Stop::Memory)));
}

// Also run by `tests/refusals`, which fails each allocation of the scans in turn, one per run.
#[test]
fn memory_that_is_refused(rt: HostRuntime) {
    refuse_memory(&rt, NAMES, 21, 0);
}

#[test]
fn memory_that_is_refused_in_macros(rt: HostRuntime) {
    refuse_memory(&rt, MACROS, 19, 0);
}

#[test]
fn memory_that_is_refused_with_faults(rt: HostRuntime) {
    refuse_memory(&rt, FAULTS, 13, 8);
}
