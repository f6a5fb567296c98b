// Test cases over a scan. Only functions here own a merger or a scan's result.
use super::*;
use cweb_lines::{MemoryShelf, Shelf, Stop};

/// The checks of a scan's result.
pub trait Case<E> {
    fn look<A: AllocGlobal + Abort>(&self, rt: &A, made: &Scanned) -> Result<(), E>;
}

/// Scans the web `a.w` of these files, with or without a change file, and checks the result.
pub fn check<E: From<Stop> + From<AllocError>, C: Case<E>>(
    rt: &(impl AllocGlobal + Abort),
    files: &[(&str, &[u8])],
    change: Option<&str>,
    case: &C,
) -> Result<(), E> {
    let mut shelf = shelf_of(rt.alloc(), files)?;
    check_over(rt, &mut shelf, change, case)
}

fn check_over<E: From<Stop>, C: Case<E>>(
    rt: &(impl AllocGlobal + Abort),
    shelf: &mut MemoryShelf,
    change: Option<&str>,
    case: &C,
) -> Result<(), E> {
    let mut merger = Merger::start(rt.alloc(), shelf, "a.w", None, change, None)?;
    check_scan(rt, &mut merger, shelf, case)
}

// If the scan ends early, the merger stores the stop.
fn check_scan<E: From<Stop>, C: Case<E>>(
    rt: &(impl AllocGlobal + Abort),
    merger: &mut Merger<MemoryShelf>,
    shelf: &mut MemoryShelf,
    case: &C,
) -> Result<(), E> {
    let made = scan(rt.alloc(), merger, shelf);
    holds(rt, shelf.failures() == 0);
    holds(rt, merger.stopped() == made.as_ref().err().copied());
    let made = made?;
    let looked = case.look(rt, &made);
    drop(made);
    looked
}
