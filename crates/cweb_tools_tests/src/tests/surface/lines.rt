// A client of cweb_lines.
use crate::OneShelf;
use crate::tests::wanted::holds;
use cweb_lines::{LINES, Merger, Shelf, Stop};
use std::alloc::Global;

/// The length of the longest merged line.
pub fn longest_line<S: Shelf>(alloc: Global, shelf: &mut S, web: &str) -> Result<usize, Stop> {
    let mut merger = Merger::start(alloc, shelf, web, None, None, None)?;
    let mut line = Vec::new(alloc);
    let mut longest = 0;
    for _ in 0..=LINES {
        if shelf.failures() == u64::MAX {
            return Err(merger.halt());
        }
        let Some(_place) = merger.next_line(shelf, &mut line)? else {
            break;
        };
        longest = line.len().max(longest);
    }
    Ok(longest)
}

#[test]
fn longest_line_over_an_own_shelf(rt: HostRuntime) {
    let mut shelf = OneShelf::new(rt.alloc(), "a.w", b"x \r\n\nfour\t").expect(&rt, "memory");
    holds(&rt, longest_line(rt.alloc(), &mut shelf, "a.w") == Ok(4));
    holds(
        &rt,
        longest_line(rt.alloc(), &mut shelf, "b.w") == Err(Stop::WebNotOpened),
    );
}
