// Assertions. Each is a function of its own, so that its callers have no failure branches and verify quickly.
ghost use Rattle.std.specs.Prelude.{◌≡◌, true};

use cweb_lines::Shelf;
use std::process::Abort;

pub fn holds(rt: &impl Abort, is_so: bool)
    ensures { is_so ≡ true }
{
    assert!(rt; is_so);
}

pub fn same_bytes(rt: &impl Abort, got: &[u8], want: &[u8]) {
    assert_eq!(rt; got, want);
}

/// An assertion about a file, whose path is printed if it fails.
pub fn holds_of(rt: &impl Abort, is_so: bool, path: &str) {
    assert!(rt; is_so, "{path}");
}

/// Joins strings.
pub fn joined(rt: &(impl Abort + AllocGlobal), pieces: &[&str]) -> String {
    pieces.concat(rt.alloc()).expect(rt, "memory")
}

pub fn opens<S: Shelf>(rt: &impl Abort, shelf: &mut S, name: &str) -> bool {
    shelf.fetch(name).expect(rt, "memory").is_some()
}
