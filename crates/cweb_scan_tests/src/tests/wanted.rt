// Assertions. Each is a function of its own, so that its callers have no failure branches and verify quickly.
ghost use Rattle.std.specs.Prelude.{◌≡◌, true};

use std::process::Abort;

pub fn holds(rt: &impl Abort, is_so: bool)
    ensures { is_so ≡ true }
{
    assert!(rt; is_so);
}

pub fn holds_at(rt: &impl Abort, is_so: bool, text: &[u8]) {
    assert!(rt; is_so, "at {text:?}");
}

pub fn has_size(rt: &impl Abort, got: usize, want: usize) {
    assert!(rt; got == want, "{got} where {want} is wanted");
}

pub fn same_string(rt: &impl Abort, got: &str, want: &str) {
    assert_eq!(rt; got, want);
}

/// Compares the reports on a web.
pub fn same_string_of(rt: &impl Abort, got: &str, want: &str, web: &[u8]) {
    assert_eq!(rt; got, want, "of {web:?}");
}

/// Compares the tokens, faults and bytes of strings of a web with this prefix.
pub fn same_sizes(rt: &impl Abort, got: (u32, usize, u64), want: (u32, usize, u64), prefix: &[u8]) {
    assert_eq!(rt; got, want, "behind {prefix:?}");
}
