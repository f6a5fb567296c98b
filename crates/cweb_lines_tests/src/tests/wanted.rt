// Assertions. Each is a function of its own, so that its failure is checked once and not in each test.
ghost use Rattle.std.specs.Prelude.{◌≡◌, true};

use super::*;
use std::process::Abort;

pub fn holds(rt: &impl Abort, is_so: bool)
    ensures { is_so ≡ true }
{
    assert!(rt; is_so);
}

pub fn same_number(rt: &impl Abort, got: u64, want: u64) {
    assert_eq!(rt; got, want);
}

pub fn same_string(rt: &impl Abort, got: &str, want: &str) {
    assert_eq!(rt; got, want);
}

pub fn same_bytes(rt: &impl Abort, got: &[u8], want: &[u8]) {
    assert_eq!(rt; got, want);
}

pub fn same_at(rt: &impl Abort, got: &[u8], want: &[u8], case: usize) {
    assert!(rt; got == want, "at {case}");
}

pub fn comes(rt: &impl Abort, got: Option<Place>, want: Place) {
    assert!(rt; got == Some(want));
}

pub fn stops(rt: &impl Abort, got: Result<Option<Place>, Stop>, want: Stop) {
    assert!(rt; got == Err(want));
}

pub fn ends(rt: &impl Abort, got: Result<(), Stop>, want: Result<(), Stop>) {
    assert!(rt; got == want);
}
