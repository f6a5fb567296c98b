//! The tests of `cweb_scan` and `cweb_rules`, in a crate of their own, so that a change of them doesn't check these again.
#![tactic(auto)]

#[cfg(test)]
mod tests;
