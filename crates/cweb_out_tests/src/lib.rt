//! The tests of `cweb_out`, in a crate of their own, so that a change of them doesn't check `cweb_out` again.
#![tactic(auto)]

#[cfg(test)]
mod tests;
