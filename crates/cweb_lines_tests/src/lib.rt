//! The tests of `cweb_lines` and `cweb_files`, in a crate of their own, so that a change of them doesn't check these again.
#![tactic(auto)]

#[cfg(test)]
mod tests;
