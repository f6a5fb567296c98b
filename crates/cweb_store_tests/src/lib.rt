//! The tests of `cweb_store`, in a crate of their own, so that a change of them doesn't check `cweb_store` again.
#![tactic(auto)]

#[cfg(test)]
mod tests;
