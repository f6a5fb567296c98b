//! Devices for tests: a shelf and a sink in memory whose n-th call fails. They aren't observable, so tests learn their
//! contents by running them and from no contract.
#![tactic(auto)]

// a shelf whose n-th read fails
mod shelf;
// a sink whose n-th write fails
mod sink;

pub use shelf::{TrialShelf, shelf_of};
pub use sink::TrialSink;
