//! The outputs of a web: which there are, the tokens of each with all names expanded, and the bytes of these tokens with
//! blanks, line marks and macros.
#![tactic(auto)]

// printed bytes before a sink has them
mod buffer;

// byte chunks, written in order
mod chunks;

// tokens, appended to a sink or to its buffer
mod printer;

// the outputs, or why there is no plan
mod outputs;

// the suffix of a token list that is still to come
mod frame;

// the tokens of one output
mod expander;

// laws for any web
pub mod laws;

pub use buffer::OutBuffer;
pub use cweb_files::{BinFault, BinFile, Bins, MemoryBins};
pub use expander::Expander;
pub use frame::Frame;
pub use outputs::fault::PlanFault;
pub use outputs::planned::Plan;
pub use outputs::planning::plan;
pub use printer::Printer;
