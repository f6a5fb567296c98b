//! Scans the merged lines of a web for names, parts, faults and sections. See the CWEB manual, "Control codes".
#![tactic(auto)]

// the effect of each lexeme on the state
mod scanner;

// the open directive of a part
mod directive;

// whether a line is the next one of its file
mod lines;

// the rest of a line
mod rest;

// the prefix before an `@`
mod skipped;

// the lines, and the item that is open at the end of a line
mod reader;

// the scan of all lines
mod scanning;

// laws for any web
pub mod laws;

pub use cweb_rules::{ScanFault, ScanKind};
pub use scanner::scanned::Scanned;
pub use scanning::scan;
