// The plan of a web's outputs, or the first fault that refuses it.

// names that a file can have, and the list of outputs
mod file_name;
mod output_list;

// cycles of names
mod search;

// the plan, and why there is none
pub mod fault;
pub mod planned;
pub mod planning;
