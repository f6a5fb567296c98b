// Clients of the libraries, and each public type once.

// clients; docs/LIBRARIES.md quotes them
mod lines;
mod outputs;
mod printing;
mod runs;
mod sections;

// calls and types
mod bins;
mod building;
mod hello;
mod merging;
mod types;
