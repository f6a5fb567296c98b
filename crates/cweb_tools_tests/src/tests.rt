// Runs of `ctangle`, `wmerge` and `wdep` over files in memory and failing devices. The effect of a run of `ctangle` is one
// string: its log, each file after its name, and its status.
mod changes;
mod command_line;
mod depends;
mod devices;
mod environment;
mod expected;
mod failing;
mod folders;
mod items;
mod many_faults;
mod merges;
mod merging;
mod options;
mod surface;
mod tangling;
mod wanted;
mod web_faults;
mod webs;
