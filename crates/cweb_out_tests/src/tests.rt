// Outputs of webs that are written as strings: small and large webs, failing sinks, failed allocations, and bins.
mod bins;
mod buffering;
mod cases;
mod failing;
mod frames;
mod large;
mod long_webs;
mod outputs;
mod reports;
mod wanted;
mod webs;
