// The machine's memory: RAM from address 000000 and the image above it. Every read and store can fail, and tells so by
// value.
#![tactic(auto)]

pub mod reads;
pub mod stores;
