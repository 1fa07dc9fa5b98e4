// What operations do to the registers, over the width of their data, and what they store.
#![tactic(auto)]

pub mod arithmetic;
pub mod effects;
pub mod file;
pub mod flags;
