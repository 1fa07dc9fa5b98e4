// Where an instruction's data lies, and the data itself.
#![tactic(auto)]

pub mod access;
pub mod reach;
