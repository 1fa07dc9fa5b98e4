// Runs: steps one after another, and a run of a state that is given as bytes.
#![tactic(auto)]

pub mod bytes;
mod steps;
