// Mark lists and routine lists: their form, reading, writing, and the least marks of a routine list.
// The definitions are in specs/, the theorems in proofs/. This crate has no code.
#![tactic(auto)]
