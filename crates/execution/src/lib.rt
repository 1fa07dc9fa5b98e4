// States as bytes, runs, and the guarantee about them.
// The definitions are in specs/, the theorems in proofs/. This crate has no code.
#![tactic(auto)]
