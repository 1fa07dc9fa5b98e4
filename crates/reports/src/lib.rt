// What is told of an image: its printed page, why it is refused, where addresses lie.
// The definitions are in specs/, the theorems in proofs/. This crate has no code.
#![tactic(auto)]
