// The instruction set: operations, code map, decoding, and where control goes from an instruction.
// The definitions are in specs/, the theorems in proofs/. This crate has no code.
#![tactic(auto)]
