// Choices, searches, joined lists, tables and lists of bytes: general definitions in specs/, their laws in proofs/.
// This crate has no code.
#![tactic(auto)]
