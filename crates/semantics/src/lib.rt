// Memory, addressing, what each operation does, and one step.
// The definitions are in specs/, the theorems in proofs/. This crate has no code.
#![tactic(auto)]
