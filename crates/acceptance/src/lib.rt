// Image, marks, the rules of acceptance, the verdict, and what each of its numbers means.
// The definitions are in specs/, the theorems in proofs/. This crate has no code.
#![tactic(auto)]
