// Rules for walks: proofs by hand, in the program logic, of functions over a struct that holds references. They stand
// in proofs/ and say nothing of any one struct; this crate has no code.
#![tactic(auto)]
