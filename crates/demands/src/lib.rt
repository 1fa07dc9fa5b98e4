// The customer's three conditions of acceptance. The page in specs/ and its theorems are the substance of this crate;
// it has no code.
#![tactic(auto)]
