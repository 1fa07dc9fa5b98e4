// Numbers of so many bits: the definitions are in specs/, the facts in proofs/. This crate has no code.
#![tactic(auto)]
