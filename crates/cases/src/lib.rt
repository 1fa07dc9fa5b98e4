// Document 01's proved set. The table in specs/ and the theorem over it are the substance of this crate; it has no
// code.
#![tactic(auto)]
