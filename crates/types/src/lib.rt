// The types that the definitions in specs/ and every crate above share. The definitions are the substance of this
// crate.
#![tactic(auto)]

pub mod addresses;
pub mod code;
pub mod lists;
pub mod machine;
pub mod refusals;
pub mod rules;
pub mod runs;
