// The marks of an image, a place in it and the instruction that is read there, each with what was shown of it when it
// was made, so that no function asks for that again.
#![tactic(auto)]

pub mod instruction;
pub mod place;
