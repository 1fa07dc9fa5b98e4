// Bytes at the front of a text or a page, and numbers as digits.
#![tactic(auto)]

pub mod bytes;
pub mod digits;
