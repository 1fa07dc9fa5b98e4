// What the rules of acceptance speak of: what a start owes its successors, and the check's answer.
use crate::refusals::Refused;

// At an address stands a start with this mark.
#[derive(Clone, Copy)]
pub struct Requirement {
    pub address: u32,
    pub mark: u8,
}

// What a start owes: nothing, or one or two requirements. By value, for the library has no heap.
#[derive(Clone, Copy)]
pub enum Requirements {
    Nothing,
    One(Requirement),
    Two(Requirement, Requirement),
}

// The check's answer: accepted, or the first rule that is broken, and its offset.
pub type Verdict = Result<(), Refused>;
