// What a run of the stepping machine answers: document 01, 'A run takes ..'.
use crate::machine::Stop;

// How a run ended: at a stop, or, with none, because all asked steps are done. And the steps completed, and the calls
// among them.
#[derive(Clone, Copy)]
pub struct Ended {
    pub end: Option<Stop>,
    pub steps: u32,
    pub calls: u32,
}
