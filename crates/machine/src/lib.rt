// The stepping machine: what a step fetches, what it does by its flow, and the step itself.
#![tactic(auto)]

pub mod commit;
mod fetch;
mod fetched;
mod flows;
mod returning;
pub mod step;
