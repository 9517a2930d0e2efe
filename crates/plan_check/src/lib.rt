//! Whether a plan is valid, and which rule it breaks first if it isn't.
#![tactic(auto)]

mod channels;
mod frames;
mod judge;
mod lists;
mod messages;
mod processes;

pub use judge::check;
pub use ttp_model::{PlanFault, PlanPart};
