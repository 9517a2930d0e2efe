//! The earliest plan of a complete choice, or why it has none.
#![tactic(auto)]

mod answer;
mod clash;
mod earliest_plan;
mod floors;
mod frames;
mod laws;
mod loads;
mod ranks;
mod starts;

pub use answer::Earliest;
pub use clash::Clash;
pub use earliest_plan::earliest;
pub use laws::{clashes_leave_no_plan, reasons_hold_in_each_plan};
