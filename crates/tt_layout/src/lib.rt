//! When the slots of a plan begin and end, and how many rounds its cycle has.
#![tactic(auto)]

mod cycle;
mod laws;
mod layout;

pub use cycle::cycle_rounds;
pub use laws::slots_are_apart;
pub use layout::Layout;
