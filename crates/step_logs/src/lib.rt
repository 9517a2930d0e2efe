//! Logs of steps by which more is known of the plans of a choice.
#![tactic(auto)]

mod acceleration;
mod checkpoint;
mod copies;
mod journal;
mod propagator;
mod required;
mod standstill;
mod supposition;
mod trim;

pub use journal::Journal;
pub use propagator::Propagator;
pub use standstill::reach;
pub use step_agenda::Agenda;
pub use supposition::Supposition;
pub use trim::closed_leaf;
pub use tt_infer::Facts;
