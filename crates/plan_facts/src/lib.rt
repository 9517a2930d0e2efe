//! The facts of a plan that more than one crate asks for: how early its processes can start and its messages be sent, what
//! lies in its frames, and by when its processes have to end.
#![tactic(auto)]

mod chains;
mod ends;
mod frames;
mod messages;
mod rounds;
mod starts;

pub use chains::{least_transfer, longest_chains, path_bound};
pub use ends::{late_by, must_end_by};
pub use frames::{load_on, messages_on};
pub use messages::{arrival, first_in_time, ready_at};
pub use rounds::first_room;
pub use starts::first_start;
pub use ttp_model::MemoryFault;
