//! What each node is told of a plan: who sends in each slot, and what the frames carry for it.
#![tactic(auto)]

mod medl;
mod row;
mod rows;
mod text;
mod worked;

pub use medl::Medl;
pub use row::{Entries, Entry, Row};
pub use text::{print, print_node};
pub use ttp_model::MemoryFault;
pub use worked::rows_of_two_channels;
