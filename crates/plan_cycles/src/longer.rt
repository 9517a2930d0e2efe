//! Node tables and guardian windows of so many rounds, those of a plan's cycle and more behind them.

mod laws;
mod tables;
mod text;
mod windows;

pub use laws::{cycles_of_their_own_rounds, rounds_behind_the_cycle_are_empty};
pub use text::{MOST_SLOTS, print, too_many_slots};
pub use ttp_model::MemoryFault;
