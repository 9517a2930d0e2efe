//! A pool of deques of tasks, one for each worker, from which the others steal.
#![tactic(auto)]

mod account;
mod door;
mod drained;
mod draining;
mod hand;
mod hands;

pub use account::Searched;
pub use drained::Drained;
pub use draining::drain;
pub use hand::Hand;
pub use hands::pool;
pub use search_trees::Task;
