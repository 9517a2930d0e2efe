//! A search by several workers, as plain data and events one after another.
#![tactic(auto)]

mod brood;
mod event;
mod hand;
mod laws;
mod reply;
mod worked;
mod worker;
mod world;

pub use brood::Brood;
pub use event::{Event, Worked};
pub use hand::Hand;
pub use laws::{accounts_balance, bounds_hold, names_are_a_tree, pieces_are_right};
pub use reply::{Illegal, Reply};
pub use worked::one_message_is_searched;
pub use worker::Worker;
pub use world::World;
