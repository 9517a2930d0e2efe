//! Closers of loads: which of a node's processes or messages don't fit between their own bounds?
#![tactic(auto)]

mod demands;
mod excess;
mod loads;

pub use loads::{frame_load, node_load};
