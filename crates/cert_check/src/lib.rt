//! Does a certificate prove its bound: one that was read, or the bytes of a reader?
#![tactic(auto)]

mod ahead;
mod batches;
mod beside;
mod fault;
mod judge;
mod leaves;
mod shares;
mod stream;

pub use fault::StreamFault;
pub use leaves::{HeldLeaf, HeldLeaves};
pub use stream::check_stream;
pub use tree_check::{
    CertFault, NodeFault, bounds_are_proved, check, plans_at_the_bound_are_least,
};
