//! Does a certificate prove its bound?
#![tactic(auto)]

mod fault;
mod laws;
mod leaf;
mod tree;
mod walk;

pub use fault::{CertFault, NodeFault};
pub use laws::{
    bounds_are_proved, one_channel_needs_no_other_version, plans_at_the_bound_are_least,
};
pub use leaf::judge_leaf;
pub use tree::check;
pub use walk::Walk;
