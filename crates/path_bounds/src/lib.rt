//! Bounds on the plans of a choice, with the steps that lead to them.
#![tactic(auto)]

mod goals;
mod propagation;
mod reached;

pub use goals::{best_goal, leaf_by};
pub use plan_facts::path_bound;
pub use propagation::propagate;
pub use reached::Reached;
pub use step_logs::{Agenda, Facts, Propagator, Supposition, closed_leaf};
