//! Which tree do certificates of one instance make together?
#![tactic(auto)]

mod fault;
mod frame;
mod joined;
mod joining;
mod laws;
mod low;
mod passing;
mod side;
mod standing;
mod telling;

pub use fault::JoinFault;
pub use joined::join_all;
pub use laws::{
    each_part_counts_at_its_leaf, joined_bounds_are_the_greatest, joined_trees_are_right,
    joined_trees_are_trees, least_goals_are_the_bounds, there_are_parts, what_is_told_is_wrong,
};
