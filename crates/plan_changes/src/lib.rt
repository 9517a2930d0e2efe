//! What a change of an instance and its plan touches: which nodes are loaded otherwise, and what is different of the plan.
#![tactic(auto)]

mod attributes;
mod changes;
mod dispatch;
mod fate;
mod figures;
mod laws;
mod names;
mod planned;
mod units;

pub use changes::{Changes, changes_of};
pub use fate::Fate;
pub use laws::{
    each_node_is_told_once, same_is_by_what_is_loaded, what_is_compared_with_itself_is_unchanged,
};
pub use planned::Planned;
pub use ttp_model::MemoryFault;
