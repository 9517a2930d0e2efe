//! Choices: what of a plan is settled so far.
#![tactic(auto)]

mod choice;
mod decision;
mod laws;
mod precedence;
mod reversal;
mod worked;

pub use choice::{Choice, decision_at, is_of_places};
pub use decision::Decision;
pub use laws::{
    children_share_the_plans, decisions_are_taken_back, decisions_lead_to_the_children,
    kept_decisions_say_alike, sums_are_the_extremes, the_only_channel_is_fixed,
    unplaced_nodes_are_the_rest,
};
pub use precedence::Precedence;
pub use reversal::Reversal;
pub use worked::{
    a_channel_is_fixed_and_freed, one_message_is_decided_and_undone, three_alike_may_be_ordered,
};
