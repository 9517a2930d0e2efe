//! Settled plans: those that no small change makes earlier or tidier.
#![tactic(auto)]

mod changes;
mod laws;
mod passes;
mod rounds;
mod settling;
mod starts;
mod swaps;
mod turns;

pub use laws::{
    a_settled_plan_is_reached, moves_keep_the_delay, moves_lead_down, moves_lower_the_weight,
    one_channel_turns_no_frame, weights_end,
};
pub use settling::settle;
pub use tt_moves::{silent_twins, twins};
