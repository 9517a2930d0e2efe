//! What moves keep: which processes and nodes are twins, and which changes of a plan leave it valid.
#![tactic(auto)]

mod exchanges;
mod laws;

pub use exchanges::{silent_twins, twins};
pub use laws::{
    earlier_rounds_stay_valid, earlier_starts_stay_valid, exchanged_silent_twins_stay_valid,
    exchanged_twins_stay_valid, turned_frames_stay_valid, turned_frames_weigh_one_less,
};
