//! Plans that begin anew each period: what holds of all their cycles and of what clocks read in them, how the rounds of a plan lie in a
//! period, which rounds would divide it, and which tables and windows so many rounds have.
#![tactic(auto)]

mod divisors;
mod fits;
mod laws;
pub mod longer;
mod repetition;
mod sums;
mod text;
mod worked;

pub use fits::{Fit, MOST_FITS};
pub use laws::{plans_repeat_for_ever, processes_start_behind_frames};
pub use repetition::{Dividing, Near, Repetition, held_rounds, near_of, repetition_of};
pub use text::{print, put_near};
pub use ttp_model::MemoryFault;
pub use worked::{pair_that_repeats, trail_below_the_precision};
