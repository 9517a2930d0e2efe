//! The command that searches for the shortest plan.
#![tactic(auto)]

mod faults;
mod folder;
mod keeping;
mod laws;
mod onward;
mod patience;
mod progress;
mod searches;
mod solve;
mod subtrees;
mod ticker;

pub use faults::told_as;
pub use folder::{Folder, MOST_BESIDE, Made, name_beside};
pub use keeping::{Keeper, Shelf, kept_end};
pub use laws::{gaps_are_met, untils_are_met};
pub use onward::{Continuation, solve_run_on};
pub use patience::{Patience, Patient, is_enough};
pub use planner::{FreeGate, Options, Portion};
pub use progress::{Follower, Progress, Reading, Summary};
pub use searches::{Searches, SearchesReading};
pub use solve::{Asked, Enough, solve_run, solve_run_from, solve_run_with, write_certificate};
pub use ticker::Lines;
