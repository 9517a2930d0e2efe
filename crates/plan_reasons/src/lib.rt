//! Why is a plan refused? The reason is a value, whose numbers are the model's and whose names are the instance's; `Display` tells it in
//! sentences.
#![tactic(auto)]

mod cycles;
mod delays;
mod differences;
mod forms;
mod frames;
mod late;
mod late_lines;
mod limits;
mod lines;
mod lists;
mod messages;
mod orders;
mod path_causes;
mod path_laws;
mod path_lines;
mod path_parts;
mod plan_laws;
mod plan_lines;
mod plan_links;
mod plan_rounds;
mod plan_starts;
mod processes;
mod reason;
mod runs;

pub use cycles::{Cycle, cycle_of};
pub use delays::{OtherDelay, other_delay};
pub use differences::Difference;
pub use forms::Form;
pub use frames::{FrameMessage, Overfull};
pub use late_lines::{LateProcess, LateProcesses, late_reason};
pub use limits::{Limit, limit_of};
pub use lines::{LineReason, line_reason};
pub use lists::{WrongCapacity, WrongLength, WrongPosition};
pub use messages::{AllowedChannels, NotArrived, NotReady, WrongChannel};
pub use orders::TimesNamed;
pub use path_laws::{
    bounds_past_the_horizon_leave_no_plan, chains_end_at_the_path_bound,
    late_processes_leave_no_plan, one_chain_is_told, parts_are_joined, path_chains_are_short,
    path_chains_begin_at_a_release,
};
pub use path_lines::{PathChain, PathPart, Transfer, path_chain_reason};
pub use path_parts::{ChainPart, path_parts_of};
pub use plan_laws::{
    chains_end_at_the_delay, links_are_joined, plan_chains_are_short,
    plan_chains_begin_at_a_release,
};
pub use plan_lines::{ChainLine, PlanChain, SendingLine, plan_chain_reason};
pub use plan_links::{ChainLink, RoundCause, last_to_end, plan_links_of};
pub use processes::{BrokenLink, Overlap, TooEarly, TooLate};
pub use reason::{PlanReason, reason_of};
pub use runs::{RunLine, StartCause, StartReason, run_line};
