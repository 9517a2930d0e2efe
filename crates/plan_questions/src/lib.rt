//! Which plans are there of an instance: is there any, how early can processes end, how much longer may they run, how much later must all
//! end, and why is there none?
#![tactic(auto)]

mod ages;
mod asking;
mod conflicts;
mod cuts;
mod first_plan;
mod late;
mod limits;
mod margins;
mod sought;

pub use ages::{LeastAge, ages_have_certificate_texts, least_age};
pub use asking::Asking;
pub use conflicts::{
    Conflict, FirstAnswer, Need, conflicts_leave_no_plan, first_answer, marked, next_need,
};
pub use cuts::{Cut, LeastNumber, least_number};
pub use instance_variants::{Scale, with_deadlines, with_horizon, with_longer};
pub use late::{Lateness, least_lateness};
pub use limits::{EndLimit, cert_of, least_end, limits_have_certificate_texts, tick_of};
pub use margins::{Margin, greatest_margin, margins_have_certificate_texts};
pub use planner::{FreeGate, Gate, Options, Outcome, SolveFault, solve};
pub use sought::{Sought, any_plan};
