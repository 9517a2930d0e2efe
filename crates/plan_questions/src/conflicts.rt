//! Which constraints of an instance leave no plan by themselves, and which of them can't be left out?

mod carrying;
mod conflict;
mod first;
mod laws;
mod leaving;
mod mentions;
mod needs;
mod renumbered;
mod searched;
mod turning;

pub use conflict::Conflict;
pub use first::{FirstAnswer, first_answer};
pub use laws::conflicts_leave_no_plan;
pub use leaving::next_need;
pub use needs::{Need, marked};
