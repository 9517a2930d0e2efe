//! The tree of choices that a search goes through: its subtrees as tasks, and what became of each.
#![tactic(auto)]

mod branching;
mod examples;
mod failures;
mod finding;
mod laws;
mod lessons;
mod tries;
mod workbench;
mod worked;
mod working;

pub use examples::{one_message_in_round_0, one_message_in_round_1};
pub use laws::{clashes_are_closed_by_their_closers, plans_are_closed_up_to_their_delay};
pub use search_trees::{Agenda, Name, Piece, Task, names_stand_once, one_choice_stands};
pub use workbench::Workbench;
pub use worked::Worked;
pub use working::{close_left, close_left_by, is_closed_below, root_bound, work, work_on};
