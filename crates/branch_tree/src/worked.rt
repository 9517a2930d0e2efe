//! What became of a task?

use search_trees::Task;
use ttp_model::{Kind, Leaf, Plan};

/// What a task was worked into.
#[derive(Drop)]
pub enum Worked {
    /// A branch of its choice, with a task for each child, in order. Takes a goal above the path
    /// bound.
    Split(Kind, Vec<Task>),
    /// A leaf at the goal given: no settled plan of the choice has a smaller delay.
    Closed(Leaf),
    /// Where nothing is left to choose: a settled plan, its delay in ticks, and a leaf whose goal
    /// is below the one given. It is the delay of the choice's earliest plan, before that was
    /// settled.
    Found(Plan, u64, Leaf),
}
