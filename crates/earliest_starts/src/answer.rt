//! What is answered for a complete choice?

use crate::clash::Clash;
use ttp_model::Plan;

/// The answer for a complete choice.
#[derive(Drop)]
pub enum Earliest {
    /// When the choice has a valid plan: the one whose starts are least in every place, with its
    /// delay in ticks.
    Plan(Plan, u64),
    /// When it has none: why. Which of several clashes is told is free.
    Clash(Clash),
}
