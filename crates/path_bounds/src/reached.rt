//! What does a propagation come to?

use step_logs::Facts;

/// Where the steps of a propagation lead.
#[derive(Drop)]
pub enum Reached<'a> {
    /// No plan of the choice has a delay below the goal.
    Closed,
    /// Some may: what is known of them.
    At(Facts<'a>),
}
