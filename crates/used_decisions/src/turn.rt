//! What is told of a decision on a path?

use tt_choice::Decision;

/// A decision, and the level of the branch that it is of.
#[derive(Clone, Copy)]
pub struct Turn {
    pub decision: Decision,
    pub level: u32,
}

/// A node of the slot order, and the branch that placed it.
#[derive(Clone, Copy)]
pub struct Placed {
    pub node: u32,
    pub level: u32,
}

/// A bound on the rounds of a message, and the branch that set it.
#[derive(Clone, Copy)]
pub struct Cut {
    pub round: u32,
    pub level: u32,
}

/// The channel of a message, 2 for both, and the branch that fixed it.
#[derive(Clone, Copy)]
pub struct OnChannel {
    pub channel: u32,
    pub level: u32,
}
