//! What does a worker report?

use crate::found::FoundPlan;
use branch_tree::{Piece, Task};
use certificate::Node;
use incumbent::Watch;
use steal_pool::{Hand, Searched};

/// What a worker that ended had in hand.
#[derive(Drop)]
pub enum Rest {
    Nothing,
    /// A task that it took and didn't work.
    One(Task),
    /// Children of the task that it worked last, which it didn't push.
    Children(Vec<Task>),
}

/// Why a worker ended.
#[derive(Clone, Copy, PartialEq, Eq)]
pub enum Ending {
    /// It worked as many tasks as its budget allows.
    Budget,
    /// Memory was refused.
    Memory,
    /// It found no task for long, or left a million one after another.
    Idle,
    /// The gate said that it doesn't go on.
    CalledOff,
    /// The gate said that it is late.
    Late,
}

/// What a worker gives back.
#[derive(Drop)]
pub struct Report<J: Searched> {
    pub hand: Hand<J>,
    pub watch: Watch,
    /// What became of the tasks that it worked, in that order.
    pub pieces: Vec<Piece>,
    /// Room for the nodes of a certificate; nothing is in it.
    pub room: Vec<Node>,
    /// The best plan that it found.
    pub best: Option<FoundPlan>,
    pub rest: Rest,
    /// Tasks that it took and didn't work, since a branch above them is proved without them; none in a plain search.
    pub spared: Vec<Task>,
    /// How many tasks it worked.
    pub worked: u64,
    pub ending: Ending,
}
