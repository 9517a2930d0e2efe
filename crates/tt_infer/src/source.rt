//! What does a step read, of what is known and of what a choice gives?

use crate::fact::Fact;
use crate::limit::Limit;
use ttp_model::Ring;

/// Something that a step reads.
#[derive(Clone, Copy)]
pub enum Source<'a> {
    /// A fact.
    Learnt(Fact),
    /// A limit.
    Fixed(Limit),
    /// How long a process may have to wait for others of its node, and for the messages to it.
    Waits(u32),
    /// Which of the processes of a ring go before their neighbours by nothing but what is known.
    Circle(&'a Ring),
    /// When the processes of a node start and end that have to run from one tick to another.
    Runs(u32, u32, u32),
    /// In which rounds and how often the messages of a node are sent that have to go out from one round on and before another, and the
    /// bytes of its frame.
    Frames(u32, u32, u32),
    /// The same of those that are fixed to a channel: the channel, the node and the rounds.
    Halves(u32, u32, u32, u32),
    /// Whether a message could be sent in an earlier round: its sender, its slot, and what keeps others of its node out of that round.
    Earlier(u32, u32),
    /// On which channels a message is, and the lower ones of its node that aren't in other rounds.
    Lower(u32),
}

/// What a step reads.
#[derive(Clone, Copy)]
pub enum Reads<'a> {
    Nothing,
    One(Source<'a>),
    Two(Source<'a>, Source<'a>),
}
