//! Which rule a plan breaks.

use thiserror::Error;

/// One of the five lists of a plan.
#[derive(Clone, Copy, Debug, PartialEq, Eq)]
pub enum PlanPart {
    Order,
    Capacities,
    Starts,
    Rounds,
    Channels,
}

/// The first rule that a plan breaks, in the order of these variants, at the first place by the indices, which
/// begin at 0.
#[derive(Clone, Copy, Debug, PartialEq, Eq, Error)]
pub enum PlanFault {
    /// When a list has not one entry for each node, process or message.
    #[error("a list has a wrong length")]
    WrongLength(PlanPart),
    /// When a position of the order has no node, or one that stands before it.
    #[error("a position of the order is no node, or one that stood before")]
    WrongOrder(u32),
    /// When a node's capacity is none of its options.
    #[error("a node has no such capacity")]
    WrongCapacity(u32),
    /// When a process starts before its release.
    #[error("a process starts before its release")]
    TooEarly(u32),
    /// When a process ends after its deadline or the horizon.
    #[error("a process ends after its deadline or the horizon")]
    TooLate(u32),
    /// When two processes of one node overlap, the first with the lesser index.
    #[error("two processes of one node overlap")]
    Overlap(u32, u32),
    /// When a link's second process starts before its first has ended.
    #[error("a link is broken")]
    BrokenLink(u32),
    /// When a message is not copied out as its slot begins.
    #[error("a message is not ready at its slot")]
    NotReady(u32),
    /// When a receiver, the process named second, starts before a message is copied in.
    #[error("a message arrives after the start of its receiver")]
    NotArrived(u32, u32),
    /// When the messages of a frame, by node and round, exceed its capacity, in a cluster of one channel.
    #[error("a frame is overfull")]
    Overfull(u32, u32),
    /// The same in a cluster of two channels: a frame by node and round, and the channel on which it is overfull.
    #[error("a frame is overfull on a channel")]
    OverfullOn(u32, u32, u32),
    /// When a message is on no channel of the cluster, or is to be on both and isn't.
    #[error("a message is on a channel that it may not be on")]
    WrongChannel(u32),
}
