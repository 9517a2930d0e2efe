//! Why an instance is refused.

use crate::numbers::Numbers;
use std::alloc::{AllocError, AllocFailed};
use thiserror::Error;

/// One of the four lists of an instance.
#[derive(Clone, Copy, Debug)]
pub enum Part {
    Nodes,
    Processes,
    Links,
    Messages,
}

/// A table of an instance: the cluster's, or one of a list with its index.
#[derive(Clone, Copy, Debug)]
pub enum Place {
    AtCluster,
    AtNode(u32),
    AtProcess(u32),
    AtLink(u32),
    AtMessage(u32),
}

/// Memory was wanted, and refused.
#[derive(Clone, Copy, Debug, PartialEq, Eq, Error)]
#[error("out of memory")]
pub struct MemoryFault;

impl From<AllocError> for MemoryFault {
    fn from(_error: AllocError) -> MemoryFault {
        MemoryFault
    }
}

impl<T: Drop> From<AllocFailed<T>> for MemoryFault {
    fn from(_error: AllocFailed<T>) -> MemoryFault {
        MemoryFault
    }
}

/// The first rule that tables break, at the first place, in the order of these variants. Places stand in the
/// order cluster, nodes, processes, links, messages, and indices begin at 0.
#[derive(Debug, Drop, Error)]
pub enum ModelError {
    /// When a list has too few or too many entries.
    #[error("a list has too few or too many entries")]
    Length(Part),
    /// When a message has no receiver.
    #[error("a message has no receiver")]
    NoReceiver(u32),
    /// When a name is malformed.
    #[error("a name is malformed")]
    NameForm(Place),
    /// When an earlier one of its list has the name.
    #[error("a name stands twice in a list")]
    NameRepeated(Place),
    /// When a node or a process that is named by its index is not there.
    #[error("an index is named that is not there")]
    NoSuchIndex(Place),
    /// When a number is outside its range; a node's capacities are judged apart.
    #[error("a number is outside its range")]
    OutOfRange(Place),
    /// When a node's capacities are none, too many, too large or not strictly rising.
    #[error("a node's capacities are not allowed")]
    Capacities(u32),
    /// When a message has a receiver on its sender's node.
    #[error("a message has a receiver on its sender's node")]
    ReceiverOnSender(u32),
    /// When the lead is below twice the precision.
    #[error("the lead is below twice the precision")]
    ShortLead,
    /// When the trail is below the precision.
    #[error("the trail is below the precision")]
    ShortTrail,
    /// When a process that starts at its release misses its deadline.
    #[error("a process cannot meet its deadline")]
    Deadline(u32),
    /// When a link is from a process to itself, or between two nodes.
    #[error("a link is not between two processes of one node")]
    LinkAcross(u32),
    /// When a receiver stands twice in a message.
    #[error("a message has a receiver twice")]
    ReceiverTwice(u32),
    /// When processes wait for each other: each leads to the next and the last to the first, by a link or a
    /// message. The least index stands first; which cycle is told, of several, is free.
    #[error("processes wait for each other")]
    Cycle(Numbers),
    /// When a message is to be on both channels of a cluster that has one.
    #[error("a message is to be on both channels of one")]
    BothOfOne(u32),
    /// When memory was wanted and refused.
    #[error("out of memory")]
    OutOfMemory,
}

impl From<AllocError> for ModelError {
    ghost use Rattle.std.specs.Prelude.{◌≡◌};
    ghost use Rattle.ttp_model.specs.declared.error.ModelError.TheVariants.{OutOfMemory};

    ghost from_gives = { λ _ e. e ≡ OutOfMemory };

    fn from(_error: AllocError) -> ModelError {
        ModelError::OutOfMemory
    }
}
