//! Why a cluster of several rates is refused.

use thiserror::Error;

/// One of its five lists.
#[derive(Clone, Copy, Debug)]
pub enum RatesPart {
    Nodes,
    Processes,
    Links,
    Messages,
    Chains,
}

/// One of its tables: the cluster's, or one of a list with its index.
#[derive(Clone, Copy, Debug)]
pub enum RatesPlace {
    AtCluster,
    AtNode(u32),
    AtProcess(u32),
    AtLink(u32),
    AtMessage(u32),
    AtChain(u32),
}

/// The first rule that tables break, at the first place, in the order of these variants. Places stand in the
/// order cluster, nodes, processes, links, messages, chains, and indices begin at 0.
#[derive(Clone, Copy, Debug, Error)]
pub enum RatesError {
    /// When a list has too few or too many entries.
    #[error("a list has too few or too many entries")]
    Length(RatesPart),
    /// When a message has no receiver.
    #[error("a message has no receiver")]
    NoReceiver(u32),
    /// When a chain leads through too few or too many processes.
    #[error("a chain leads through too few or too many processes")]
    Through(u32),
    /// When a name is malformed.
    #[error("a name is malformed")]
    NameForm(RatesPlace),
    /// When an earlier one of its list has the name.
    #[error("a name stands twice in a list")]
    NameRepeated(RatesPlace),
    /// When a node or a process that is named by its index is not there.
    #[error("an index is named that is not there")]
    NoSuchIndex(RatesPlace),
    /// When a period, an age, a delay, what storing takes or the round that is asked for is outside its range.
    #[error("a number is outside its range")]
    OutOfRange(RatesPlace),
    /// When a process that starts at its release misses its deadline, or its deadline is behind its period.
    #[error("a process has no room in its period")]
    NoRoom(u32),
    /// When the process at this place of a chain, by its index from 0, reads nothing of the one before it.
    #[error("a process of a chain reads nothing of the one before it")]
    NothingRead(u32, u32),
    /// When the slots take longer than the round that is asked for, with the ticks of both.
    #[error("the slots take longer than a round is to have")]
    ShortRound(u128, u32),
    /// When the least common multiple of all periods is above 1,000,000 ticks.
    #[error("the periods begin together too seldom")]
    LongCycle,
    /// When a round takes longer than a cycle, with the ticks of both.
    #[error("a round is longer than a cycle")]
    LongRound(u128, u32),
}
