//! What a cluster of several rates is made of.

use ttp_model::{Name, Numbers};

/// The numbers of a cluster, in ticks but for the channels.
#[derive(Clone, Copy, PartialEq, Eq)]
pub struct RatesCluster {
    /// The greatest difference between any two clocks.
    pub precision: u32,
    /// From a slot's start to its frame's.
    pub lead: u32,
    /// From a frame's end to its slot's.
    pub trail: u32,
    /// What a frame takes beside its bytes.
    pub head: u32,
    /// What each byte of its capacity takes.
    pub per_byte: u32,
    /// From a sender's end until its message can be sent.
    pub copy_out: u32,
    /// From a slot's end until a receiver has the message.
    pub copy_in: u32,
    /// How many channels the bus has.
    pub channels: u32,
    /// How long a node takes to store a message for the next cycle, 1 to 1,000,000.
    pub store: u32,
    /// How long a round is to be, where that is asked for: 1 to 1,000,000 ticks of the text.
    pub round: Option<u32>,
    /// How many of all other ticks make one of the text: 1, unless the share of each slot wants them finer.
    pub finer: u32,
}

/// A node of the cluster.
#[derive(Drop, PartialEq)]
pub struct RatesNode {
    pub name: Name,
    /// What its frame holds, in bytes.
    pub capacity: u32,
}

/// A process on a node, with a job in each of its periods.
#[derive(Drop, PartialEq)]
pub struct RatesProcess {
    pub name: Name,
    /// The node's index, from 0.
    pub node: u32,
    /// The worst-case execution time, in ticks.
    pub wcet: u32,
    /// The ticks from the begin of one period to that of the next, 1 to 1,000,000.
    pub period: u32,
    /// The earliest start, from the begin of the period.
    pub release: u32,
    /// The latest end, from the begin of the period and within it.
    pub deadline: u32,
}

/// What one process reads of another of its node.
#[derive(Clone, Copy, PartialEq, Eq)]
pub struct RatesLink {
    pub before: u32,
    pub after: u32,
    /// Whether the value of the last period that has begun is read, or with 1 that of the one before.
    pub delay: u32,
}

/// A message from a process to processes on other nodes.
#[derive(Drop, PartialEq)]
pub struct RatesMessage {
    pub name: Name,
    /// The sending process's index, from 0.
    pub sender: u32,
    /// The receiving processes' indices.
    pub receivers: Numbers,
    /// How much of its frame it takes.
    pub bytes: u32,
    /// Whether it is to be on both channels.
    pub both: bool,
    /// Whether the value of the last period that has begun is read, or with 1 that of the one before.
    pub delay: u32,
}

/// Processes each of which reads what the one before it makes, with a bound on how old that may be at the end.
#[derive(Drop, PartialEq)]
pub struct Chain {
    pub name: Name,
    /// The processes' indices, from the first: 2 to 32.
    pub through: Numbers,
    /// From the release of the first one's job to the end of the last one's that carries its value: 1 to 1,000,000 ticks.
    pub age: u32,
}

/// The tables of a cluster of several rates, before they are judged.
#[derive(Drop)]
pub struct RatesParts {
    pub cluster: RatesCluster,
    pub nodes: Vec<RatesNode>,
    pub processes: Vec<RatesProcess>,
    pub links: Vec<RatesLink>,
    pub messages: Vec<RatesMessage>,
    pub chains: Vec<Chain>,
}
