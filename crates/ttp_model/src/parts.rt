//! What an instance is made of. The model is that of Pop, Eles and Peng (CODES 1999): nodes that share one bus by
//! TDMA, processes mapped to them, and messages between them.

use crate::name::Name;
use crate::numbers::Numbers;

/// The numbers of a cluster, in ticks but for the channels.
#[derive(Clone, Copy, PartialEq, Eq)]
pub struct Cluster {
    /// The greatest difference between any two clocks, 0 to 10,000.
    pub precision: u32,
    /// From a slot's start to its frame's, 0 to 10,000 and at least twice the precision.
    pub lead: u32,
    /// From a frame's end to its slot's, 0 to 10,000 and at least the precision.
    pub trail: u32,
    /// What a frame takes beside its bytes, 1 to 10,000.
    pub head: u32,
    /// What each byte of its capacity takes, 1 to 1,000.
    pub per_byte: u32,
    /// From a sender's end until its message can be sent, 0 to 10,000.
    pub copy_out: u32,
    /// From a slot's end until a receiver has the message, 0 to 10,000.
    pub copy_in: u32,
    /// The latest end of any process, 1 to 1,000,000.
    pub horizon: u32,
    /// How many channels the bus has: 1 or 2.
    pub channels: u32,
}

/// A node of the cluster.
#[derive(Drop, PartialEq)]
pub struct Node {
    pub name: Name,
    /// What its frame may hold, in bytes: 1 to 8 options, strictly rising, each 0 to 1,000.
    pub capacities: Numbers,
}

/// A process on a node.
#[derive(Drop, PartialEq)]
pub struct Process {
    pub name: Name,
    /// The node's index, from 0.
    pub node: u32,
    /// The worst-case execution time, 1 to 1,000,000 ticks.
    pub wcet: u32,
    /// The earliest start, 0 to 1,000,000 ticks.
    pub release: u32,
    /// The latest end, 1 to 1,000,000 ticks and at least release and wcet together.
    pub deadline: u32,
}

/// Of two processes of one node, by their indices, one ends before the other starts.
#[derive(Clone, Copy, PartialEq, Eq)]
pub struct Link {
    pub before: u32,
    pub after: u32,
}

/// A message from a process to processes on other nodes, which its sender's node sends once.
#[derive(Drop, PartialEq)]
pub struct Message {
    pub name: Name,
    /// The sending process's index, from 0.
    pub sender: u32,
    /// The receiving processes' indices, each once.
    pub receivers: Numbers,
    /// How much of its frame it takes, 1 to 1,000 bytes.
    pub bytes: u32,
    /// Whether it is to be on both channels; a cluster of one channel has no such message.
    pub both: bool,
}

/// The tables that an instance is made of, before they are judged.
#[derive(Drop)]
pub struct Parts {
    pub cluster: Cluster,
    pub nodes: Vec<Node>,
    pub processes: Vec<Process>,
    pub links: Vec<Link>,
    pub messages: Vec<Message>,
}
