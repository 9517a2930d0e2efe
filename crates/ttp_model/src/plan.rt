//! A plan, which may break any rule.

use crate::numbers::Numbers;

/// A plan as a raw table of numbers: it may break any rule, and is tied to no instance.
#[derive(Drop)]
pub struct Plan {
    /// The nodes in the order of their slots.
    pub order: Numbers,
    /// The capacity of each node's frames, in bytes.
    pub caps: Numbers,
    /// When each process starts, in ticks.
    pub starts: Numbers,
    /// In which round each message is sent, from 0.
    pub rounds: Numbers,
    /// On which channel each message is sent: 0, 1, or 2 for both.
    pub channels: Numbers,
}
