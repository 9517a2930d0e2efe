//! What takes a decision back.

/// How a choice becomes again what it was before a decision: with what stood there, where the decision doesn't tell.
#[derive(Clone, Copy, PartialEq, Eq)]
pub enum Reversal {
    /// The last node of the slot order is placed no more.
    Unplace,
    /// The capacity of this node is free again.
    Free(u32),
    /// One process goes before another no more.
    Unorder {
        first: u32,
        second: u32,
        /// How many pairs of processes of one node were in neither order.
        unordered: u32,
    },
    /// The greatest round of a message is this one again.
    Most(u32, u32),
    /// The least round of a message is this one again.
    Least(u32, u32),
    /// The channel of this message is free again.
    FreeChannel(u32),
}
