//! One decision on a plan.

/// What a choice has more than the one that it was made from.
#[derive(Clone, Copy, PartialEq, Eq)]
pub enum Decision {
    /// This node comes next in the slot order.
    Place(u32),
    /// The capacity of a node is the one at a place in the list of its options.
    Cap(u32, u32),
    /// The first process goes before the second.
    Before(u32, u32),
    /// A message is sent in this round at most.
    AtMost(u32, u32),
    /// A message is sent in this round at least.
    AtLeast(u32, u32),
    /// A message is on this channel, or on both where it is 2.
    Channel(u32, u32),
}
