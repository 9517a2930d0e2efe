//! Which frames are lost, and where?

/// A frame that one node doesn't receive.
#[derive(Clone, Copy, PartialEq, Eq)]
pub struct Loss {
    /// The round of its slot, from 0.
    pub round: u32,
    /// The position of its slot in the order, from 0.
    pub slot: u32,
    /// The node that doesn't receive it, by its index in the instance.
    pub receiver: u32,
}
