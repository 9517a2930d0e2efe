//! What of a choice and its goal does a step read, beside what is known?

/// Something that a choice and its goal give, and that no step sharpens.
#[derive(Clone, Copy)]
pub enum Limit {
    /// The tick below which delays are sought.
    Goal,
    /// When the slot of a node begins and ends at least, in each round.
    LeastSlot(u32),
    /// When it begins and ends at most.
    GreatestSlot(u32),
    /// The least capacity of a node, and so the least duration of its slot.
    LeastFrame(u32),
    /// The greatest capacity of a node.
    GreatestFrame(u32),
    /// Which nodes stand in front of one in the order.
    Place(u32),
    /// In how many halves of a frame a message is at least: in two where it is fixed to both channels.
    Copies(u32),
    /// Whether a message is fixed to a channel, or to both.
    Counted(u32, u32),
}
