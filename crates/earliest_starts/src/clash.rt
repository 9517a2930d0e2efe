//! Why has a complete choice no valid plan?

use ttp_model::Numbers;

/// What rules out each valid plan of a complete choice.
#[derive(Drop)]
pub enum Clash {
    /// When processes of one node wait for each other: each goes ahead of the next, and the last
    /// of the first, by the choice or by a link. There are two or three.
    Cycle(Numbers),
    /// When this message can't be copied out before its slot begins.
    Round(u32),
    /// When this process can't end by its deadline and within the horizon.
    Window(u32),
    /// When the messages of this node's frame in this round don't fit into its capacity on this channel.
    Frame(u32, u32, u32),
}
