//! What does a node's table say of one slot?

ghost use Rattle.std.specs.Prelude.{◌≡◌};

use std::marker::Model;

/// A message of a frame on a channel.
#[derive(Clone, Copy, PartialEq, Eq)]
pub struct Entry {
    /// The message, by its index in the instance.
    pub message: u32,
    /// The channel.
    pub channel: u32,
    /// Where its bytes begin in the frame, from 0: behind those of all messages before it on that channel.
    pub offset: u32,
}

/// Messages of a frame, channel by channel and on each in the instance's order, which contracts see as that list.
#[derive(Drop)]
pub struct Entries {
    items: Vec<Entry>,
}

impl Model for Entries {
    ghost use Rattle.std.specs.Prelude.{List};
    ghost use Rattle.medl_tables.specs.declared.row.Entry.{Entry};

    ghost Value = { List Entry };

    ghost view = { λ s. s.items.items };
}

impl Entries {
    /// The entries of a vector. Takes no memory.
    pub fn new(items: Vec<Entry>) -> Self
        ensures { result ≡ items.items }
    {
        Entries { items }
    }

    /// The entries, one after another.
    pub fn as_slice(&self) -> &[Entry]
        ensures { result.now ≡ self.now }
    {
        self.items.as_slice()
    }
}

/// One slot of the cycle, as one node's table tells it.
#[derive(Drop)]
pub struct Row {
    /// The round, from 0.
    pub round: u32,
    /// The position of the slot in the order, from 0.
    pub position: u32,
    /// The node that sends in it, by its index in the instance.
    pub sender: u32,
    /// How many bytes the frame may carry.
    pub capacity: u32,
    /// The frame's messages: all of them in the sender's own table, in another node's those with a
    /// receiver on it. A message that is on both channels stands there twice.
    pub messages: Entries,
}
