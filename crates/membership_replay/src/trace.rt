//! What is told of a replay?

use crate::state::NodeState;
use std::marker::Model;

/// Something that a node does in a slot of another.
#[derive(Clone, Copy, PartialEq, Eq)]
pub enum Event {
    /// The node learns that its own frame was received.
    Ack(u32),
    /// It may not have been received.
    Doubt(u32),
    /// It takes itself out of its vector, for good.
    Leave(u32),
    /// The first node takes the second out of its vector.
    Drop(u32, u32),
    /// The message is delivered at the node.
    Deliver(u32, u32),
}

/// Events one after another, which contracts see as that list.
#[derive(Drop)]
pub struct Events {
    items: Vec<Event>,
}

impl Model for Events {
    ghost use Rattle.std.specs.Prelude.{List};
    ghost use Rattle.membership_replay.specs.declared.trace.Event.{Event};

    ghost Value = { List Event };

    ghost view = { λ s. s.items.items };
}

impl Events {
    ghost use Rattle.std.specs.Prelude.{◌≡◌};

    /// The events of a vector. Takes no memory.
    pub fn new(items: Vec<Event>) -> Self
        ensures { result ≡ items.items }
    {
        Events { items }
    }

    /// The events, one after another.
    pub fn as_slice(&self) -> &[Event]
        ensures { result.now ≡ self.now }
    {
        self.items.as_slice()
    }
}

/// One slot of a replay.
#[derive(Drop)]
pub struct Slot {
    /// The round, from 0.
    pub round: u32,
    /// The position in the order, from 0.
    pub position: u32,
    /// The node whose slot it is, by its index in the instance.
    pub sender: u32,
    /// Whether it sent.
    pub sent: bool,
    /// What the others did, in the order of their indices.
    pub events: Events,
}

/// What membership did in one cycle.
#[derive(Drop)]
pub struct Trace {
    slots: Vec<Slot>,
    states: Vec<NodeState>,
}

impl Model for Trace {
    ghost use Rattle.membership_replay.specs.Trace.{Trace};

    ghost Value = { Trace };

    ghost view = { λ s. record { slots = s.slots.items; states = s.states.items } };
}

impl Trace {
    ghost use Rattle.std.specs.Prelude.{◌≡◌};
    ghost use Rattle.membership_replay.specs.Trace.{Trace};

    /// A trace of slots, and of what all know at the end. Takes no memory.
    pub(crate) fn new(slots: Vec<Slot>, states: Vec<NodeState>) -> Self
        ensures { result ≡ record { slots = slots.items; states = states.items } }
    {
        Trace { slots, states }
    }

    /// The slots of the cycle, in order of time.
    pub fn slots(&self) -> &[Slot]
        ensures { result.now ≡ self.now.slots }
    {
        self.slots.as_slice()
    }

    /// What each node knows at the end, by its index.
    pub fn states(&self) -> &[NodeState]
        ensures { result.now ≡ self.now.states }
    {
        self.states.as_slice()
    }
}
