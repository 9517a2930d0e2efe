//! Which branch of a path decided what?

ghost use Rattle.std.specs.Prelude.{◌≡◌, ◌<◌, ◌++◌, ◌==◌, ◌∷◌, [], length, IfOk, OnOk, OnErr, IfSome, position};
ghost use Rattle.tt_choice.specs.Kept.{sets_least, sets_greatest, sets_order, fixes_above, fixes_below};
ghost use Rattle.used_decisions.specs.Turns.{last_of, level_of, cut_of, fixes_any, on_channel_of, placed_of, path_after, path_above, nodes_of};

use crate::levels::Levels;
use crate::tables::{Stood, Tables, item_at, order_place};
use crate::turn::{Cut, OnChannel, Placed, Turn};
use std::alloc::Global;
use std::marker::Model;
use tt_choice::{Decision, decision_at, is_of_places};
use ttp_model::{BOTH_CHANNELS, Instance, Kind, MemoryFault};

/// A decision, and what stood in its place.
#[derive(Clone, Copy)]
pub struct Taken {
    pub turn: Turn,
    pub stood: Stood,
}

/// The decisions of a path, each with the level of its branch. Of those on the least round of a message, or on its greatest, the
/// last one counts.
#[derive(Drop)]
pub struct Path<'a> {
    instance: &'a Instance,
    tables: Tables,
    /// The first first.
    taken: Vec<Taken>,
}

impl<'a> Model for Path<'a> {
    ghost use Rattle.used_decisions.specs.Turns.{Path};
    ghost use Rattle.used_decisions.specs.Tables.{IsPath, turns_of};

    ghost Value = { Path };

    ghost view = { λ s. record { instance = s.instance.now; turns = turns_of s.taken.items } };

    ghost invariant = { λ s. IsPath s.instance.now s.tables s.taken.items };
}

impl<'a> Path<'a> {
    /// The path to the root.
    pub fn new(alloc: Global, instance: &'a Instance) -> Result<Path<'a>, MemoryFault>
        ensures { IfOk result (λ path. path ≡ record { instance = instance.now; turns = [] }) }
    {
        Ok(Path {
            instance,
            tables: Tables::new(alloc, instance)?,
            taken: Vec::new(alloc),
        })
    }

    pub fn instance(&self) -> &'a Instance
        ensures { result.now ≡ self.now.instance }
    {
        self.instance
    }

    /// The slot order, as far as it is decided.
    pub fn order(&self) -> &[Placed]
        ensures { result.now ≡ placed_of self.now.turns }
    {
        self.tables.order.as_slice()
    }

    /// The branch that fixed a node's capacity above the least option.
    pub fn above_least(&self, n: u32) -> Option<u32>
        ensures { n < length self.now.instance.nodes
            → result ≡ level_of (last_of (fixes_above n) self.now.turns) }
    {
        item_at(self.tables.above_least.as_slice(), n as usize)
    }

    /// The branch that fixed a node's capacity below the greatest option.
    pub fn below_most(&self, n: u32) -> Option<u32>
        ensures { n < length self.now.instance.nodes
            → result ≡ level_of (last_of (fixes_below self.now.instance n) self.now.turns) }
    {
        item_at(self.tables.below_most.as_slice(), n as usize)
    }

    /// The branch that put a process before another.
    pub fn before(&self, p: u32, q: u32) -> Option<u32>
        ensures { p < length self.now.instance.processes → q < length self.now.instance.processes
            → result ≡ level_of (last_of (sets_order p q) self.now.turns) }
    {
        item_at(
            self.tables.before.as_slice(),
            order_place(self.instance, p, q),
        )
    }

    /// A message's least round, where a branch decided it.
    pub fn least(&self, m: u32) -> Option<Cut>
        ensures { m < length self.now.instance.messages
            → result ≡ cut_of (last_of (sets_least m) self.now.turns) }
    {
        item_at(self.tables.least.as_slice(), m as usize)
    }

    /// A message's greatest round, where a branch decided it.
    pub fn greatest(&self, m: u32) -> Option<Cut>
        ensures { m < length self.now.instance.messages
            → result ≡ cut_of (last_of (sets_greatest m) self.now.turns) }
    {
        item_at(self.tables.greatest.as_slice(), m as usize)
    }

    /// A message's channel, where a branch decided it.
    pub fn channel(&self, m: u32) -> Option<OnChannel>
        ensures { m < length self.now.instance.messages
            → result ≡ on_channel_of (last_of (fixes_any m) self.now.turns) }
    {
        item_at(self.tables.channels.as_slice(), m as usize)
    }

    /// How many nodes stand in front of one in the order, where it is placed.
    pub fn place_of(&self, n: u32) -> Option<usize>
        ensures value { result ≡ position (λ one. one.node == n) (placed_of self.now.turns) }
        ensures within { IfSome result (λ k. k < length (placed_of self.now.turns)) }
    {
        self.order().iter().position(|placed| placed.node == n)
    }

    /// The first node that isn't placed, from this one on.
    fn unplaced_from(&self, n: u32) -> Option<u32> {
        let count = self.instance.nodes().len() as u32;
        for k in n..count {
            if self.place_of(k).is_none() {
                return Some(k);
            }
        }
        None
    }

    /// The decision that leads to a branch's first child.
    pub fn first_decision(&self, kind: Kind) -> Option<Decision> {
        let node = if is_of_places(kind) {
            self.unplaced_from(0)
        } else {
            None
        };
        decision_at(kind, 0, node)
    }

    /// The decision that leads to the child beside that of another decision.
    pub fn decision_beside(&self, decision: Decision) -> Option<Decision> {
        match decision {
            Decision::Place(n) => Some(Decision::Place(self.unplaced_from(n.saturating_add(1))?)),
            Decision::Cap(n, k) => Some(Decision::Cap(n, k.saturating_add(1))),
            Decision::Before(p, q) => Some(Decision::Before(q, p)),
            Decision::AtMost(m, r) => Some(Decision::AtLeast(m, r.saturating_add(1))),
            Decision::AtLeast(_, _) => None,
            Decision::Channel(m, k) => {
                if k < BOTH_CHANNELS {
                    Some(Decision::Channel(m, k + 1))
                } else {
                    None
                }
            }
        }
    }

    /// What a branch uses with what stands below it: how many children take a place depends on all places above.
    pub fn used_with(&self, kind: Kind, below: Levels) -> Levels {
        let mut used = below;
        if is_of_places(kind) {
            for placed in self.order() {
                used.insert(placed.level);
            }
        }
        used
    }

    /// Goes down by a decision of the branch at this level. Unchanged where memory is refused.
    pub fn go_down(&mut self, decision: Decision, level: u32) -> Result<(), MemoryFault>
        ensures ok { OnOk result (self.new ≡ path_after self.old (record { decision = decision; level = level })) }
        ensures err { OnErr result (self.new ≡ self.old) }
    {
        self.taken.reserve(1)?;
        let turn = Turn { decision, level };
        let stood = self.tables.tell(self.instance, turn)?;
        self.taken.push_reserved(Taken { turn, stood });
        Ok(())
    }

    /// Goes up again, from the last decision.
    pub fn go_up(&mut self)
        ensures { self.new ≡ path_above self.old }
    {
        if let Some(last) = self.taken.pop() {
            self.tables.take_back(self.instance, last.turn, last.stood);
        }
    }
}
