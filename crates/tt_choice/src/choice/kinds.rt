//! What does each kind of branch ask?

ghost use Rattle.std.specs.Prelude.{◌≡◌, ◌↔◌, IsTrue, IfOk, IfSome, IsSome, slice_index};
ghost use Rattle.ttp_model.specs.Instance.{Instance};
ghost use Rattle.ttp_model.specs.Rules.{IsInstance};
ghost use Rattle.tt_choice.specs.Choice.{Choice, IsChoice};
ghost use Rattle.tt_choice.specs.Changes.{unplaced};
ghost use Rattle.tt_choice.specs.Kinds.{IsOpen, is_of_places, decision_of};
ghost use Rattle.tt_choice.specs.Decisions.{decisions_of};

use crate::choice::Choice;
use crate::choice::decisions::{on_channels, one_of, orders, side};
use crate::decision::Decision;
use std::alloc::Global;
use ttp_model::{Instance, Kind, MemoryFault};

impl Choice {
    /// Whether a branch is open: what it decides is there and isn't decided yet. Costs the same
    /// for each choice.
    pub fn is_open(&self, instance: &Instance, kind: &Kind) -> bool
        requires of { IsChoice instance.now self.now }
        ensures { IsTrue result ↔ IsOpen instance.now self.now kind.now }
    {
        match *kind {
            Kind::Place => self.prefix().len() < instance.nodes().len(),
            Kind::Cap(n) => self.is_free(n),
            Kind::Pair(p, q) => self.is_unordered_pair(instance, p, q),
            Kind::Round(m, r) => self.cuts_range(m, r),
            Kind::Chan(m) => self.is_free_channel(m),
        }
    }

    /// The decisions of an open branch, in order: each leads to a child.
    pub fn decisions(
        &self,
        alloc: Global,
        instance: &Instance,
        kind: &Kind,
    ) -> Result<Vec<Decision>, MemoryFault>
        requires of { IsChoice instance.now self.now }
        requires is_open { IsOpen instance.now self.now kind.now }
        ensures { IfOk result
            (λ decisions. decisions.items ≡ decisions_of instance.now self.now kind.now) }
    {
        match *kind {
            Kind::Place => self.places(alloc, instance),
            Kind::Cap(n) => self.caps(alloc, instance, n),
            Kind::Pair(p, q) => orders(alloc, p, q),
            Kind::Round(m, r) => self.sides(alloc, instance, m, r),
            Kind::Chan(m) => on_channels(alloc, m),
        }
    }
}

/// Whether branches of this kind are on the next place, so that their children are the nodes that aren't placed.
pub fn is_of_places(kind: Kind) -> bool
    ensures { result ≡ is_of_places kind }
{
    match kind {
        Kind::Place => true,
        Kind::Cap(_) | Kind::Pair(_, _) | Kind::Round(_, _) | Kind::Chan(_) => false,
    }
}

/// The decision that leads to a branch's child of a number, from 0, where there may be one. Where it puts a node next, that is the
/// one that is handed in.
pub fn decision_at(kind: Kind, k: u32, node: Option<u32>) -> Option<Decision>
    ensures value { IfSome result (λ decision. (i : Instance) (c : Choice)
        → IfSome node (λ n. n ≡ slice_index (unplaced i c) k) → decision ≡ decision_of i c kind k) }
    ensures some { (i : Instance) (c : Choice)
        → IsInstance i → IsChoice i c → IsOpen i c kind → IsSome node → IsSome result }
{
    match kind {
        Kind::Place => Some(Decision::Place(node?)),
        Kind::Cap(n) => Some(Decision::Cap(n, k)),
        Kind::Pair(p, q) => Some(one_of(Decision::Before(p, q), Decision::Before(q, p), k)),
        Kind::Round(m, r) => side(m, r, k),
        Kind::Chan(m) => Some(Decision::Channel(m, k)),
    }
}
