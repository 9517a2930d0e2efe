//! Which subtrees needn't be worked?

ghost use Rattle.std.specs.Prelude.{◌≡◌, ◌≤◌, ◌+◌, ℕ, List, IfSome, None};
ghost use Rattle.ttp_model.specs.Instance.{Instance};
ghost use Rattle.tt_choice.specs.Branches.{IsBranch, root_choice};
ghost use Rattle.tt_choice.specs.Decisions.{AreOpenDecisions, chosen};
ghost use Rattle.tt_choice.specs.declared.decision.Decision.{Decision};
ghost use Rattle.tt_infer.specs.Leaves.{ClosesSharply};
ghost use Rattle.tt_infer.specs.RuledOut.{IsRuledOut};
ghost use Rattle.used_decisions.specs.Proved.{all_kept};
ghost use Rattle.used_decisions.specs.Needs.{HoldsAt, HoldUpTo, AreAt};

use crate::way::Way;
use std::alloc::Global;
use std::mem;
use tt_choice::Decision;
use ttp_model::{Instance, Kind, Leaf};

/// What one worker knows of the subtrees that needn't be worked: where what stands below one child of a branch is closed by steps
/// that don't use the decision that leads there, that child proves the branch, and its other children needn't be worked. It is
/// told which subtrees are worked, one after another, and looks at those alone; where memory is refused it knows nothing.
#[derive(Drop)]
pub struct Needs<'a> {
    way: Option<Way<'a>>,
}

impl<'a> Needs<'a> {
    /// Nothing is known yet.
    pub fn new() -> Self
        ensures { (i : Instance) (low : ℕ) → HoldUpTo i low result }
    {
        Needs { way: None }
    }

    /// The decisions that lead to a branch that is proved though children of it are left: none of the subtrees below it needs to be
    /// worked.
    pub fn proved(&self) -> Option<&[Decision]>
        ensures { IfSome result (λ front. (i : Instance) (low : ℕ) → HoldUpTo i low self.now → IsRuledOut i low (all_kept front.now)) }
    {
        match &self.way {
            Some(way) => way.proved(),
            None => None,
        }
    }

    /// What is known of an instance; where nothing is, what is known at the root.
    fn taken(&mut self, alloc: Global, instance: &'a Instance) -> Option<Way<'a>>
        ensures holds { (low : ℕ) → low ≤ instance.now.cluster.horizon + 1 → HoldUpTo instance.now low self.old
            → IfSome result (HoldsAt instance.now low) }
        ensures none { self.new.way ≡ None }
    {
        match self.way.take() {
            Some(way) => Some(way),
            None => Way::new(alloc, instance).ok(),
        }
    }

    /// The subtree is worked to which these decisions lead.
    pub fn begin(&mut self, alloc: Global, instance: &'a Instance, decisions: &[Decision])
        requires { HoldUpTo instance.now 0 self.old }
        ensures at { AreAt instance.now decisions.now self.new }
        ensures holds { (low : ℕ) → low ≤ instance.now.cluster.horizon + 1 → HoldUpTo instance.now low self.old
            → HoldUpTo instance.now low self.new }
    {
        if let Some(mut way) = self.taken(alloc, instance) {
            if decisions.len() < u32::MAX as usize && way.begin(decisions).is_ok() {
                drop(mem::replace(&mut self.way, Some(way)));
            } else {
                drop(way);
            }
        }
    }

    /// It was split into so many.
    pub fn split(&mut self, alloc: Global, kind: Kind, children: u32)
        requires { (i : Instance) × (decisions : List Decision) × AreAt i decisions self.old × IsBranch i (chosen i decisions) kind children }
        ensures { (i : Instance) (low : ℕ) → HoldUpTo i low self.old → HoldUpTo i low self.new }
    {
        if let Some(mut way) = self.way.take() {
            if way.split(alloc, kind, children).is_ok() {
                drop(mem::replace(&mut self.way, Some(way)));
            } else {
                drop(way);
            }
        }
    }

    /// It was closed by a leaf.
    pub fn close(&mut self, alloc: Global, leaf: &Leaf)
        requires { (i : Instance) × (decisions : List Decision) × AreAt i decisions self.old
            × AreOpenDecisions i (root_choice i) decisions × ClosesSharply i (chosen i decisions) leaf.now }
        ensures { (i : Instance) (low : ℕ) → low ≤ leaf.now.goal → HoldUpTo i low self.old → HoldUpTo i low self.new }
    {
        if let Some(mut way) = self.way.take() {
            if way.close(alloc, leaf).is_ok() {
                drop(mem::replace(&mut self.way, Some(way)));
            } else {
                drop(way);
            }
        }
    }
}
