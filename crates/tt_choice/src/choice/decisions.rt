//! Of which decisions does one have to be made?

ghost use Rattle.std.specs.Prelude.{◌≡◌, ◌+◌, ◌∷◌, [], IfOk, IfSome, IsSome};
ghost use Rattle.ttp_model.specs.declared.step.Kind.TheVariants.{Place, Cap};
ghost use Rattle.tt_choice.specs.declared.decision.Decision.TheVariants.{Before, AtMost, AtLeast, Channel};
ghost use Rattle.ttp_model.specs.Instance.{Instance};
ghost use Rattle.ttp_model.specs.Rules.{IsInstance};
ghost use Rattle.tt_choice.specs.Choice.{Choice, IsChoice};
ghost use Rattle.tt_choice.specs.Branches.{IsOpen, CutsRange};
ghost use Rattle.tt_choice.specs.Kinds.{one_of};
ghost use Rattle.tt_choice.specs.Decisions.{decisions_of};

use crate::choice::Choice;
use crate::decision::Decision;
use std::alloc::Global;
use ttp_model::{BOTH_CHANNELS, Instance, MemoryFault};

impl Choice {
    /// Each unplaced node put next in the order.
    pub(crate) fn places(
        &self,
        alloc: Global,
        instance: &Instance,
    ) -> Result<Vec<Decision>, MemoryFault>
        requires of { IsChoice instance.now self.now }
        ensures { IfOk result
            (λ decisions. decisions.items ≡ decisions_of instance.now self.now Place) }
    {
        let count = instance.nodes().len() as u32;
        let mut decisions = Vec::new(alloc);
        for n in 0..count {
            if !self.prefix().contains(&n) {
                decisions.push(Decision::Place(n))?;
            }
        }
        Ok(decisions)
    }

    /// Each option of node `n` fixed as its capacity.
    pub(crate) fn caps(
        &self,
        alloc: Global,
        instance: &Instance,
        n: u32,
    ) -> Result<Vec<Decision>, MemoryFault>
        requires of { IsChoice instance.now self.now }
        requires is_open { IsOpen instance.now self.now (Cap n) }
        ensures { IfOk result
            (λ decisions. decisions.items ≡ decisions_of instance.now self.now (Cap n)) }
    {
        let count = instance.nodes()[n as usize].capacities.as_slice().len() as u32;
        let mut decisions = Vec::new(alloc);
        for k in 0..count {
            decisions.push(Decision::Cap(n, k))?;
        }
        Ok(decisions)
    }

    /// A message in round `r` at most, and in a later one.
    pub(crate) fn sides(
        &self,
        alloc: Global,
        instance: &Instance,
        m: u32,
        r: u32,
    ) -> Result<Vec<Decision>, MemoryFault>
        requires of { IsChoice instance.now self.now }
        requires cuts { CutsRange instance.now self.now m r }
        ensures { IfOk result (λ decisions. decisions.items ≡ AtMost m r ∷ AtLeast m (r + 1) ∷ []) }
    {
        let _messages = instance.messages();
        Ok(vec![in alloc; Decision::AtMost(m, r), Decision::AtLeast(m, r + 1)]?)
    }
}

/// The first of two, and else the second.
pub(crate) fn one_of(first: Decision, second: Decision, k: u32) -> Decision
    ensures { result ≡ one_of first second k }
{
    if k == 0 { first } else { second }
}

/// A message in round `r` at most, or in a later one, where there may be one.
pub(crate) fn side(m: u32, r: u32, k: u32) -> Option<Decision>
    ensures value { IfSome result (λ decision. decision ≡ one_of (AtMost m r) (AtLeast m (r + 1)) k) }
    ensures some { (i : Instance) (c : Choice)
        → IsInstance i → IsChoice i c → CutsRange i c m r → IsSome result }
{
    if r == u32::MAX {
        return None;
    }
    Some(one_of(Decision::AtMost(m, r), Decision::AtLeast(m, r + 1), k))
}

/// Two processes in one order, and in the other.
pub(crate) fn orders(alloc: Global, p: u32, q: u32) -> Result<Vec<Decision>, MemoryFault>
    ensures { IfOk result (λ decisions. decisions.items ≡ Before p q ∷ Before q p ∷ []) }
{
    Ok(vec![in alloc; Decision::Before(p, q), Decision::Before(q, p)]?)
}

/// A message on each channel, and on both.
pub(crate) fn on_channels(alloc: Global, m: u32) -> Result<Vec<Decision>, MemoryFault>
    ensures { IfOk result (λ decisions. decisions.items ≡ Channel m 0 ∷ Channel m 1 ∷ Channel m 2 ∷ []) }
{
    Ok(vec![in alloc;
        Decision::Channel(m, 0),
        Decision::Channel(m, 1),
        Decision::Channel(m, BOTH_CHANNELS),
    ]?)
}
