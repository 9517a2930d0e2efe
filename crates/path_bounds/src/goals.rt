//! At which goal can a choice be closed?

ghost use Rattle.std.specs.Prelude.{◌≡◌, ℕ, ◌^◌, ◌<◌, ◌≤◌, min, length, IfOk, IfSome, IsSome};
ghost use Rattle.ttp_model.specs.Chains.{IsPathBound};
ghost use Rattle.tt_choice.specs.Choice.{IsChoice};
ghost use Rattle.step_logs.specs.Leaves.{ClosesSharply};

use crate::propagation::propagate;
use crate::reached::Reached;
use plan_facts::path_bound;
use std::alloc::Global;
use step_logs::{Agenda, Facts, Journal, closed_leaf};
use tt_choice::Choice;
use ttp_model::{Instance, Leaf, MemoryFault, Step, Steps};

/// Steps that close the choice at a goal in ticks, where propagation finds them: always so at a goal
/// of at most the path bound.
fn closing_steps(
    alloc: Global,
    agenda: &mut Agenda,
    instance: &Instance,
    choice: &Choice,
    goal: u32,
) -> Result<Option<Vec<Step>>, MemoryFault>
    requires { IsChoice instance.now choice.now }
    ensures closes { IfOk result (λ found. IfSome found (λ steps.
        ClosesSharply instance.now choice.now (record { goal = goal; steps = steps.items }))) }
    ensures few { IfOk result (λ found. IfSome found (λ steps. length steps.items < 2 ^ 32)) }
    ensures bound { (bound : ℕ) → IsPathBound instance.now bound → goal ≤ bound
        → IfOk result (λ found. IsSome found) }
{
    let mut steps = Vec::new(alloc);
    let reached = propagate(alloc, agenda, instance, choice, goal, &mut steps)?;
    match reached {
        Reached::Closed => Ok(Some(steps)),
        Reached::At(_) => Ok(None),
    }
}

/// The greatest goal between one at which the steps close the choice and one at which propagation
/// doesn't, as far as halving finds it, with steps that close the choice there.
fn raised(
    alloc: Global,
    agenda: &mut Agenda,
    instance: &Instance,
    choice: &Choice,
    low: u32,
    steps: Vec<Step>,
    top: u32,
) -> Result<(u32, Vec<Step>), MemoryFault>
    requires of { IsChoice instance.now choice.now }
    requires closes { ClosesSharply instance.now choice.now (record { goal = low; steps = steps.items }) }
    requires few { length steps.items < 2 ^ 32 }
    requires below { low < top }
    ensures closes { IfOk result (λ found. ClosesSharply instance.now choice.now
        (record { goal = found.0; steps = found.1.items })) }
    ensures few { IfOk result (λ found. length found.1.items < 2 ^ 32) }
    ensures least { IfOk result (λ found. low ≤ found.0) }
    ensures most { IfOk result (λ found. found.0 < top) }
{
    let mut best = (low, steps);
    let mut high = top;
    'halving: while high - best.0 > 1 {
        let middle = best.0 + (high - best.0) / 2;
        match closing_steps(alloc, agenda, instance, choice, middle)? {
            Some(steps) => best = (middle, steps),
            None => high = middle,
        }
    }
    Ok(best)
}

/// A closed leaf at a goal below `top` ticks, which is above the path bound, and at least at the path
/// bound.
fn leaf_below(
    alloc: Global,
    agenda: &mut Agenda,
    instance: &Instance,
    choice: &Choice,
    top: u32,
) -> Result<Leaf, MemoryFault>
    requires of { IsChoice instance.now choice.now }
    requires above { (bound : ℕ) → IsPathBound instance.now bound → bound < top }
    ensures closes { IfOk result (ClosesSharply instance.now choice.now) }
    ensures top { IfOk result (λ leaf. leaf.goal < top) }
    ensures bound { IfOk result (λ leaf. (bound : ℕ) → IsPathBound instance.now bound
        → bound ≤ leaf.goal) }
{
    let bound = path_bound(alloc, instance)?;
    let found = closing_steps(alloc, agenda, instance, choice, bound)?;
    let steps = found.unwrap();
    let best = raised(alloc, agenda, instance, choice, bound, steps, top)?;
    closed_leaf(alloc, instance, choice, best.0, best.1)
}

/// A closed leaf at a goal of at most `top` ticks and at least the lesser of `top` and the path
/// bound: the greatest that propagation closes, as far as halving finds it. Some twenty propagations, by an agenda of the instance, which
/// can be used again.
pub fn best_goal(
    alloc: Global,
    agenda: &mut Agenda,
    instance: &Instance,
    choice: &Choice,
    top: u32,
) -> Result<Leaf, MemoryFault>
    requires { IsChoice instance.now choice.now }
    ensures closes { IfOk result (ClosesSharply instance.now choice.now) }
    ensures top { IfOk result (λ leaf. leaf.goal ≤ top) }
    ensures bound { IfOk result (λ leaf. (bound : ℕ) → IsPathBound instance.now bound
        → min top bound ≤ leaf.goal) }
{
    let found = closing_steps(alloc, agenda, instance, choice, top)?;
    match found {
        Some(steps) => closed_leaf(alloc, instance, choice, top, steps),
        None => leaf_below(alloc, agenda, instance, choice, top),
    }
}

/// A leaf of the choice at a goal in ticks by the steps of another leaf, which may be of anything: those that sharpen what is known as
/// they are tried one after another, where they close the choice. Costs what they cost.
pub fn leaf_by(
    alloc: Global,
    instance: &Instance,
    choice: &Choice,
    goal: u32,
    steps: &[Step],
) -> Result<Option<Leaf>, MemoryFault>
    requires { IsChoice instance.now choice.now }
    ensures closes { IfOk result (λ found. IfSome found (ClosesSharply instance.now choice.now)) }
    ensures goal { IfOk result (λ found. IfSome found (λ leaf. leaf.goal ≡ goal)) }
{
    let _processes = instance.processes();
    let first = Facts::new(alloc, instance, choice, goal)?;
    let mut journal = Journal::new(first, Vec::new(alloc), Vec::new(alloc));
    journal.sweep(alloc, steps)?;
    match journal.closing_steps() {
        Some(kept) => Ok(Some(Leaf {
            goal,
            steps: Steps::new(kept),
        })),
        None => Ok(None),
    }
}
