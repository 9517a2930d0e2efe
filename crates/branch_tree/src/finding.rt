//! What does a complete choice come to?

ghost use Rattle.std.specs.Prelude.{◌≡◌, ◌<◌, ◌≤◌, IfOk};
ghost use Rattle.ttp_model.specs.declared.plan.Plan.{Plan};
ghost use Rattle.ttp_model.specs.Plans.{IsValid};
ghost use Rattle.ttp_model.specs.Delays.{delay};
ghost use Rattle.ttp_model.specs.Moves.{IsSettled, MovesLead};
ghost use Rattle.tt_choice.specs.Choice.{IsChoice, IsIn, IsComplete};
ghost use Rattle.search_trees.specs.PlansBelow.{IsPlanBelow};
ghost use Rattle.earliest_starts.specs.Answers.{IsEarliest};
ghost use Rattle.search_trees.specs.Trials.{ClosesAt};
ghost use Rattle.branch_tree.specs.Work.{IsWorkedFind};

use crate::worked::Worked;
use earliest_starts::{Earliest, earliest};
use search_trees::{Trial, tried};
use std::alloc::Global;
use tt_choice::Choice;
use tt_settle::settle;
use ttp_model::{Instance, Leaf, MemoryFault, Plan, delay};

/// The earliest plan of a complete choice that has plans with a delay below the goal: closed at its
/// delay, and settled.
pub fn found(
    alloc: Global,
    instance: &Instance,
    choice: &Choice,
    goal: u32,
) -> Result<Worked, MemoryFault>
    requires of { IsChoice instance.now choice.now }
    requires complete { IsComplete instance.now choice.now }
    requires better { (plan : Plan) × IsPlanBelow instance.now choice.now goal plan }
    ensures { IfOk result (IsWorkedFind instance.now choice.now goal) }
{
    let _processes = instance.processes();
    let (first, ticks) = earliest_plan(alloc, instance, choice, goal)?;
    let leaf = closed_at(alloc, instance, choice, ticks)?;
    let plan = settled(alloc, instance, first)?;
    let least = delay(instance, &plan);
    Ok(Worked::Found(plan, least, leaf))
}

/// The earliest plan, and its delay in ticks.
fn earliest_plan(
    alloc: Global,
    instance: &Instance,
    choice: &Choice,
    goal: u32,
) -> Result<(Plan, u32), MemoryFault>
    requires of { IsChoice instance.now choice.now }
    requires complete { IsComplete instance.now choice.now }
    requires better { (plan : Plan) × IsPlanBelow instance.now choice.now goal plan }
    ensures plan { IfOk result (λ found. IsEarliest instance.now choice.now found.0) }
    ensures ticks { IfOk result (λ found. found.1 ≡ delay instance.now found.0) }
    ensures below { IfOk result (λ found. found.1 < goal) }
{
    let _processes = instance.processes();
    match earliest(alloc, instance, choice)? {
        Earliest::Plan(plan, ticks) => Ok((plan, ticks as u32)),
        Earliest::Clash(_) => unreachable!(),
    }
}

/// A leaf at a goal in ticks that no valid plan of the complete choice is below.
fn closed_at(
    alloc: Global,
    instance: &Instance,
    choice: &Choice,
    ticks: u32,
) -> Result<Leaf, MemoryFault>
    requires of { IsChoice instance.now choice.now }
    requires complete { IsComplete instance.now choice.now }
    requires least { (other : Plan) → IsValid instance.now other
        → IsIn instance.now choice.now other → ticks ≤ delay instance.now other }
    ensures { IfOk result (ClosesAt instance.now choice.now ticks) }
{
    match tried(alloc, instance, choice, ticks)? {
        Trial::Closed(leaf) => Ok(leaf),
        Trial::At(_) => unreachable!(),
    }
}

/// A settled plan, to which moves lead from a valid one, with no larger delay.
fn settled(alloc: Global, instance: &Instance, plan: Plan) -> Result<Plan, MemoryFault>
    requires { IsValid instance.now plan }
    ensures settled { IfOk result (IsSettled instance.now) }
    ensures leads { IfOk result (MovesLead instance.now plan) }
    ensures no_later { IfOk result
        (λ settled. delay instance.now settled ≤ delay instance.now plan) }
{
    match settle(alloc, instance, plan) {
        Ok(settled) => Ok(settled),
        Err((_, fault)) => Err(fault),
    }
}
