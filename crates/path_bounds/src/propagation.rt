//! Which steps close a choice, or what is known where none does?

ghost use Rattle.std.specs.Prelude.{◌≡◌, ℕ, ◌≤◌, IfOk};
ghost use Rattle.ttp_model.specs.Chains.{IsPathBound};
ghost use Rattle.tt_choice.specs.Choice.{IsChoice, IsComplete};
ghost use Rattle.path_bounds.specs.Propagation.{Propagates, IsClosed, FindsPlan};

use crate::reached::Reached;
use std::alloc::Global;
use std::mem;
use step_logs::{Agenda, Facts, Journal, reach};
use tt_choice::Choice;
use ttp_model::{Instance, MemoryFault, Step};

/// Appends lawful steps for the plans of the choice with a delay below `goal` ticks, from the first
/// facts on, each of which sharpens what is known, and answers where they lead: to no plan, always
/// so at a goal of at most the path bound, or to what is known then. For a complete choice that is
/// only where it has such a plan. After a refusal of memory the steps appended so far are lawful too. An agenda of the instance serves
/// for one propagation after another.
pub fn propagate<'a>(
    alloc: Global,
    agenda: &mut Agenda,
    instance: &'a Instance,
    choice: &Choice,
    goal: u32,
    steps: &mut Vec<Step>,
) -> Result<Reached<'a>, MemoryFault>
    requires { IsChoice instance.now choice.now }
    ensures appended { Propagates instance.now choice.now goal steps.old.items steps.new.items result }
    ensures bound { (bound : ℕ) → IsPathBound instance.now bound → goal ≤ bound
        → IfOk result IsClosed }
    ensures complete { IsComplete instance.now choice.now
        → IfOk result (FindsPlan instance.now choice.now goal) }
{
    let _processes = instance.processes();
    let first = Facts::new(alloc, instance, choice, goal)?;
    let before = mem::replace(steps, Vec::new(alloc));
    let mut journal = Journal::new(first, before, Vec::new(alloc));
    let done = reach(alloc, agenda, instance, choice, &mut journal);
    let (facts, all) = journal.into_parts();
    *steps = all;
    done?;
    if facts.closed() {
        return Ok(Reached::Closed);
    }
    Ok(Reached::At(facts))
}
