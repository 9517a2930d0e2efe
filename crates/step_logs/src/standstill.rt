//! What is known once steps sharpen no more?

ghost use Rattle.std.specs.Prelude.{◌≡◌, ℕ, ◌<◌, OnOk, IsFalse};
ghost use Rattle.ttp_model.specs.declared.plan.Plan.{Plan};
ghost use Rattle.ttp_model.specs.Chains.{IsPathBound};
ghost use Rattle.tt_choice.specs.Choice.{IsChoice, IsComplete};
ghost use Rattle.tt_infer.specs.Known.{first_facts};
ghost use Rattle.step_logs.specs.Journal.{Journal, Advances};
ghost use Rattle.step_logs.specs.PlansBelow.{IsPlanBelow};
ghost use Rattle.step_logs.specs.Propagator.{Begins};

use crate::acceleration::accelerate;
use crate::journal::Journal;
use crate::required::required_steps;
use std::alloc::Global;
use step_agenda::Agenda;
use tt_choice::Choice;
use ttp_model::{Instance, MemoryFault};

/// Sharpens what is known at first until the steps that a propagation rests on sharpen no more, by an agenda of the instance, which can
/// be used again.
pub fn reach(
    alloc: Global,
    agenda: &mut Agenda,
    instance: &Instance,
    choice: &Choice,
    journal: &mut Journal,
) -> Result<(), MemoryFault>
    requires of { IsChoice instance.now choice.now }
    requires begins { journal.old.facts ≡ record {
      instance = instance.now;
      choice = choice.now;
      goal = journal.old.facts.goal;
      known = first_facts instance.now choice.now;
    } }
    ensures advances { Advances journal.old journal.new }
    ensures above { OnOk result (IsFalse journal.new.facts.known.closed
        → (bound : ℕ) → IsPathBound instance.now bound → bound < journal.old.facts.goal) }
    ensures found { OnOk result (IsComplete instance.now choice.now
        → IsFalse journal.new.facts.known.closed
        → (plan : Plan) × IsPlanBelow instance.now choice.now journal.old.facts.goal plan) }
{
    accelerate(alloc, agenda, journal)?;
    if journal.facts().closed() {
        return Ok(());
    }
    let steps = required_steps(alloc, instance, choice)?;
    journal.settle(alloc, steps.as_slice())?;
    let known = journal.facts();
    let _same = known.instance();
    Ok(())
}

/// Where nothing is left to choose, sharpens what is known until the steps that decide a complete choice sharpen no more.
pub fn complete(
    alloc: Global,
    instance: &Instance,
    choice: &Choice,
    journal: &mut Journal,
) -> Result<(), MemoryFault>
    requires of { IsChoice instance.now choice.now }
    ensures advances { Advances journal.old journal.new }
    ensures found { OnOk result ((goal : ℕ) (start : Journal) → Begins instance.now choice.now goal start
        → Advances start journal.old → IsComplete instance.now choice.now
        → IsFalse journal.new.facts.known.closed
        → (plan : Plan) × IsPlanBelow instance.now choice.now goal plan) }
{
    if journal.facts().closed() || !choice.is_complete(instance) {
        return Ok(());
    }
    let steps = required_steps(alloc, instance, choice)?;
    journal.settle(alloc, steps.as_slice())?;
    let known = journal.facts();
    let _same = known.instance();
    Ok(())
}
