//! Which steps of a leaf say more than is known before them?

ghost use Rattle.std.specs.Prelude.{◌≡◌, ◌≢◌, ◌≤◌, ◌+◌, length, IfOk, OnOk, IsFalse, IsTrue};
ghost use Rattle.tt_choice.specs.Choice.{IsChoice};
ghost use Rattle.tt_infer.specs.Facts.{after};
ghost use Rattle.tt_infer.specs.Leaves.{ClosesLeaf, ClosesSharply, LeadSharply};
ghost use Rattle.sought_plans.specs.Known.{Known};
ghost use Rattle.planner.specs.Sharp.{IsNext, LeadsToEnd, LeadsSharplyToEnd};

use std::alloc::Global;
use tt_choice::Choice;
use tt_infer::{Facts, target, value};
use ttp_model::{Instance, Leaf, MemoryFault, Step, Steps};

/// Takes a step, if it may be taken. Whether more is known after it.
fn says_more(facts: &mut Facts, step: &Step) -> bool
    ensures about { facts.new ≡ after facts.old facts.new.known }
    ensures next { (g : Known) → IsNext facts.old step.now g → facts.new.known ≡ g }
    ensures more { IsTrue result → facts.new.known ≢ facts.old.known }
    ensures same { IsFalse result → facts.new.known ≡ facts.old.known }
{
    let fact = target(facts.instance(), step);
    let before = value(facts, fact);
    match facts.apply(step) {
        Ok(()) => value(facts, fact) != before,
        Err(_) => false,
    }
}

/// Takes the next step of a leaf, and keeps a copy of it where more is known after it.
fn keep_sharp(
    alloc: Global,
    facts: &mut Facts,
    kept: &mut Vec<Step>,
    step: &Step,
) -> Result<(), MemoryFault>
    ensures about { facts.new ≡ after facts.old facts.new.known }
    ensures next { (g : Known) → IsNext facts.old step.now g → facts.new.known ≡ g }
    ensures kept { OnOk result ((f g : Known) → IsNext facts.old step.now g
        → LeadSharply facts.old.instance facts.old.choice facts.old.goal f kept.old.items facts.old.known
        → LeadSharply facts.old.instance facts.old.choice facts.old.goal f kept.new.items g) }
    ensures few { OnOk result (length kept.new.items ≤ length kept.old.items + 1) }
{
    if !says_more(facts, step) {
        return Ok(());
    }
    let copy = step.copied(alloc)?;
    kept.push(copy)?;
    Ok(())
}

/// Of steps that lead on to where no plan is left those after which more is known.
fn sharp_steps(alloc: Global, facts: &mut Facts, steps: &[Step]) -> Result<Vec<Step>, MemoryFault>
    requires { LeadsToEnd facts.old steps.now }
    ensures leads { IfOk result (λ kept. LeadsSharplyToEnd facts.old kept.items) }
    ensures few { IfOk result (λ kept. length kept.items ≤ length steps.now) }
{
    let mut kept = Vec::new(alloc);
    for step in steps {
        keep_sharp(alloc, facts, &mut kept, step)?;
    }
    Ok(kept)
}

/// The leaf without the steps after which no more is known: it closes the same choice at the same goal. Each step is taken once.
pub fn sharp_leaf(
    alloc: Global,
    instance: &Instance,
    choice: &Choice,
    leaf: &Leaf,
) -> Result<Leaf, MemoryFault>
    requires of { IsChoice instance.now choice.now }
    requires closes { ClosesLeaf instance.now choice.now leaf.now }
    ensures closes { IfOk result (ClosesSharply instance.now choice.now) }
    ensures goal { IfOk result (λ sharp. sharp.goal ≡ leaf.now.goal) }
{
    let mut facts = Facts::new(alloc, instance, choice, leaf.goal)?;
    let kept = sharp_steps(alloc, &mut facts, leaf.steps.as_slice())?;
    Ok(Leaf {
        goal: leaf.goal,
        steps: Steps::new(kept),
    })
}
