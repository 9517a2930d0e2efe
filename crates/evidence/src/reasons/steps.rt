//! What is told of a step of inference, and of a leaf?

ghost use Rattle.std.specs.Borrow.{Bor};
ghost use Rattle.std.specs.Prelude.{◌≡◌, ℕ, ◌-◌, IfOk, IsFalse, List, length};
ghost use Rattle.ttp_model.specs.Instance.{link_at};
ghost use Rattle.ttp_model.specs.declared.step.Step.TheVariants.{LeLink};
ghost use Rattle.tt_choice.specs.Choice.{IsChoice};
ghost use Rattle.sought_plans.specs.Known.{Known, es_of, le_of};
ghost use Rattle.sought_plans.specs.Premises.{wcet_of};
ghost use Rattle.tt_infer.specs.declared.fact.Fact.TheVariants.{Start};
ghost use Rattle.tt_infer.specs.Leaves.{ClosesLeaf};
ghost use Rattle.tt_infer.specs.Table.{IsLawful, target};
ghost use Rattle.certificate_reasons.specs.declared.conclusions.Conclusion.TheVariants.{StartsFrom};
ghost use Rattle.certificate_reasons.specs.declared.ends.LatestEnd.TheVariants.{Link};
ghost use Rattle.certificate_reasons.specs.declared.steps.StepReason.TheVariants.{End};

use certificate_reasons::{LeafReason, ToldStep, leaf_reason, told_step};
use std::alloc::Global;
use tt_choice::Choice;
use tt_infer::Facts;
use ttp_model::{Instance, Leaf, MemoryFault, Step};

/// What was known before a step is told as that, and not what is known after it.
pub fn what_was_known_is_told<'a>(
    alloc: Global,
    facts: &mut Facts<'a>,
    step: &Step,
) -> Result<ToldStep<'a>, MemoryFault>
    requires open { IsFalse facts.old.known.closed }
    requires lawful { (g : Known) × IsLawful facts.old.instance facts.old.choice facts.old.goal facts.old.known step.now g }
    ensures { IfOk result (λ told. (p before after : ℕ) (process : Bor (List ℕ)) → target facts.old.instance step.now ≡ Start p
        → told.conclusion ≡ StartsFrom process before after
        → (before ≡ es_of facts.old.known p) × (after ≡ es_of facts.new.known p)) }
{
    told_step(alloc, facts, step)
}

/// A process starts so early that there is time for it until it has to end.
pub fn latest_start_leaves_time<'a>(
    alloc: Global,
    facts: &mut Facts<'a>,
    l: u32,
) -> Result<ToldStep<'a>, MemoryFault>
    requires open { IsFalse facts.old.known.closed }
    requires lawful { (g : Known) × IsLawful facts.old.instance facts.old.choice facts.old.goal facts.old.known (LeLink l) g }
    ensures { IfOk result (λ told. (start link : ℕ) (after before : Bor (List ℕ)) → told.reason ≡ End (Link after start before link)
        → start ≡ le_of facts.old.known (link_at facts.old.instance l).after - wcet_of facts.old.instance (link_at facts.old.instance l).after) }
{
    told_step(alloc, facts, &Step::LeLink(l))
}

/// Of 201 steps one isn't told.
pub fn steps_more_than_are_told<'a>(
    alloc: Global,
    instance: &'a Instance,
    choice: &Choice,
    leaf: &Leaf,
) -> Result<LeafReason<'a>, MemoryFault>
    requires choice { IsChoice instance.now choice.now }
    requires closes { ClosesLeaf instance.now choice.now leaf.now }
    ensures { length leaf.now.steps ≡ 201 → IfOk result (λ told. told.more ≡ 1) }
{
    leaf_reason(alloc, instance, choice, leaf)
}
