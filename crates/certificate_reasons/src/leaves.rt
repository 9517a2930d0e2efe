//! What do the steps of a leaf say?

ghost use Rattle.std.specs.Prelude.{◌↔◌, IfOk, IsTrue};
ghost use Rattle.std.specs.List.{Any};
ghost use Rattle.sought_plans.specs.Known.{Known};
ghost use Rattle.tt_choice.specs.Choice.{IsChoice};
ghost use Rattle.tt_infer.specs.Leaves.{ClosesLeaf, Lead};
ghost use Rattle.tt_infer.specs.Table.{IsDominance};
ghost use Rattle.certificate_reasons.specs.Leaves.{AreFirstTold, IsLeafReason};

use crate::dominance::is_dominance;
use crate::steps::{ToldStep, told_step};
use sentences::Word::{Count, Number};
use sentences::{Counted, tell};
use std::alloc::Global;
use std::fmt;
use std::fmt::Display;
use tt_choice::Choice;
use tt_infer::Facts;
use ttp_model::{Instance, Leaf, MemoryFault, Step};

/// How many steps of a leaf are told.
pub const MOST_STEPS: usize = 200;

/// How a leaf closes a choice.
#[derive(Drop)]
pub struct LeafReason<'a> {
    /// A plan is supposed to have a delay below this tick.
    pub goal: u32,
    /// Whether the steps speak of plans alone that no small change improves.
    pub settled: bool,
    /// What the first steps say, at most `MOST_STEPS`.
    pub steps: Vec<ToldStep<'a>>,
    /// How many more there are.
    pub more: u64,
}

/// Whether some step is true of settled plans alone.
fn needs_settled(steps: &[Step]) -> bool
    ensures { IsTrue result ↔ Any IsDominance steps.now }
{
    for k in 0..steps.len() {
        if is_dominance(&steps[k]) {
            return true;
        }
    }
    false
}

/// What the first steps say, which are taken.
fn told_steps<'a>(
    alloc: Global,
    facts: &mut Facts<'a>,
    steps: &[Step],
) -> Result<Vec<ToldStep<'a>>, MemoryFault>
    requires { (g : Known) × Lead facts.old.instance facts.old.choice facts.old.goal facts.old.known steps.now g }
    ensures { IfOk result (λ told. AreFirstTold facts.old.instance facts.old.choice facts.old.goal facts.old.known steps.now told.items) }
{
    let count = MOST_STEPS.min(steps.len());
    let mut told = Vec::new(alloc);
    for k in 0..count {
        let step = told_step(alloc, facts, &steps[k])?;
        told.push(step)?;
    }
    Ok(told)
}

/// How a leaf closes a choice: what is supposed, of any plan or of one that no small change improves, its first 200 steps, and how many
/// there are more. Takes memory for what is known, and for what is told.
pub fn leaf_reason<'a>(
    alloc: Global,
    instance: &'a Instance,
    choice: &Choice,
    leaf: &Leaf,
) -> Result<LeafReason<'a>, MemoryFault>
    requires choice { IsChoice instance.now choice.now }
    requires closes { ClosesLeaf instance.now choice.now leaf.now }
    ensures { IfOk result (IsLeafReason instance.now choice.now leaf.now) }
{
    let steps = leaf.steps.as_slice();
    let mut facts = Facts::new(alloc, instance, choice, leaf.goal)?;
    let told = told_steps(alloc, &mut facts, steps)?;
    drop(facts);
    Ok(LeafReason {
        goal: leaf.goal,
        settled: needs_settled(steps),
        steps: told,
        more: steps.len().saturating_sub(MOST_STEPS) as u64,
    })
}

impl<'a> fmt::Display for LeafReason<'a> {
    fn fmt<W: fmt::Write>(&self, f: &mut fmt::Formatter<W>) -> fmt::Result {
        let (goal, steps) = (self.goal, self.steps.as_slice());
        tell(
            f,
            "Suppose that a plan has a delay below {}",
            &[Number(u64::from(goal))],
        )?;
        if self.settled {
            f.write_str(
                "; then one has that no small change improves. Step by step, of such a one:\n",
            )?;
        } else {
            f.write_str(". Step by step:\n")?;
        }
        for k in 0..steps.len() {
            let step = &steps[k];
            step.fmt(f)?;
        }
        if self.more > 0 {
            let more = Counted {
                number: self.more,
                one: "step",
                many: "steps",
            };
            tell(f, "and {} more\n", &[Count(more)])?;
        }
        Ok(())
    }
}
