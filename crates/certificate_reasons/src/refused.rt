//! Why is a step refused?

ghost use Rattle.std.specs.Prelude.{◌≡◌, IfOk};
ghost use Rattle.sought_plans.specs.Known.{Known};
ghost use Rattle.tt_choice.specs.Choice.{IsChoice, bare};
ghost use Rattle.tt_infer.specs.declared.fault.StepFault.{StepFault};
ghost use Rattle.tt_infer.specs.Answers.{IsStepFault};
ghost use Rattle.tt_infer.specs.Facts.{after};
ghost use Rattle.tt_infer.specs.Leaves.{Lead};
ghost use Rattle.tree_check.specs.Faults.{IsRefusedAt};
ghost use Rattle.certificate_reasons.specs.Refused.{IsRefusal, IsRefusedStep};

use crate::absent::Absent;
use crate::names::absent_of;
use crate::premises::{Lacking, lacking_of};
use crate::rules::{Rule, rule_of};
use std::alloc::Global;
use std::fmt;
use std::fmt::Display;
use tt_choice::Choice;
use tt_infer::{Facts, StepFault};
use ttp_model::{Instance, MemoryFault, Step};

/// Why a step isn't lawful where it stands: the first of these that holds.
#[derive(Clone, Copy)]
pub enum Refusal<'a> {
    /// A step before it left no plan.
    Closed,
    /// Something that it names isn't there.
    Absent(Absent<'a>),
    /// What it asks for isn't known.
    Lacking(Lacking<'a>),
}

/// A step that isn't lawful where it stands.
#[derive(Clone, Copy)]
pub struct RefusedStep<'a> {
    pub rule: Rule,
    pub why: Refusal<'a>,
}

/// Takes lawful steps.
fn take_all(facts: &mut Facts, steps: &[Step])
    requires { (g : Known) × Lead facts.old.instance facts.old.choice facts.old.goal facts.old.known steps.now g }
    ensures others { facts.new ≡ after facts.old facts.new.known }
    ensures lead { Lead facts.old.instance facts.old.choice facts.old.goal facts.old.known steps.now facts.new.known }
{
    for k in 0..steps.len() {
        match facts.apply(&steps[k]) {
            Ok(()) => {}
            Err(_) => unreachable!(),
        }
    }
}

/// Why a step is refused that has this fault.
fn refusal_by<'a>(facts: &Facts<'a>, step: &Step, fault: StepFault) -> Refusal<'a>
    requires { IsStepFault facts.now.instance facts.now.choice facts.now.goal facts.now.known step.now fault }
    ensures { IsRefusal facts.now.instance facts.now.choice facts.now.goal facts.now.known step.now result }
{
    match fault {
        StepFault::AlreadyClosed => Refusal::Closed,
        StepFault::NoSuchIndex => Refusal::Absent(absent_of(facts, step)),
        StepFault::NoPremise => Refusal::Lacking(lacking_of(facts, step)),
    }
}

/// Why a step is refused.
fn refusal_of<'a>(facts: &mut Facts<'a>, step: &Step) -> Refusal<'a>
    requires { (fault : StepFault) × IsStepFault facts.old.instance facts.old.choice facts.old.goal facts.old.known step.now fault }
    ensures { IsRefusal facts.old.instance facts.old.choice facts.old.goal facts.old.known step.now result }
{
    match facts.apply(step) {
        Ok(()) => unreachable!(),
        Err(fault) => refusal_by(facts, step, fault),
    }
}

/// Why the step at this place, from 0, of a leaf with this goal is refused, and the others before it aren't. Takes memory for what is
/// known; each step before it once more.
pub fn refused_step<'a>(
    alloc: Global,
    instance: &'a Instance,
    choice: &Choice,
    goal: u32,
    steps: &[Step],
    place: usize,
) -> Result<RefusedStep<'a>, MemoryFault>
    requires choice { IsChoice instance.now choice.now }
    requires refused { IsRefusedAt instance.now (bare choice.now) goal steps.now place }
    ensures { IfOk result (IsRefusedStep instance.now (bare choice.now) goal steps.now place) }
{
    let (before, others) = steps.split_at(place);
    let step = &others[0];
    let room = Facts::new(alloc, instance, choice, goal)?;
    let mut facts = room.turned(choice, goal)?;
    take_all(&mut facts, before);
    let why = refusal_of(&mut facts, step);
    drop(facts);
    Ok(RefusedStep {
        rule: rule_of(step),
        why,
    })
}

impl<'a> fmt::Display for RefusedStep<'a> {
    fn fmt<W: fmt::Write>(&self, f: &mut fmt::Formatter<W>) -> fmt::Result {
        self.rule.fmt(f)?;
        f.write_str("\nIt isn't lawful there: ")?;
        match self.why {
            Refusal::Closed => f.write_str("a step before it left no plan.\n"),
            Refusal::Absent(absent) => {
                f.write_str("something that it names isn't there.\n")?;
                writeln!(f, "{absent}")
            }
            Refusal::Lacking(lacking) => {
                f.write_str("what it asks for isn't known.\n  ")?;
                writeln!(f, "{lacking}")
            }
        }
    }
}
