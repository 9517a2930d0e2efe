//! Does propagation close a choice?

ghost use Rattle.std.specs.Prelude.{IfOk};
ghost use Rattle.tt_choice.specs.Choice.{IsChoice};
ghost use Rattle.search_trees.specs.Trials.{IsTrial};

use path_bounds::{Agenda, Facts, Reached, closed_leaf, propagate};
use std::alloc::Global;
use tt_choice::Choice;
use ttp_model::{Instance, Leaf, MemoryFault};

/// What propagation comes to.
#[derive(Drop)]
pub enum Trial<'a> {
    /// A leaf at the goal, without the steps that its closer doesn't need.
    Closed(Leaf),
    /// What is known of the plans that may be left.
    At(Facts<'a>),
}

/// Tries whether propagation with this agenda closes a choice at a goal in ticks.
fn tried_by<'a>(
    alloc: Global,
    agenda: &mut Agenda,
    instance: &'a Instance,
    choice: &Choice,
    goal: u32,
) -> Result<Trial<'a>, MemoryFault>
    requires { IsChoice instance.now choice.now }
    ensures { IfOk result (IsTrial instance.now choice.now goal) }
{
    let mut steps = Vec::new(alloc);
    match propagate(alloc, agenda, instance, choice, goal, &mut steps)? {
        Reached::Closed => {
            let leaf = closed_leaf(alloc, instance, choice, goal, steps)?;
            Ok(Trial::Closed(leaf))
        }
        Reached::At(facts) => Ok(Trial::At(facts)),
    }
}

/// Tries whether propagation closes a choice at a goal in ticks.
pub fn tried<'a>(
    alloc: Global,
    instance: &'a Instance,
    choice: &Choice,
    goal: u32,
) -> Result<Trial<'a>, MemoryFault>
    requires { IsChoice instance.now choice.now }
    ensures { IfOk result (IsTrial instance.now choice.now goal) }
{
    let mut agenda = Agenda::of(alloc, instance)?;
    let trial = tried_by(alloc, &mut agenda, instance, choice, goal);
    drop(agenda);
    trial
}
