//! What becomes of a choice by decisions that are made and taken back.

ghost use Rattle.std.specs.Prelude.{◌≡◌, IfOk, IsTrue};
ghost use Rattle.tt_choice.specs.Choice.{IsChoice, bare};

use std::alloc::Global;
use tt_choice::{Choice, Decision};
use ttp_model::{Instance, MemoryFault};

/// A decision that is found to be open is made and taken back: the choice is as it stood, with the decisions that it keeps.
/// Whether it was open.
pub fn decision_made_and_taken_back(
    alloc: Global,
    instance: &Instance,
    choice: &mut Choice,
    decision: Decision,
) -> Result<bool, MemoryFault>
    requires { IsChoice instance.now choice.old }
    ensures { choice.new ≡ choice.old }
{
    if !choice.is_open_decision(instance, decision) {
        return Ok(false);
    }
    choice.decide(alloc, instance, decision)?;
    choice.undo();
    Ok(true)
}

/// A choice that is found to keep no decision becomes another one. Whether it did.
pub fn choice_without_decisions(choice: &mut Choice, other: &Choice) -> Result<bool, MemoryFault>
    ensures { IfOk result (λ became. IsTrue became → choice.new ≡ bare other.now) }
{
    if choice.kept() > 0 {
        return Ok(false);
    }
    choice.set_to(other)?;
    Ok(true)
}
