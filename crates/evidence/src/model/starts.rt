//! What is answered for a complete choice.

ghost use Rattle.std.specs.Prelude.{ℕ, ◌<◌, IfOk, IfSome};
ghost use Rattle.ttp_model.specs.declared.plan.Plan.{Plan};
ghost use Rattle.ttp_model.specs.Plans.{IsValid};
ghost use Rattle.tt_choice.specs.Choice.{IsChoice, IsIn};
ghost use Rattle.evidence.specs.Answers.{HasRoom, IsPlan, IsNoLater};

use earliest_starts::{Earliest, earliest};
use std::alloc::Global;
use tt_choice::Choice;
use ttp_model::{Instance, MemoryFault, delay_is_an_end, frames_fit};

/// Where the choice has a valid plan the answer is no clash, also where a message is ready just as
/// its slot begins.
pub fn plan_of_choice_with_plans(
    alloc: Global,
    instance: &Instance,
    choice: &Choice,
) -> Result<Option<Earliest>, MemoryFault>
    requires { IsChoice instance.now choice.now }
    ensures { (plan : Plan) → IsValid instance.now plan → IsIn instance.now choice.now plan
        → IfOk result (λ answer. IfSome answer IsPlan) }
{
    if !choice.is_complete(instance) {
        return Ok(None);
    }
    Ok(Some(earliest(alloc, instance, choice)?))
}

/// No valid plan of the choice ends before the one that is answered.
pub fn plan_that_ends_first(
    alloc: Global,
    instance: &Instance,
    choice: &Choice,
) -> Result<Option<Earliest>, MemoryFault>
    requires { IsChoice instance.now choice.now }
    ensures { (other : Plan) → IsValid instance.now other → IsIn instance.now choice.now other
        → IfOk result (λ answer. IfSome answer (IsNoLater instance.now other)) }
{
    let _processes = instance.processes();
    if !choice.is_complete(instance) {
        return Ok(None);
    }
    delay_is_an_end();
    Ok(Some(earliest(alloc, instance, choice)?))
}

/// All messages of a frame of the plan that is answered fit into it together, on each channel.
pub fn plan_with_room_in_frames(
    alloc: Global,
    instance: &Instance,
    choice: &Choice,
) -> Result<Option<Earliest>, MemoryFault>
    requires { IsChoice instance.now choice.now }
    ensures { (n r k : ℕ) → k < instance.now.cluster.channels
        → IfOk result (λ answer. IfSome answer (HasRoom instance.now n r k)) }
{
    if !choice.is_complete(instance) {
        return Ok(None);
    }
    frames_fit();
    Ok(Some(earliest(alloc, instance, choice)?))
}
