//! What is read of a plan's text and printed of a plan, and what a settled plan keeps.

ghost use Rattle.std.specs.Prelude.{ℕ, ◌<◌, IfOk, IsFalse, length};
ghost use Rattle.ttp_model.specs.Delays.{delay};
ghost use Rattle.ttp_model.specs.Moves.{leads_turned};
ghost use Rattle.ttp_model.specs.Plans.{FitsFrame, HasArrivedEverywhere, IsValid};
ghost use Rattle.plan_format.specs.Spelling.{SpellsPlan};

use plan_format::{PlanTextError, print, read};
use std::alloc::Global;
use tt_settle::settle;
use ttp_model::{Instance, MemoryFault, Plan};

/// The frames of a settled plan hold what is put into them.
pub fn settled_frames_fit(
    alloc: Global,
    instance: &Instance,
    plan: Plan,
) -> Result<Plan, (Plan, MemoryFault)>
    requires { IsValid instance.now plan }
    ensures { IfOk result (λ settled. (m : ℕ) → m < length instance.now.messages → FitsFrame instance.now settled m) }
{
    settle(alloc, instance, plan)
}

/// Its messages have arrived, whole and copied in, before their receivers start.
pub fn settled_messages_arrive(
    alloc: Global,
    instance: &Instance,
    plan: Plan,
) -> Result<Plan, (Plan, MemoryFault)>
    requires { IsValid instance.now plan }
    ensures { IfOk result (λ settled. (m : ℕ) → m < length instance.now.messages → HasArrivedEverywhere instance.now settled m) }
{
    settle(alloc, instance, plan)
}

/// None of its frames is turned: the first message of a frame that is on one channel alone is not on channel 1.
pub fn settled_frames_are_not_turned(
    alloc: Global,
    instance: &Instance,
    plan: Plan,
) -> Result<Plan, (Plan, MemoryFault)>
    requires { IsValid instance.now plan }
    ensures { IfOk result (λ settled. (m : ℕ) → m < length instance.now.messages → IsFalse (leads_turned instance.now settled m)) }
{
    let _messages = instance.messages();
    settle(alloc, instance, plan)
}

/// The whole text spells what is read of it, to the end of its last line.
pub fn text_spells_the_plan(
    alloc: Global,
    instance: &Instance,
    text: &[u8],
) -> Result<(Plan, u32), PlanTextError>
    ensures { IfOk result (λ read. SpellsPlan instance.now text.now read.0 read.1) }
{
    read(alloc, instance, text)
}

/// What is printed spells the plan, starts and rounds each in their place.
pub fn printed_text_spells_the_plan(
    alloc: Global,
    instance: &Instance,
    plan: &Plan,
) -> Result<Vec<u8>, MemoryFault>
    requires { IsValid instance.now plan.now }
    ensures { IfOk result (λ text. SpellsPlan instance.now text.items plan.now (delay instance.now plan.now)) }
{
    print(alloc, instance, plan)
}
