//! What is told of an instance and a plan?

ghost use Rattle.std.specs.Prelude.{◌≡◌};
ghost use Rattle.command_streams.specs.Instances.{StatesSome};
ghost use Rattle.command_streams.specs.Outcomes.{IsWritten};
ghost use Rattle.evidence.specs.Verdicts.{EndsWithWindows, TellsOwnDelay};

use command_streams::{End, Fault, Source};
use plan_commands::{tables, verify};
use std::alloc::Global;
use std::io::Write;

/// A plan that is told as valid states its own delay, which is in the line.
pub fn stated_delay_is_the_plans_own<W: Write>(
    alloc: Global,
    instance: &[u8],
    plan: &[u8],
    out: &mut W,
) -> End
    ensures { result ≡ End.Done
        → IsWritten (TellsOwnDelay instance.now plan.now) (W.contents out.old) (W.contents out.new) }
{
    let (mut instance, mut plan) = (instance, plan);
    verify(alloc, &mut instance, &mut plan, out)
}

/// A plan is told as unread only where the bytes before it state an instance.
pub fn plan_is_unread_only_behind_an_instance<W: Write>(
    alloc: Global,
    instance: &[u8],
    plan: &[u8],
    out: &mut W,
) -> End
    ensures { result ≡ End.Refused (Fault.Unread Source.Plan) → StatesSome instance.now }
{
    let (mut instance, mut plan) = (instance, plan);
    verify(alloc, &mut instance, &mut plan, out)
}

/// What is written of a plan's tables ends with its guardian windows.
pub fn tables_end_with_windows<W: Write>(
    alloc: Global,
    instance: &[u8],
    plan: &[u8],
    out: &mut W,
) -> End
    ensures { result ≡ End.Done
        → IsWritten (EndsWithWindows instance.now plan.now) (W.contents out.old) (W.contents out.new) }
{
    let (mut instance, mut plan) = (instance, plan);
    tables(alloc, &mut instance, &mut plan, out)
}
