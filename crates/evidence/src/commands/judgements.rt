//! What is told of a plan by a certificate?

ghost use Rattle.std.specs.Prelude.{◌≡◌};
ghost use Rattle.command_streams.specs.Outcomes.{IsWritten};
ghost use Rattle.evidence.specs.Judgements.{StatesNoPlan, TellsBounds, TellsLeast};

use command_streams::End;
use plan_commands::judge_run;
use std::alloc::Global;
use std::io::Write;
use std::thread::Threads;

/// The delay that is told as the least is the least, and not one above the bound.
pub fn delay_told_is_the_least<W: Write>(
    rt: &(impl Threads + Sync),
    alloc: Global,
    is_long: bool,
    instance: &[u8],
    plan: &[u8],
    certificate: &[u8],
    out: &mut W,
) -> End
    ensures { result ≡ End.Done → IsWritten (TellsLeast instance.now) (W.contents out.old) (W.contents out.new) }
{
    let (mut instance, mut plan, mut certificate) = (instance, plan, certificate);
    judge_run(
        rt,
        alloc,
        is_long,
        &mut instance,
        &mut plan,
        &mut certificate,
        out,
    )
}

/// That there is no plan is told only where none is valid, and not where none is below the horizon.
pub fn none_is_told_of_no_plan<W: Write>(
    rt: &(impl Threads + Sync),
    alloc: Global,
    is_long: bool,
    instance: &[u8],
    plan: &[u8],
    certificate: &[u8],
    out: &mut W,
) -> End
    ensures { result ≡ End.Absent → StatesNoPlan instance.now }
{
    let (mut instance, mut plan, mut certificate) = (instance, plan, certificate);
    judge_run(
        rt,
        alloc,
        is_long,
        &mut instance,
        &mut plan,
        &mut certificate,
        out,
    )
}

/// The bound is told first, and the delay behind it.
pub fn bounds_are_told_in_order<W: Write>(
    rt: &(impl Threads + Sync),
    alloc: Global,
    is_long: bool,
    instance: &[u8],
    plan: &[u8],
    certificate: &[u8],
    out: &mut W,
) -> End
    ensures { result ≡ End.Stopped → IsWritten (TellsBounds instance.now) (W.contents out.old) (W.contents out.new) }
{
    let (mut instance, mut plan, mut certificate) = (instance, plan, certificate);
    judge_run(
        rt,
        alloc,
        is_long,
        &mut instance,
        &mut plan,
        &mut certificate,
        out,
    )
}
