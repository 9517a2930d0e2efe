//! From a schedule to a settled plan.

ghost use Rattle.std.specs.Prelude.{◌≡◌, IfOk, IfSome};
ghost use Rattle.ttp_model.specs.Delays.{delay};
ghost use Rattle.ttp_model.specs.Moves.{IsSettled};

use crate::climbs::{Asked, best_plan};
use std::alloc::Global;
use std::thread::Threads;
use tt_settle::settle;
use ttp_model::{Instance, MemoryFault, Plan, delay};

/// A settled plan with its delay in ticks, if a climb leads to one: often a good one, at times
/// one of the shortest. Takes some tenths of a second, of a large instance some three, and less where a schedule of at most `enough` ticks
/// is met: a climb ends with it. That none is found says nothing. Climbs go side
/// by side where there are several workers, which changes nothing of what is found. A fault of memory where one of the lists that all
/// this is done in got none.
pub fn good_plan<R: Threads + Sync>(
    rt: &R,
    alloc: Global,
    instance: &Instance,
    workers: u32,
    enough: u64,
) -> Result<Option<(Plan, u64)>, MemoryFault>
    ensures { IfOk result (λ found. IfSome found (λ f.
        IsSettled instance.now f.0 × (f.1 ≡ delay instance.now f.0))) }
{
    let plan = best_plan(rt, alloc, instance, Asked { workers, enough })?;
    Ok(settled(alloc, instance, plan))
}

/// The plan settled, with its delay, where it is valid.
fn settled(alloc: Global, instance: &Instance, plan: Plan) -> Option<(Plan, u64)>
    ensures { IfSome result (λ f.
        IsSettled instance.now f.0 × (f.1 ≡ delay instance.now f.0)) }
{
    if plan_check::check(instance, &plan).is_err() {
        return None;
    }
    let plan = settle(alloc, instance, plan).unwrap();
    let delay = delay(instance, &plan);
    Some((plan, delay))
}
