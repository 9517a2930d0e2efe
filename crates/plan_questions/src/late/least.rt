//! How many ticks later would all have to end for there to be a plan?

ghost use Rattle.std.specs.Prelude.{IfOk};
ghost use Rattle.ttp_model.specs.Delays.{HasNoPlan};
ghost use Rattle.plan_questions.specs.LateAnswers.{IsLateness};

use super::answer::Lateness;
use super::late_cut::LateCut;
use crate::asking::Asking;
use crate::cuts::{LeastNumber, least_number};
use planner::{Gate, SolveFault};
use std::alloc::Global;
use std::marker::Sync;
use std::sync::Wait;
use std::thread::Threads;
use ttp_model::Instance;

/// How many ticks later all has to end for there to be a plan of an instance that has none. Searches first with all ends as late as
/// an instance can state: where there is no plan then, none is told, however many ticks later.
pub fn least_lateness<R: Threads + Wait + Sync, G: Gate + Sync>(
    rt: &R,
    asking: &Asking<'_, G>,
    instance: &Instance,
) -> Result<Lateness, SolveFault>
    requires { HasNoPlan instance.now }
    ensures { IfOk result (IsLateness instance.now asking.now.options) }
{
    let _nodes = instance.nodes();
    let least = least_number(rt, asking, &LateCut { instance })?;
    match least {
        LeastNumber::Exact { number, plan, .. } => Ok(Lateness::Least { late: number, plan }),
        LeastNumber::Apart {
            low,
            high,
            plan,
            ..
        } => Ok(Lateness::Between { low, high, plan }),
        LeastNumber::Open { .. } => Ok(Lateness::Unknown { low: 1 }),
        LeastNumber::Never { .. } => Ok(Lateness::Never),
    }
}
