//! What is told of any plan, of early ends, of longer runs, and of how late all has to end.

ghost use Rattle.std.specs.Prelude.{◌≤◌, IfOk, IfSome, IsTrue, length};
ghost use Rattle.ttp_model.specs.Delays.{HasNoPlan};
ghost use Rattle.ttp_model.specs.Plans.{IsValid};
ghost use Rattle.instance_variants.specs.Ends.{AreThere, IsLeastEnd};
ghost use Rattle.instance_variants.specs.Lateness.{IsLeastLateness};
ghost use Rattle.instance_variants.specs.Longer.{IsGreatestMargin};

use plan_questions::{
    Asking, EndLimit, Gate, Lateness, Margin, Scale, SolveFault, Sought, any_plan, greatest_margin,
    least_end, least_lateness,
};
use std::marker::Sync;
use std::sync::Wait;
use std::thread::Threads;
use ttp_model::{Instance, Plan};

/// Any plan that is told is valid.
pub fn any_plan_is_valid<R: Threads + Wait + Sync, G: Gate + Sync>(
    rt: &R,
    asking: &Asking<'_, G>,
    instance: &Instance,
) -> Result<Option<Plan>, SolveFault>
    ensures { IfOk result (λ found. IfSome found (IsValid instance.now)) }
{
    match any_plan(rt, asking, instance)? {
        Sought::Found { plan, .. } => Ok(Some(plan)),
        Sought::Absent { .. } | Sought::Open { .. } => Ok(None),
    }
}

/// A search that was stopped isn't told as one that found that there is none.
pub fn absence_is_told_of_no_plan<R: Threads + Wait + Sync, G: Gate + Sync>(
    rt: &R,
    asking: &Asking<'_, G>,
    instance: &Instance,
) -> Result<bool, SolveFault>
    ensures { IfOk result (λ is_absent. IsTrue is_absent → HasNoPlan instance.now) }
{
    match any_plan(rt, asking, instance)? {
        Sought::Absent { .. } => Ok(true),
        Sought::Found { .. } | Sought::Open { .. } => Ok(false),
    }
}

/// No plan ends these processes before the least end, also where the last search was stopped.
pub fn none_ends_before_the_least_end<R: Threads + Wait + Sync, G: Gate + Sync>(
    rt: &R,
    asking: &Asking<'_, G>,
    instance: &Instance,
    processes: &[u32],
) -> Result<Option<u32>, SolveFault>
    requires { AreThere instance.now processes.now }
    ensures { IfOk result (λ least. IfSome least (IsLeastEnd instance.now processes.now)) }
{
    match least_end(rt, asking, instance, processes)? {
        EndLimit::Least { end, .. } => Ok(Some(end)),
        EndLimit::Reached { end, .. } => Ok(Some(end)),
        EndLimit::Between { .. } | EndLimit::Unknown { .. } | EndLimit::Infeasible { .. } => {
            Ok(None)
        }
    }
}

/// With one more than the greatest margin no plan is valid, also where a window says so and no search.
pub fn none_has_more_than_the_margin<R: Threads + Wait + Sync, G: Gate + Sync>(
    rt: &R,
    asking: &Asking<'_, G>,
    instance: &Instance,
    processes: &[u32],
    scale: Scale,
) -> Result<Option<u32>, SolveFault>
    requires there { AreThere instance.now processes.now }
    requires some { 1 ≤ length processes.now }
    ensures { IfOk result (λ greatest. IfSome greatest (IsGreatestMargin instance.now processes.now scale)) }
{
    match greatest_margin(rt, asking, instance, processes, scale)? {
        Margin::Greatest { margin, .. } => Ok(Some(margin)),
        Margin::Window { margin, .. } => Ok(Some(margin)),
        Margin::Between { .. } | Margin::Unknown { .. } | Margin::Never => Ok(None),
    }
}

/// With fewer ticks than the least lateness there is no plan.
pub fn none_is_less_late<R: Threads + Wait + Sync, G: Gate + Sync>(
    rt: &R,
    asking: &Asking<'_, G>,
    instance: &Instance,
) -> Result<Option<u32>, SolveFault>
    requires { HasNoPlan instance.now }
    ensures { IfOk result (λ least. IfSome least (IsLeastLateness instance.now)) }
{
    match least_lateness(rt, asking, instance)? {
        Lateness::Least { late, .. } => Ok(Some(late)),
        Lateness::Between { .. } | Lateness::Unknown { .. } | Lateness::Never => Ok(None),
    }
}

/// Where no plan is known however late, a tick at least is told: as it is the instance has none.
pub fn unknown_lateness_is_a_tick_at_least<R: Threads + Wait + Sync, G: Gate + Sync>(
    rt: &R,
    asking: &Asking<'_, G>,
    instance: &Instance,
) -> Result<Option<u32>, SolveFault>
    requires { HasNoPlan instance.now }
    ensures { IfOk result (λ low. IfSome low (λ ticks. 1 ≤ ticks)) }
{
    match least_lateness(rt, asking, instance)? {
        Lateness::Unknown { low } => Ok(Some(low)),
        Lateness::Least { .. } | Lateness::Between { .. } | Lateness::Never => Ok(None),
    }
}
