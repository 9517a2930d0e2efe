//! When does a process of a plan end, and when does the last one?

ghost use Rattle.std.specs.Prelude.{◌≡◌, ◌^◌, ◌<◌, ◌≤◌, length};
ghost use Rattle.ttp_model.specs.Plans.{HasStartsLength, IsValid, end_of};
ghost use Rattle.ttp_model.specs.Delays.{delay};

use crate::instance::Instance;
use crate::limits::MOST_TICKS;
use crate::plan::Plan;

/// When process `p` ends, in ticks: the first one after it. One step.
pub fn end_of(instance: &Instance, plan: &Plan, p: usize) -> u64
    requires starts { HasStartsLength instance.now plan.now }
    requires inside { p < length instance.now.processes }
    ensures value { result ≡ end_of instance.now plan.now p }
    ensures bound { result < 2 ^ 33 }
{
    u64::from(plan.starts.as_slice()[p]) + u64::from(instance.process_at(p).wcet)
}

/// The delay of a plan: when its last process ends, in ticks. One pass over the processes.
pub fn delay(instance: &Instance, plan: &Plan) -> u64
    requires { HasStartsLength instance.now plan.now }
    ensures value { result ≡ delay instance.now plan.now }
    ensures bound { result < 2 ^ 33 }
    ensures valid { IsValid instance.now plan.now → result ≤ MOST_TICKS }
{
    let count = instance.processes().len();
    let mut last = 0;
    for p in 0..count {
        last = end_of(instance, plan, p).max(last);
    }
    last
}
