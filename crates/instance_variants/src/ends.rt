//! When does the last of some processes end?

ghost use Rattle.std.specs.Prelude.{◌≡◌, ◌^◌, ◌<◌};
ghost use Rattle.ttp_model.specs.Plans.{HasStartsLength};
ghost use Rattle.instance_variants.specs.Ends.{AreThere, last_end};

use ttp_model::{Instance, Plan, end_of};

/// When the last of these processes ends in a plan, in ticks; 0 where there are none. A step for each.
pub fn last_end(instance: &Instance, plan: &Plan, processes: &[u32]) -> u64
    requires starts { HasStartsLength instance.now plan.now }
    requires there { AreThere instance.now processes.now }
    ensures value { result ≡ last_end instance.now plan.now processes.now }
    ensures bound { result < 2 ^ 33 }
{
    let mut last = 0;
    for p in processes {
        last = end_of(instance, plan, *p as usize).max(last);
    }
    last
}
