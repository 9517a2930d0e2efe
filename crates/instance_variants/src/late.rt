//! By how many ticks is a plan late?

ghost use Rattle.std.specs.Prelude.{◌≡◌, ◌^◌, ◌<◌};
ghost use Rattle.ttp_model.specs.Plans.{HasStartsLength};
ghost use Rattle.instance_variants.specs.Lateness.{lateness};

use plan_facts::late_by;
use ttp_model::{Instance, Plan};

/// By how many ticks a plan is late: the process that is the latest, past its deadline or past the horizon. A step for each process.
pub fn lateness(instance: &Instance, plan: &Plan) -> u64
    requires { HasStartsLength instance.now plan.now }
    ensures value { result ≡ lateness instance.now plan.now }
    ensures bound { result < 2 ^ 33 }
{
    let count = instance.processes().len();
    let mut late = 0;
    for p in 0..count {
        late = late_by(instance, plan, p).max(late);
    }
    late
}
