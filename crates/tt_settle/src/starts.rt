//! A process starts as early as it can, where nothing else changes.

ghost use Rattle.std.specs.Prelude.{◌<◌, length};
ghost use Rattle.ttp_model.specs.Rules.{IsInstance};
ghost use Rattle.ttp_model.specs.Plans.{IsValid};
ghost use Rattle.tt_settle.specs.Settling.{IsTried, RestsAtStart};

use crate::changes::start_at;
use plan_facts::first_start;
use ttp_model::{Instance, Plan};

/// Lets process `p` start when all is over that it waits for, and tells whether that is earlier
/// than before.
pub fn start_one(instance: &Instance, plan: Plan, p: usize) -> (Plan, bool)
    requires instance { IsInstance instance.now }
    requires valid { IsValid instance.now plan }
    requires inside { p < length instance.now.processes }
    ensures { IsTried instance.now plan (λ q. RestsAtStart instance.now q p) result.0 result.1 }
{
    let first = first_start(instance, &plan, p);
    if first < u64::from(plan.starts.as_slice()[p]) {
        (start_at(plan, p, first as u32), true)
    } else {
        (plan, false)
    }
}
