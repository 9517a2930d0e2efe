//! By when does a process have to end, and by how much is it late?

ghost use Rattle.std.specs.Prelude.{◌≡◌, ◌^◌, ◌<◌, length};
ghost use Rattle.ttp_model.specs.Plans.{HasStartsLength};
ghost use Rattle.plan_facts.specs.Ends.{late_by, must_end_by};

use ttp_model::{Instance, Plan, end_of};

/// By when process `p` has to end, whatever the plan says: its deadline or the horizon. One step.
pub fn must_end_by(instance: &Instance, p: usize) -> u32
    requires { p < length instance.now.processes }
    ensures { result ≡ must_end_by instance.now p }
{
    let deadline = instance.process_at(p).deadline;
    deadline.min(instance.cluster().horizon)
}

/// By how many ticks it ends past that; 0 where it ends in time. One step.
pub fn late_by(instance: &Instance, plan: &Plan, p: usize) -> u64
    requires starts { HasStartsLength instance.now plan.now }
    requires inside { p < length instance.now.processes }
    ensures value { result ≡ late_by instance.now plan.now p }
    ensures bound { result < 2 ^ 33 }
{
    end_of(instance, plan, p).saturating_sub(u64::from(must_end_by(instance, p)))
}
