//! What is told of processes of a plan that keep their times or their order not?

ghost use Rattle.std.specs.Prelude.{◌≡◌, ◌<◌, IfOk, length};
ghost use Rattle.ttp_model.specs.declared.fault.PlanFault.TheVariants as fault;
ghost use Rattle.ttp_model.specs.Faults.{IsFirstFault};
ghost use Rattle.ttp_model.specs.Instance.{link_at, process_at};
ghost use Rattle.ttp_model.specs.Names.{process_name};
ghost use Rattle.ttp_model.specs.Plans.{end_of, start_of};
ghost use Rattle.plan_reasons.specs.declared.limits.Limit.TheVariants.{Deadline};
ghost use Rattle.plan_reasons.specs.declared.processes.BrokenLink.{BrokenLink};
ghost use Rattle.plan_reasons.specs.declared.processes.Overlap.{Overlap};
ghost use Rattle.plan_reasons.specs.declared.reason.PlanReason.TheVariants as reason;

use plan_reasons::{Limit, PlanReason, limit_of, reason_of};
use std::alloc::Global;
use ttp_model::{Instance, MemoryFault, Plan, PlanFault};

/// Where the deadline of a process is the horizon it is told as the deadline.
pub fn deadline_at_the_horizon_is_told(instance: &Instance, p: usize) -> Limit
    requires { p < length instance.now.processes }
    ensures { (process_at instance.now p).deadline ≡ instance.now.cluster.horizon → result ≡ Deadline }
{
    limit_of(instance, p)
}

/// The second process of a link waits for the first.
pub fn second_of_a_link_waits<'a>(
    alloc: Global,
    instance: &'a Instance,
    plan: &Plan,
    l: u32,
) -> Result<PlanReason<'a>, MemoryFault>
    requires { IsFirstFault instance.now plan.now (fault.BrokenLink l) }
    ensures { IfOk result (λ told. (r : BrokenLink) → told ≡ reason.BrokenLink r
        → (r.after.now ≡ process_name instance.now (link_at instance.now l).after)
        × (r.before.now ≡ process_name instance.now (link_at instance.now l).before)) }
{
    reason_of(alloc, instance, plan, PlanFault::BrokenLink(l))
}

/// A process runs from its start to its end.
pub fn start_stands_before_the_end<'a>(
    alloc: Global,
    instance: &'a Instance,
    plan: &Plan,
    p: u32,
    q: u32,
) -> Result<PlanReason<'a>, MemoryFault>
    requires { IsFirstFault instance.now plan.now (fault.Overlap p q) }
    ensures { IfOk result (λ told. (r : Overlap) → told ≡ reason.Overlap r
        → (r.start ≡ start_of plan.now p) × (r.end ≡ end_of instance.now plan.now p)) }
{
    reason_of(alloc, instance, plan, PlanFault::Overlap(p, q))
}
