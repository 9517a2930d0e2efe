//! What is told of a plan that breaks a rule, or states another delay than its own?

ghost use Rattle.std.specs.Prelude.{◌≡◌, ◌≢◌, ◌+◌, IfOk};
ghost use Rattle.ttp_model.specs.declared.fault.PlanFault.TheVariants as fault;
ghost use Rattle.ttp_model.specs.Delays.{delay};
ghost use Rattle.ttp_model.specs.Faults.{IsFirstFault};
ghost use Rattle.ttp_model.specs.Plans.{HasLengths, load_on, sent_until};
ghost use Rattle.plan_reasons.specs.declared.frames.Overfull.{Overfull};
ghost use Rattle.plan_reasons.specs.declared.messages.NotArrived.{NotArrived};
ghost use Rattle.plan_reasons.specs.declared.reason.PlanReason.TheVariants as reason;

use plan_reasons::{OtherDelay, PlanReason, other_delay, reason_of};
use std::alloc::Global;
use ttp_model::{Instance, MemoryFault, Plan, PlanFault};

/// The delay that a plan states is told as stated, and its own as its own.
pub fn own_delay_is_told_as_such<'a>(
    instance: &'a Instance,
    plan: &Plan,
    stated: u32,
) -> OtherDelay<'a>
    requires lengths { HasLengths instance.now plan.now }
    requires other { stated ≢ delay instance.now plan.now }
    ensures stated { result.stated ≡ stated }
    ensures own { result.own ≡ delay instance.now plan.now }
{
    other_delay(instance, plan, stated)
}

/// Of a frame that is too full on channel 1 the bytes there are told.
pub fn second_channel_has_its_own_load<'a>(
    alloc: Global,
    instance: &'a Instance,
    plan: &Plan,
    n: u32,
    r: u32,
) -> Result<PlanReason<'a>, MemoryFault>
    requires { IsFirstFault instance.now plan.now (fault.OverfullOn n r 1) }
    ensures { IfOk result (λ told. (x : Overfull) → told ≡ reason.Overfull x → x.load ≡ load_on instance.now plan.now n r 1) }
{
    reason_of(alloc, instance, plan, PlanFault::OverfullOn(n, r, 1))
}

/// A message is there once it is copied in, and not when its slot ends.
pub fn copying_in_is_counted<'a>(
    alloc: Global,
    instance: &'a Instance,
    plan: &Plan,
    m: u32,
    q: u32,
) -> Result<PlanReason<'a>, MemoryFault>
    requires { IsFirstFault instance.now plan.now (fault.NotArrived m q) }
    ensures { IfOk result (λ told. (r : NotArrived) → told ≡ reason.NotArrived r
        → r.there ≡ sent_until instance.now plan.now m + instance.now.cluster.copy_in) }
{
    reason_of(alloc, instance, plan, PlanFault::NotArrived(m, q))
}
