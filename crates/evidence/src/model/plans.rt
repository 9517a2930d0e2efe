//! What is told of a plan that just keeps a rule, or just breaks it.

ghost use Rattle.std.specs.Prelude.{◌≡◌, ◌≢◌, ℕ, ◌+◌, ◌<◌, ◌≤◌, IfErr, IsErr, length, slice_index};
ghost use Rattle.ttp_model.specs.Instance.{link_at, message_at, process_at};
ghost use Rattle.ttp_model.specs.Plans.{end_of, load_on, sent_until, start_of};
ghost use Rattle.ttp_model.specs.declared.fault.PlanFault.TheVariants.{BrokenLink, Overfull, OverfullOn, Overlap, TooEarly};

use plan_check::check;
use ttp_model::{Instance, Plan, PlanFault};

/// A process that starts a tick past its release isn't told as too early.
pub fn start_past_its_release(instance: &Instance, plan: &Plan, p: u32) -> Result<u64, PlanFault>
    ensures { start_of plan.now p ≡ (process_at instance.now p).release + 1
        → IfErr result (λ fault. fault ≢ TooEarly p) }
{
    check(instance, plan)
}

/// A process that ends a tick past the horizon is in no valid plan.
pub fn end_past_the_horizon(instance: &Instance, plan: &Plan, p: u32) -> Result<u64, PlanFault>
    ensures { p < length instance.now.processes
        → end_of instance.now plan.now p ≡ instance.now.cluster.horizon + 1 → IsErr result }
{
    check(instance, plan)
}

/// The first node may not stand at the second position too.
pub fn first_node_once_more(instance: &Instance, plan: &Plan) -> Result<u64, PlanFault>
    ensures { 1 < length instance.now.nodes
        → slice_index plan.now.order 0 ≡ slice_index plan.now.order 1 → IsErr result }
{
    check(instance, plan)
}

/// A frame that is just full on a channel isn't told as overfull there.
pub fn frame_that_is_full(
    instance: &Instance,
    plan: &Plan,
    n: u32,
    r: u32,
) -> Result<u64, PlanFault>
    ensures alone { load_on instance.now plan.now n r 0 ≡ slice_index plan.now.caps n
        → IfErr result (λ fault. fault ≢ Overfull n r) }
    ensures doubled { (c : ℕ) → load_on instance.now plan.now n r c ≡ slice_index plan.now.caps n
        → IfErr result (λ fault. fault ≢ OverfullOn n r c) }
{
    check(instance, plan)
}

/// A link whose second process starts as its first ends isn't told as broken.
pub fn link_without_a_gap(instance: &Instance, plan: &Plan, l: u32) -> Result<u64, PlanFault>
    ensures { end_of instance.now plan.now (link_at instance.now l).before
        ≡ start_of plan.now (link_at instance.now l).after
        → IfErr result (λ fault. fault ≢ BrokenLink l) }
{
    check(instance, plan)
}

/// Two processes that touch aren't told to overlap.
pub fn processes_that_touch(
    instance: &Instance,
    plan: &Plan,
    p: u32,
    q: u32,
) -> Result<u64, PlanFault>
    ensures { end_of instance.now plan.now p ≡ start_of plan.now q
        → IfErr result (λ fault. fault ≢ Overlap p q) }
{
    check(instance, plan)
}

/// A receiver that starts a tick before a message is copied in is in no valid plan.
pub fn start_before_the_message(
    instance: &Instance,
    plan: &Plan,
    m: u32,
    k: u32,
) -> Result<u64, PlanFault>
    ensures { m < length instance.now.messages → k < length (message_at instance.now m).receivers
        → sent_until instance.now plan.now m + instance.now.cluster.copy_in
        ≡ start_of plan.now (slice_index (message_at instance.now m).receivers k) + 1
        → IsErr result }
{
    check(instance, plan)
}
