//! By how much a process may run longer, and in which order the processes of a node are told.

ghost use Rattle.std.specs.Prelude.{◌≡◌, ℕ, ◌+◌, ◌<◌, ◌≤◌, ◌==◌, IfOk, IfSome, filter, length, slice_index};
ghost use Rattle.std.specs.List.{range_with_len};
ghost use Rattle.std.specs.List.Sorted.{IsPermutation};
ghost use Rattle.ttp_model.specs.Instance.{link_at, message_at, node_of};
ghost use Rattle.ttp_model.specs.Plans.{end_of, sent_from, start_of};
ghost use Rattle.plan_facts.specs.Ends.{must_end_by};
ghost use Rattle.evidence.specs.Schedules.{NothingWaits};

use plan_check::check;
use plan_sheets::{order_of, slack_of};
use std::alloc::Global;
use ttp_model::{Instance, MemoryFault, Plan};

/// A process that nothing waits for may run longer up to its last end, and no tick past it.
pub fn slack_up_to_the_last_end(instance: &Instance, plan: &Plan, p: usize) -> Option<u64>
    ensures { NothingWaits instance.now plan.now p
        → IfSome result (λ ticks. end_of instance.now plan.now p + ticks ≡ must_end_by instance.now p) }
{
    let Ok(_ticks) = check(instance, plan) else {
        return None;
    };
    if p >= instance.processes().len() {
        return None;
    }
    Some(slack_of(instance, plan, p))
}

/// One that a link leads from may run longer only up to the start of the link's second process.
pub fn slack_up_to_a_linked_start(instance: &Instance, plan: &Plan, p: usize) -> Option<u64>
    ensures { (l : ℕ) → l < length instance.now.links → (link_at instance.now l).before ≡ p
        → IfSome result (λ ticks. end_of instance.now plan.now p + ticks
        ≤ start_of plan.now (link_at instance.now l).after) }
{
    let Ok(_ticks) = check(instance, plan) else {
        return None;
    };
    if p >= instance.processes().len() {
        return None;
    }
    Some(slack_of(instance, plan, p))
}

/// One that sends a message may run longer only so that the message is copied out when its slot begins.
pub fn slack_up_to_a_slot(instance: &Instance, plan: &Plan, p: usize) -> Option<u64>
    ensures { (m : ℕ) → m < length instance.now.messages → (message_at instance.now m).sender ≡ p
        → IfSome result (λ ticks. end_of instance.now plan.now p + ticks + instance.now.cluster.copy_out
        ≤ sent_from instance.now plan.now m) }
{
    let Ok(_ticks) = check(instance, plan) else {
        return None;
    };
    if p >= instance.processes().len() {
        return None;
    }
    Some(slack_of(instance, plan, p))
}

/// The processes of a node are all there, and each starts no later than the next.
pub fn processes_by_rising_starts(
    alloc: Global,
    instance: &Instance,
    plan: &Plan,
    node: u32,
) -> Result<Option<Vec<u32>>, MemoryFault>
    ensures rising { (k : ℕ) → IfOk result (λ found. IfSome found (λ order. k + 1 < length order.items
        → start_of plan.now (slice_index order.items k) ≤ start_of plan.now (slice_index order.items (k + 1)))) }
    ensures all { IfOk result (λ found. IfSome found (λ order. IsPermutation
        (filter (λ p. node_of instance.now p == node) (range_with_len 0 (length instance.now.processes))) order.items)) }
{
    let Ok(_ticks) = check(instance, plan) else {
        return Ok(None);
    };
    let order = order_of(alloc, instance, plan, node)?;
    Ok(Some(order))
}
