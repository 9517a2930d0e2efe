//! Of how many slots a picture may be, and what a picture has of its plan.

ghost use Rattle.std.specs.Prelude.{◌≡◌, ℕ, ◌*◌, ◌<◌, ◌≤◌, Contains, IfOk, IfSome, None, Some, length, slice_index, string_bytes};
ghost use Rattle.ttp_model.specs.Instance.{message_at};
ghost use Rattle.ttp_model.specs.Plans.{load_on};
ghost use Rattle.tt_layout.specs.Cycle.{cycle_rounds};
ghost use Rattle.plan_sheets.specs.Limits.{least_width, most_width};
ghost use Rattle.evidence.specs.Parts.{IsPartOf};
ghost use Rattle.evidence.specs.Pictures.{delivery_line, process_box, slot_box};

use plan_check::check;
use plan_sheets::pictures::{Shown, print, too_many_slots};
use std::alloc::Global;
use ttp_model::{Instance, MemoryFault, Plan};

/// A cycle of 100,001 slots is told as too many to show each, and one of 100,000 isn't.
pub fn slots_just_too_many(instance: &Instance, plan: &Plan) -> Option<Option<u64>>
    ensures past { cycle_rounds instance.now plan.now * length instance.now.nodes ≡ 100001
        → IfSome result (λ told. told ≡ Some 100001) }
    ensures most { cycle_rounds instance.now plan.now * length instance.now.nodes ≡ 100000
        → IfSome result (λ told. told ≡ None) }
{
    let Ok(_ticks) = check(instance, plan) else {
        return None;
    };
    Some(too_many_slots(instance, plan, Shown::All))
}

/// A picture has the rectangle of each process, from its start on.
pub fn picture_with_processes(
    alloc: Global,
    instance: &Instance,
    plan: &Plan,
    width: u32,
    shown: Shown,
) -> Result<Option<String>, MemoryFault>
    requires least { least_width ≤ width }
    requires most { width ≤ most_width }
    ensures { (p : ℕ) → p < length instance.now.processes → IfOk result (λ found. IfSome found (λ text.
        IsPartOf (process_box instance.now plan.now p) (string_bytes text))) }
{
    let Ok(_ticks) = check(instance, plan) else {
        return Ok(None);
    };
    let text = print(alloc, instance, plan, width, shown)?;
    Ok(Some(text))
}

/// One that shows each slot has the rectangles of those that carry nothing, each in its channel's row.
pub fn picture_with_empty_slots(
    alloc: Global,
    instance: &Instance,
    plan: &Plan,
    width: u32,
) -> Result<Option<String>, MemoryFault>
    requires least { least_width ≤ width }
    requires most { width ≤ most_width }
    ensures { (r k c : ℕ) → r < cycle_rounds instance.now plan.now → k < length instance.now.nodes → c < instance.now.cluster.channels
        → load_on instance.now plan.now (slice_index plan.now.order k) r c ≡ 0
        → IfOk result (λ found. IfSome found (λ text.
        IsPartOf (slot_box instance.now plan.now (slice_index plan.now.order k) r c) (string_bytes text))) }
{
    let Ok(_ticks) = check(instance, plan) else {
        return Ok(None);
    };
    let text = print(alloc, instance, plan, width, Shown::All)?;
    Ok(Some(text))
}

/// A picture has a line to each receiver of a message, from the end of the message's slot.
pub fn picture_with_deliveries(
    alloc: Global,
    instance: &Instance,
    plan: &Plan,
    width: u32,
    shown: Shown,
) -> Result<Option<String>, MemoryFault>
    requires least { least_width ≤ width }
    requires most { width ≤ most_width }
    ensures { (m q : ℕ) → m < length instance.now.messages → Contains (message_at instance.now m).receivers q
        → IfOk result (λ found. IfSome found (λ text.
        IsPartOf (delivery_line instance.now plan.now width m q) (string_bytes text))) }
{
    let Ok(_ticks) = check(instance, plan) else {
        return Ok(None);
    };
    let text = print(alloc, instance, plan, width, shown)?;
    Ok(Some(text))
}
