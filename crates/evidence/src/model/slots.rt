//! When slots begin, and where the cycle of a plan ends.

ghost use Rattle.std.specs.Prelude.{◌≡◌, ◌+◌, ◌*◌, ◌≤◌, IfSome};
ghost use Rattle.ttp_model.specs.Delays.{delay};
ghost use Rattle.ttp_model.specs.Slots.{round_length, slot_start};

use plan_check::check;
use tt_layout::{Layout, cycle_rounds};
use ttp_model::{Instance, Plan};

/// The slot of the node that is first in the order begins with its round.
pub fn first_slot_of_round(instance: &Instance, plan: &Plan, round: u32) -> Option<u64>
    ensures { IfSome result (λ start.
        start ≡ round * round_length instance.now.cluster plan.now.caps) }
{
    let _nodes = instance.nodes();
    let Ok(_ticks) = check(instance, plan) else {
        return None;
    };
    let order = plan.order.as_slice();
    let layout = Layout::of(instance, order, plan.caps.as_slice());
    Some(layout.slot_start(order[0], round))
}

/// The slot of the round that is answered for a time begins at that time or later.
pub fn begins_at_or_after(instance: &Instance, plan: &Plan, n: u32, time: u64) -> Option<u64>
    ensures { IfSome result (λ round.
        time ≤ slot_start instance.now.cluster plan.now.order plan.now.caps n round) }
{
    let Ok(_ticks) = check(instance, plan) else {
        return None;
    };
    if n as usize >= instance.nodes().len() {
        return None;
    }
    let layout = Layout::of(instance, plan.order.as_slice(), plan.caps.as_slice());
    Some(layout.first_round_at(n, time))
}

/// The rounds of the cycle last until the delay or longer.
pub fn cycle_past_delay(instance: &Instance, plan: &Plan) -> Option<u32>
    ensures { IfSome result (λ rounds. delay instance.now plan.now
        ≤ rounds * round_length instance.now.cluster plan.now.caps) }
{
    let _nodes = instance.nodes();
    let Ok(_ticks) = check(instance, plan) else {
        return None;
    };
    Some(cycle_rounds(instance, plan))
}
