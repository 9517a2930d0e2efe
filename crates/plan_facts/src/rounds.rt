//! In which round can a message be sent at the earliest, where nothing else changes?

ghost use Rattle.std.specs.Prelude.{◌<◌, ◌↔◌, IsTrue, length};
ghost use Rattle.ttp_model.specs.Plans.{IsValid};
ghost use Rattle.plan_facts.specs.Earliest.{HasRoom, HasRoomOn, IsFirstRoom};

use crate::frames::load_on;
use crate::messages::first_in_time;
use tt_layout::Layout;
use ttp_model::{Instance, Plan, is_on};

/// The first round in which message `m` is ready and has room. Of the rounds from the first in
/// which it is ready it looks at one without room for each other message of its node at most.
pub fn first_room(instance: &Instance, plan: &Plan, m: usize) -> u32
    requires valid { IsValid instance.now plan.now }
    requires inside { m < length instance.now.messages }
    ensures { IsFirstRoom instance.now plan.now m result }
{
    let layout = Layout::of(instance, plan.order.as_slice(), plan.caps.as_slice());
    let round = plan.rounds.as_slice()[m];
    let first = first_in_time(instance, plan, &layout, m);
    for r in first as u32..round {
        if has_room(instance, plan, m, r) {
            return r;
        }
    }
    round
}

/// Whether the frame of this round has room for message `m` beside what is in it, on each of its channels.
fn has_room(instance: &Instance, plan: &Plan, m: usize, r: u32) -> bool
    requires valid { IsValid instance.now plan.now }
    requires inside { m < length instance.now.messages }
    ensures { IsTrue result ↔ HasRoom instance.now plan.now m r }
{
    for c in 0..instance.cluster().channels {
        if !has_room_on(instance, plan, m, r, c) {
            return false;
        }
    }
    true
}

/// The same on channel `c`, where the message is on it.
fn has_room_on(instance: &Instance, plan: &Plan, m: usize, r: u32, c: u32) -> bool
    requires valid { IsValid instance.now plan.now }
    requires inside { m < length instance.now.messages }
    ensures { IsTrue result ↔ HasRoomOn instance.now plan.now m r c }
{
    let n = instance.source_of(m);
    let bytes = u64::from(instance.message_at(m).bytes);
    let capacity = u64::from(plan.caps.as_slice()[n as usize]);
    !is_on(c, plan.channels.as_slice()[m]) || load_on(instance, plan, n, r, c) + bytes <= capacity
}
