//! How early can a process start, where nothing else changes?

ghost use Rattle.std.specs.Prelude.{◌≡◌, ◌<◌, length};
ghost use Rattle.ttp_model.specs.Graph.{Receives};
ghost use Rattle.ttp_model.specs.Raising.{IsRaised};
ghost use Rattle.ttp_model.specs.Plans.{HasLengths, IsValid, end_of};
ghost use Rattle.tt_layout.specs.Layout.{timing};
ghost use Rattle.plan_facts.specs.Earliest.{GoesBefore, IsFirstStart};
ghost use Rattle.plan_facts.specs.Messages.{arrival};

use crate::messages::arrival;
use tt_layout::Layout;
use ttp_model::{Instance, Plan, end_of};

/// The first tick by which all is over that process `p` waits for: its release, the messages to it, and the processes of its
/// node that go before it, among which are those that a link leads from. One pass over these messages and over its node.
pub fn first_start(instance: &Instance, plan: &Plan, p: usize) -> u64
    requires valid { IsValid instance.now plan.now }
    requires inside { p < length instance.now.processes }
    ensures { IsFirstStart instance.now plan.now p result }
{
    let layout = Layout::of(instance, plan.order.as_slice(), plan.caps.as_slice());
    let release = u64::from(instance.process_at(p).release);
    let arrived = after_messages(instance, plan, &layout, p, release);
    after_others(instance, plan, p, arrived)
}

/// A time raised to the arrivals of all messages to process `p`. One pass over those messages.
fn after_messages(instance: &Instance, plan: &Plan, layout: &Layout, p: usize, floor: u64) -> u64
    requires lengths { HasLengths instance.now plan.now }
    requires layout { layout.now ≡ timing instance.now.cluster plan.now.order plan.now.caps }
    requires inside { p < length instance.now.processes }
    ensures { IsRaised (length instance.now.messages) (Receives instance.now p)
        (arrival instance.now plan.now) floor result }
{
    let _processes = instance.processes();
    let mut time = floor;
    for m in instance.received_by(p as u32) {
        time = time.max(arrival(instance, plan, layout, *m as usize));
    }
    time
}

/// A time raised to the ends of all processes of the node of process `p` that go before it. One pass over the processes of the node.
fn after_others(instance: &Instance, plan: &Plan, p: usize, floor: u64) -> u64
    requires lengths { HasLengths instance.now plan.now }
    requires inside { p < length instance.now.processes }
    ensures { IsRaised (length instance.now.processes) (GoesBefore instance.now plan.now p)
        (end_of instance.now plan.now) floor result }
{
    let start = u64::from(plan.starts.as_slice()[p]);
    let mut time = floor;
    for q in instance.processes_on(instance.node_of(p)) {
        let end = end_of(instance, plan, *q as usize);
        if end <= start {
            time = time.max(end);
        }
    }
    time
}
