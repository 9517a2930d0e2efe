//! Why does a process start when it does?

ghost use Rattle.std.specs.Prelude.{◌≡◌, ◌<◌, ◌↔◌, IsTrue, length};
ghost use Rattle.ttp_model.specs.Graph.{Receives};
ghost use Rattle.ttp_model.specs.Plans.{HasLengths, IsValid};
ghost use Rattle.tt_layout.specs.Layout.{timing};
ghost use Rattle.plan_reasons.specs.PlanCauses.{Finds, IsStartCause, LinkHolds, MessageHolds, ProcessHolds};

use crate::runs::StartCause;
use plan_facts::{arrival, first_start};
use tt_layout::Layout;
use ttp_model::{Instance, Plan, end_of};

/// What holds process `p` back, at its start.
pub fn start_cause(instance: &Instance, plan: &Plan, p: usize) -> StartCause
    requires valid { IsValid instance.now plan.now }
    requires inside { p < length instance.now.processes }
    ensures { IsStartCause instance.now plan.now p result }
{
    let release = instance.process_at(p).release;
    let start = plan.starts.as_slice()[p];
    if release == start {
        return StartCause::Release;
    }
    if let Some(l) = link_that_holds(instance, plan, p) {
        return StartCause::Link(l);
    }
    if let Some(q) = process_that_holds(instance, plan, p) {
        return StartCause::Behind(q);
    }
    if let Some(m) = message_that_holds(instance, plan, p) {
        return StartCause::Arrival(m);
    }
    StartCause::CouldStart(first_start(instance, plan, p))
}

/// The first link to process `p` from one that ends when it starts.
fn link_that_holds(instance: &Instance, plan: &Plan, p: usize) -> Option<u32>
    requires lengths { HasLengths instance.now plan.now }
    requires inside { p < length instance.now.processes }
    ensures { Finds (length instance.now.links) (LinkHolds instance.now plan.now p) result }
{
    let start = u64::from(plan.starts.as_slice()[p]);
    for l in 0..instance.links().len() {
        let link = instance.link_at(l);
        if link.after as usize == p && end_of(instance, plan, link.before as usize) == start {
            return Some(l as u32);
        }
    }
    None
}

/// The first process of the node of process `p` that ends when it starts.
fn process_that_holds(instance: &Instance, plan: &Plan, p: usize) -> Option<u32>
    requires lengths { HasLengths instance.now plan.now }
    requires inside { p < length instance.now.processes }
    ensures { Finds (length instance.now.processes) (ProcessHolds instance.now plan.now p) result }
{
    let node = instance.node_of(p);
    let start = u64::from(plan.starts.as_slice()[p]);
    for q in 0..instance.processes().len() {
        if instance.node_of(q) == node && end_of(instance, plan, q) == start {
            return Some(q as u32);
        }
    }
    None
}

/// The first message to process `p` that is there when it starts.
fn message_that_holds(instance: &Instance, plan: &Plan, p: usize) -> Option<u32>
    requires valid { IsValid instance.now plan.now }
    requires inside { p < length instance.now.processes }
    ensures { Finds (length instance.now.messages) (MessageHolds instance.now plan.now p) result }
{
    let layout = Layout::of(instance, plan.order.as_slice(), plan.caps.as_slice());
    for m in 0..instance.messages().len() {
        if message_holds(instance, plan, &layout, p, m) {
            return Some(m as u32);
        }
    }
    None
}

/// Whether message `m` is to process `p`, and is there when it starts.
fn message_holds(instance: &Instance, plan: &Plan, layout: &Layout, p: usize, m: usize) -> bool
    requires lengths { HasLengths instance.now plan.now }
    requires layout { layout.now ≡ timing instance.now.cluster plan.now.order plan.now.caps }
    requires inside { p < length instance.now.processes }
    requires message { m < length instance.now.messages }
    ensures { IsTrue result ↔ MessageHolds instance.now plan.now p m }
{
    let start = u64::from(plan.starts.as_slice()[p]);
    receives(instance, p, m) && arrival(instance, plan, layout, m) == start
}

/// Whether message `m` is to process `p`.
fn receives(instance: &Instance, p: usize, m: usize) -> bool
    requires inside { p < length instance.now.processes }
    requires message { m < length instance.now.messages }
    ensures { IsTrue result ↔ Receives instance.now p m }
{
    let _processes = instance.processes();
    instance.message_at(m).receivers.contains(p as u32)
}
