//! What does a process of a chain wait for?

ghost use Rattle.std.specs.Prelude.{◌≡◌, ◌+◌, ◌^◌, ◌<◌, ◌↔◌, Contains, IsTrue, length, slice_index};
ghost use Rattle.ttp_model.specs.Instance.{message_at, process_at, source_of};
ghost use Rattle.ttp_model.specs.Chains.{least_transfer};
ghost use Rattle.plan_facts.specs.Longest.{AreLongest};
ghost use Rattle.plan_reasons.specs.PlanCauses.{Finds};
ghost use Rattle.plan_reasons.specs.PathChains.{IsCause, LinkHolds, MessageHolds};

use crate::runs::StartCause;
use plan_facts::least_transfer;
use ttp_model::Instance;

/// What holds process `p` back, which begins at this tick where its longest chain ends.
pub fn cause_of(instance: &Instance, ends: &[u64], p: usize, from: u64) -> StartCause
    requires longest { AreLongest instance.now ends.now }
    requires inside { p < length instance.now.processes }
    requires begins { from + (process_at instance.now p).wcet ≡ slice_index ends.now p }
    ensures { IsCause instance.now ends.now p from result }
{
    let _processes = instance.processes();
    if u64::from(instance.process_at(p).release) == from {
        return StartCause::Release;
    }
    if let Some(l) = link_that_holds(instance, ends, p, from) {
        return StartCause::Link(l);
    }
    match message_that_holds(instance, ends, p, from) {
        Some(m) => StartCause::Arrival(m),
        None => unreachable!(),
    }
}

/// The first link to process `p` from one whose longest chain ends at this tick.
fn link_that_holds(instance: &Instance, ends: &[u64], p: usize, from: u64) -> Option<u32>
    requires { AreLongest instance.now ends.now }
    ensures { Finds (length instance.now.links) (LinkHolds instance.now ends.now p from) result }
{
    for l in 0..instance.links().len() {
        let link = instance.link_at(l);
        if link.after as usize == p && ends[link.before as usize] == from {
            return Some(l as u32);
        }
    }
    None
}

/// The first message to process `p` that is there at this tick, at the earliest.
fn message_that_holds(instance: &Instance, ends: &[u64], p: usize, from: u64) -> Option<u32>
    requires longest { AreLongest instance.now ends.now }
    requires inside { p < length instance.now.processes }
    ensures { Finds (length instance.now.messages) (MessageHolds instance.now ends.now p from) result }
{
    for m in 0..instance.messages().len() {
        if message_holds(instance, ends, p, from, m) {
            return Some(m as u32);
        }
    }
    None
}

/// Whether message `m` is to process `p`, and is there at this tick, at the earliest.
fn message_holds(instance: &Instance, ends: &[u64], p: usize, from: u64, m: usize) -> bool
    requires longest { AreLongest instance.now ends.now }
    requires inside { p < length instance.now.processes }
    requires message { m < length instance.now.messages }
    ensures { IsTrue result ↔ MessageHolds instance.now ends.now p from m }
{
    receives(instance, p, m) && arrival_of(instance, ends, m) == from
}

/// Whether message `m` is to process `p`.
fn receives(instance: &Instance, p: usize, m: usize) -> bool
    requires inside { p < length instance.now.processes }
    requires message { m < length instance.now.messages }
    ensures { IsTrue result ↔ Contains (message_at instance.now m).receivers p }
{
    let _processes = instance.processes();
    instance.message_at(m).receivers.contains(p as u32)
}

/// When message `m` is there, at the earliest.
pub fn arrival_of(instance: &Instance, ends: &[u64], m: usize) -> u64
    requires longest { AreLongest instance.now ends.now }
    requires message { m < length instance.now.messages }
    ensures value { result ≡ slice_index ends.now (message_at instance.now m).sender + least_transfer instance.now (source_of instance.now m) }
    ensures small { result < 2 ^ 33 }
{
    let _processes = instance.processes();
    let ready = ends[instance.message_at(m).sender as usize];
    ready + least_transfer(instance, instance.source_of(m))
}
