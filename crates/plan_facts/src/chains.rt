//! What do the longest chains of links and messages add up to?

ghost use Rattle.std.specs.Prelude.{◌≡◌, ℕ, ◌+◌, ◌^◌, ◌<◌, ◌≤◌, max, slice_set, slice_index, Contains, IfOk, length};
ghost use Rattle.ttp_model.specs.Instance.{process_at, message_at, source_of};
ghost use Rattle.ttp_model.specs.Graph.{HasLink};
ghost use Rattle.ttp_model.specs.Chains.{IsPathBound, least_transfer};
ghost use Rattle.plan_facts.specs.Longest.{AreLongest};
ghost use Rattle.plan_facts.specs.Walks.{AreChainEnds, AreEnds, AreKept};

use std::alloc::Global;
use ttp_model::{Instance, MemoryFault, slot_duration};

/// The greatest sum along a chain of links and messages, in ticks: the release of its first process,
/// all its worst-case execution times, and for each message the least time that its transfer takes.
/// No valid plan has a smaller delay. A pass over links and messages for each process.
pub fn path_bound(alloc: Global, instance: &Instance) -> Result<u32, MemoryFault>
    ensures { IfOk result (IsPathBound instance.now) }
{
    let ends = longest_chains(alloc, instance)?;
    let _nodes = instance.nodes();
    Ok(latest(ends.as_slice()) as u32)
}

/// By process the greatest sum along a chain that ends with it, in ticks: in no valid plan it ends earlier.
/// A pass over links and messages for each process.
pub fn longest_chains(alloc: Global, instance: &Instance) -> Result<Vec<u64>, MemoryFault>
    ensures { IfOk result (λ ends. AreLongest instance.now ends.items) }
{
    let mut ends = first_ends(alloc, instance)?;
    let count = instance.processes().len();
    for round in 0..count {
        follow(instance, &mut ends);
    }
    Ok(ends)
}

/// When each process ends that has its chain alone.
fn first_ends(alloc: Global, instance: &Instance) -> Result<Vec<u64>, MemoryFault>
    ensures { IfOk result (λ ends. AreEnds instance.now 1 ends.items) }
{
    let mut ends = Vec::new(alloc);
    for p in 0..instance.processes().len() {
        let process = instance.process_at(p);
        ends.push(u64::from(process.release) + u64::from(process.wcet))?;
    }
    Ok(ends)
}

/// The greatest of the times.
fn latest(ends: &[u64]) -> u64
    requires { 0 < length ends.now }
    ensures reached { (k : ℕ) × (k < length ends.now) × (slice_index ends.now k ≡ result) }
    ensures greatest { (k : ℕ) → slice_index ends.now k ≤ result }
{
    let mut latest = ends[0];
    for end in ends {
        latest = latest.max(*end);
    }
    latest
}

/// Lets process `q` end at a time or later.
fn raise(ends: &mut Vec<u64>, q: u32, time: u64)
    requires { q < length ends.old.items }
    ensures { ends.new.items
        ≡ slice_set ends.old.items q (max (slice_index ends.old.items q) time) }
{
    let later = ends[q as usize].max(time);
    ends[q as usize] = later;
}

/// Lets each process end no earlier than one link or message after those that lead to it.
fn follow(instance: &Instance, ends: &mut Vec<u64>)
    requires { AreChainEnds instance.now ends.old.items }
    ensures { (count : ℕ) → 1 ≤ count → AreEnds instance.now count ends.old.items
        → AreEnds instance.now (count + 1) ends.new.items }
{
    let _processes = instance.processes();
    follow_links(instance, ends);
    follow_messages(instance, ends);
}

/// Lets the second process of each link end no earlier than after the first.
fn follow_links(instance: &Instance, ends: &mut Vec<u64>)
    requires { AreChainEnds instance.now ends.old.items }
    ensures chains { AreChainEnds instance.now ends.new.items }
    ensures kept { AreKept ends.old.items ends.new.items }
    ensures reach { (p q : ℕ) → HasLink instance.now p q
        → slice_index ends.old.items p + (process_at instance.now q).wcet
        ≤ slice_index ends.new.items q }
{
    for l in 0..instance.links().len() {
        let link = instance.link_at(l);
        let end = ends[link.before as usize];
        let wcet = instance.process_at(link.after as usize).wcet;
        raise(ends, link.after, end + u64::from(wcet));
    }
}

/// The least time of a transfer from node `n`, in ticks.
pub fn least_transfer(instance: &Instance, n: u32) -> u64
    requires { n < length instance.now.nodes }
    ensures value { result ≡ least_transfer instance.now n }
    ensures small { result < 2 ^ 28 }
{
    let cluster = instance.cluster();
    let capacity = instance.nodes()[n as usize].capacities.as_slice()[0];
    let slot = slot_duration(cluster, capacity);
    u64::from(cluster.copy_out) + slot + u64::from(cluster.copy_in)
}

/// Lets each receiver of message `m` end no earlier than its transfer allows.
fn follow_message(instance: &Instance, m: usize, ends: &mut Vec<u64>)
    requires chains { AreChainEnds instance.now ends.old.items }
    requires message { m < length instance.now.messages }
    ensures chains { AreChainEnds instance.now ends.new.items }
    ensures kept { AreKept ends.old.items ends.new.items }
    ensures reach { (q : ℕ) → Contains (message_at instance.now m).receivers q
        → slice_index ends.old.items (message_at instance.now m).sender
        + least_transfer instance.now (source_of instance.now m) + (process_at instance.now q).wcet
        ≤ slice_index ends.new.items q }
{
    let _messages = instance.messages();
    let message = instance.message_at(m);
    let end = ends[message.sender as usize];
    let arrival = end + least_transfer(instance, instance.source_of(m));
    for q in message.receivers.as_slice() {
        let wcet = instance.process_at(*q as usize).wcet;
        raise(ends, *q, arrival + u64::from(wcet));
    }
}

/// Lets each receiver of each message end no earlier than its transfer allows.
fn follow_messages(instance: &Instance, ends: &mut Vec<u64>)
    requires { AreChainEnds instance.now ends.old.items }
    ensures chains { AreChainEnds instance.now ends.new.items }
    ensures kept { AreKept ends.old.items ends.new.items }
    ensures reach { (m q : ℕ) → m < length instance.now.messages → Contains (message_at instance.now m).receivers q
        → slice_index ends.old.items (message_at instance.now m).sender
        + least_transfer instance.now (source_of instance.now m) + (process_at instance.now q).wcet
        ≤ slice_index ends.new.items q }
{
    for m in 0..instance.messages().len() {
        follow_message(instance, m, ends);
    }
}
