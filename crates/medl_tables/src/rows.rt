//! Which rows does a node's table have?

ghost use Rattle.std.specs.Prelude.{◌≡◌, ◌<◌, ◌≤◌, ◌++◌, ◌↔◌, Contains, IfOk, IsTrue, OnOk, length};
ghost use Rattle.ttp_model.specs.Plans.{HasLengths, IsValid};
ghost use Rattle.medl_tables.specs.Rows.{entries_of, entries_on, is_entry, is_received_on, is_shown_on, round_rows, row_of, rows_of};

use crate::row::{Entries, Entry, Row};
use std::alloc::Global;
use tt_layout::cycle_rounds;
use ttp_model::{Instance, MOST_NODES, MemoryFault, Plan, bytes_on, is_in_frame_on};

/// The table of a node.
pub fn rows_of(
    alloc: Global,
    instance: &Instance,
    plan: &Plan,
    node: u32,
) -> Result<Vec<Row>, MemoryFault>
    requires { IsValid instance.now plan.now }
    ensures { IfOk result (λ v. v.items ≡ rows_of instance.now plan.now node) }
{
    let rounds = cycle_rounds(instance, plan);
    let mut rows = Vec::with_capacity(alloc, rounds as usize * instance.nodes().len())?;
    for round in 0..rounds {
        push_round(alloc, &mut rows, instance, plan, node, round)?;
    }
    Ok(rows)
}

/// Adds the rows of a round.
fn push_round(
    alloc: Global,
    rows: &mut Vec<Row>,
    instance: &Instance,
    plan: &Plan,
    node: u32,
    round: u32,
) -> Result<(), MemoryFault>
    requires { IsValid instance.now plan.now }
    ensures { OnOk result
        (rows.new.items ≡ rows.old.items ++ round_rows instance.now plan.now node round) }
{
    let slots = instance.nodes().len();
    let sends = plan.rounds.contains(round);
    for k in 0..slots {
        rows.push(row_of(alloc, instance, plan, node, round, k, sends)?)?;
    }
    Ok(())
}

/// The row of the slot at position `k`. Whether any message is sent in the round is known.
fn row_of(
    alloc: Global,
    instance: &Instance,
    plan: &Plan,
    node: u32,
    round: u32,
    k: usize,
    sends: bool,
) -> Result<Row, MemoryFault>
    requires valid { IsValid instance.now plan.now }
    requires inside { k < length instance.now.nodes }
    requires few { k < MOST_NODES }
    requires sends { IsTrue sends ↔ Contains plan.now.rounds round }
    ensures { IfOk result (λ row. row ≡ row_of instance.now plan.now node round k) }
{
    let sender = plan.order.as_slice()[k];
    let capacity = plan.caps.as_slice()[sender as usize];
    let messages = entries_of(alloc, instance, plan, node, sender, round, sends)?;
    Ok(Row {
        round,
        position: k as u32,
        sender,
        capacity,
        messages,
    })
}

/// What the node's table shows of the frame of node `n` in round `r`, channel by channel. Where no
/// message is sent in the round, none is looked at.
fn entries_of(
    alloc: Global,
    instance: &Instance,
    plan: &Plan,
    node: u32,
    n: u32,
    r: u32,
    sends: bool,
) -> Result<Entries, MemoryFault>
    requires lengths { HasLengths instance.now plan.now }
    requires sends { IsTrue sends ↔ Contains plan.now.rounds r }
    ensures { IfOk result (λ entries. entries ≡ entries_of instance.now plan.now node n r) }
{
    let mut entries = Vec::new(alloc);
    if !sends {
        return Ok(Entries::new(entries));
    }
    let channels = instance.cluster().channels;
    for channel in 0..channels {
        push_entries_on(&mut entries, instance, plan, node, n, r, channel)?;
    }
    Ok(Entries::new(entries))
}

/// Adds what the node's table shows of the frame of node `n` in round `r` on a channel.
fn push_entries_on(
    entries: &mut Vec<Entry>,
    instance: &Instance,
    plan: &Plan,
    node: u32,
    n: u32,
    r: u32,
    channel: u32,
) -> Result<(), MemoryFault>
    requires { HasLengths instance.now plan.now }
    ensures { OnOk result
        (entries.new.items ≡ entries.old.items ++ entries_on instance.now plan.now node n r channel) }
{
    let count = instance.messages().len();
    let mut offset = 0;
    for m in 0..count {
        if is_entry(instance, plan, node, n, r, channel, m) {
            let message = m as u32;
            entries.push(Entry {
                message,
                channel,
                offset,
            })?;
        }
        offset += bytes_on(instance, plan, n, r, channel, m);
    }
    Ok(())
}

/// Whether the node's table shows a message as one of a frame.
fn is_entry(instance: &Instance, plan: &Plan, node: u32, n: u32, r: u32, c: u32, m: usize) -> bool
    requires lengths { HasLengths instance.now plan.now }
    requires inside { m < length instance.now.messages }
    ensures { result ≡ is_entry instance.now plan.now node n r c m }
{
    is_in_frame_on(instance, plan, n, r, c, m) && is_shown_on(instance, node, m)
}

/// Whether the node's table shows a message of a frame.
fn is_shown_on(instance: &Instance, node: u32, m: usize) -> bool
    requires { m < length instance.now.messages }
    ensures { result ≡ is_shown_on instance.now node m }
{
    instance.source_of(m) == node || is_received_on(instance, node, m)
}

/// Whether a message has a receiver on the node.
fn is_received_on(instance: &Instance, node: u32, m: usize) -> bool
    requires { m < length instance.now.messages }
    ensures { result ≡ is_received_on instance.now node m }
{
    let receivers = instance.message_at(m).receivers.as_slice();
    receivers
        .iter()
        .any(|q| instance.node_of(*q as usize) == node)
}
