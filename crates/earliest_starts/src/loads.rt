//! Which frames are overfull?

ghost use Rattle.std.specs.Prelude.{◌≡◌, ℕ, ◌<◌, ◌≤◌, ◌==◌, ◌&&◌, IfOk, IfSome, IfNone, length, nat_eq, slice_index, unwrap_or};
ghost use Rattle.std.specs.HashMap.{get};
ghost use Rattle.ttp_model.specs.Lists.{EachBelow};
ghost use Rattle.ttp_model.specs.Instance.{source_of};
ghost use Rattle.ttp_model.specs.Plans.{is_on};
ghost use Rattle.ttp_model.specs.Totals.{total};
ghost use Rattle.tt_choice.specs.Choice.{IsChoice, least_round};
ghost use Rattle.earliest_starts.specs.Fixed.{fixed_caps, fixed_channels, fixed_bytes};
ghost use Rattle.earliest_starts.specs.Clashes.{IsOverfull};

use std::alloc::Global;
use std::collections::HashMap;
use tt_choice::Choice;
use ttp_model::{Instance, MemoryFault, is_on};

/// A node, a round and a channel whose messages don't fit into the frame. A pass over the messages for
/// each node and channel.
pub fn overfull(
    alloc: Global,
    instance: &Instance,
    choice: &Choice,
    caps: &[u32],
    channels: &[u32],
) -> Result<Option<(u32, u32, u32)>, MemoryFault>
    requires of { IsChoice instance.now choice.now }
    requires caps { caps.now ≡ fixed_caps choice.now }
    requires channels { channels.now ≡ fixed_channels choice.now }
    ensures found { IfOk result (λ frame. IfSome frame
        (λ at. IsOverfull instance.now choice.now at.0 at.1 at.2)) }
    ensures none { IfOk result (λ frame. IfNone frame
        ((n r k : ℕ) → n < length instance.now.nodes → k < instance.now.cluster.channels
        → total (fixed_bytes instance.now choice.now n r k) (length instance.now.messages)
        ≤ slice_index (fixed_caps choice.now) n)) }
{
    let count = instance.nodes().len() as u32;
    for n in 0..count {
        let capacity = caps[n as usize];
        if let Some((r, k)) = overfull_frame(alloc, instance, choice, channels, n, capacity)? {
            return Ok(Some((n, r, k)));
        }
    }
    Ok(None)
}

/// A round and a channel on which the messages of node `n` have more bytes than its capacity.
fn overfull_frame(
    alloc: Global,
    instance: &Instance,
    choice: &Choice,
    channels: &[u32],
    n: u32,
    capacity: u32,
) -> Result<Option<(u32, u32)>, MemoryFault>
    requires of { IsChoice instance.now choice.now }
    requires channels { channels.now ≡ fixed_channels choice.now }
    ensures found { IfOk result (λ frame. IfSome frame (λ at. (at.1 < instance.now.cluster.channels)
        × (capacity
        < total (fixed_bytes instance.now choice.now n at.0 at.1) (length instance.now.messages)))) }
    ensures none { IfOk result (λ frame. IfNone frame
        ((k r : ℕ) → k < instance.now.cluster.channels
        → total (fixed_bytes instance.now choice.now n r k) (length instance.now.messages)
        ≤ capacity)) }
{
    for k in 0..instance.cluster().channels {
        if let Some(r) = overfull_round(alloc, instance, choice, channels, n, k, capacity)? {
            return Ok(Some((r, k)));
        }
    }
    Ok(None)
}

/// A round in which the messages of node `n` have more bytes than its capacity on channel `k`. The
/// bytes of each round are counted up as its messages come.
fn overfull_round(
    alloc: Global,
    instance: &Instance,
    choice: &Choice,
    channels: &[u32],
    n: u32,
    k: u32,
    capacity: u32,
) -> Result<Option<u32>, MemoryFault>
    requires of { IsChoice instance.now choice.now }
    requires channels { channels.now ≡ fixed_channels choice.now }
    ensures found { IfOk result (λ round. IfSome round (λ r. capacity
        < total (fixed_bytes instance.now choice.now n r k) (length instance.now.messages))) }
    ensures none { IfOk result (λ round. IfNone round ((r : ℕ)
        → total (fixed_bytes instance.now choice.now n r k) (length instance.now.messages)
        ≤ capacity)) }
{
    let count = instance.messages().len() as u32;
    let mut loads = HashMap::new(alloc);
    for m in 0..count {
        if is_sent_on(instance, channels, n, k, m) {
            let r = choice.lo(m);
            let before = load_in(&loads, r);
            let load = before + instance.message_at(m as usize).bytes;
            if capacity < load {
                return Ok(Some(r));
            }
            loads.insert(r, load)?;
        }
    }
    Ok(None)
}

/// Whether node `n` sends message `m`, on channel `k` or on both.
fn is_sent_on(instance: &Instance, channels: &[u32], n: u32, k: u32, m: u32) -> bool
    requires all { length channels.now ≡ length instance.now.messages }
    requires message { m < length instance.now.messages }
    ensures { result ≡ (source_of instance.now m == n && is_on k (slice_index channels.now m)) }
{
    instance.source_of(m as usize) == n && is_on(k, channels[m as usize])
}

/// The bytes that were counted up for round `r`.
fn load_in(loads: &HashMap<u32, u32>, r: u32) -> u32
    ensures { result ≡ unwrap_or (get nat_eq loads.now r) 0 }
{
    loads.get(&r).copied().unwrap_or(0)
}
