//! Which numbers are outside their ranges.

ghost use Rattle.std.specs.Prelude.{◌≤◌, ◌↔◌, IsTrue, length};
ghost use Rattle.ttp_model.specs.Lists.{FindsFailure};
ghost use Rattle.ttp_model.specs.Instance.{process_at, message_at};
ghost use Rattle.ttp_model.specs.Parts.{instance_of};
ghost use Rattle.ttp_model.specs.Rules.{KeepsLimits, IsInRange, IsClusterInRange, IsProcessInRange, IsCapacityList, HasCapacityList};
ghost use Rattle.ttp_model.specs.Searches.{FindsPlace};

use crate::error::Place;
use crate::limits::{
    MOST_BUS_TICKS, MOST_BYTES, MOST_CAPACITIES, MOST_CHANNELS, MOST_HEAD, MOST_PER_BYTE,
    MOST_TICKS,
};
use crate::parts::{Cluster, Parts, Process};

fn is_cluster_in_range(c: &Cluster) -> bool
    ensures { IsTrue result ↔ IsClusterInRange c.now }
{
    c.precision <= MOST_BUS_TICKS
        && c.lead <= MOST_BUS_TICKS
        && c.trail <= MOST_BUS_TICKS
        && c.head >= 1
        && c.head <= MOST_HEAD
        && c.per_byte >= 1
        && c.per_byte <= MOST_PER_BYTE
        && c.copy_out <= MOST_BUS_TICKS
        && c.copy_in <= MOST_BUS_TICKS
        && c.horizon >= 1
        && c.horizon <= MOST_TICKS
        && c.channels >= 1
        && c.channels <= MOST_CHANNELS
}

fn is_process_in_range(p: &Process) -> bool
    ensures { IsTrue result ↔ IsProcessInRange p.now }
{
    p.wcet >= 1
        && p.wcet <= MOST_TICKS
        && p.release <= MOST_TICKS
        && p.deadline >= 1
        && p.deadline <= MOST_TICKS
}

/// The first process with a time outside its range.
fn untimely_process(parts: &Parts) -> Option<u32>
    requires { KeepsLimits (instance_of parts.now) }
    ensures { FindsFailure (length parts.now.processes.items)
        (λ p. IsProcessInRange (process_at (instance_of parts.now) p)) result }
{
    for p in 0..parts.processes.len() {
        if !is_process_in_range(&parts.processes[p]) {
            return Some(p as u32);
        }
    }
    None
}

/// The first message of no bytes, or too many.
fn missized_message(parts: &Parts) -> Option<u32>
    requires { KeepsLimits (instance_of parts.now) }
    ensures { FindsFailure (length parts.now.messages.items)
        (λ m. (1 ≤ (message_at (instance_of parts.now) m).bytes)
        × ((message_at (instance_of parts.now) m).bytes ≤ MOST_BYTES)) result }
{
    for m in 0..parts.messages.len() {
        let bytes = parts.messages[m].bytes;
        if bytes < 1 || bytes > MOST_BYTES {
            return Some(m as u32);
        }
    }
    None
}

/// The first place with a number outside its range.
pub fn out_of_range(parts: &Parts) -> Option<Place>
    requires { KeepsLimits (instance_of parts.now) }
    ensures { FindsPlace (IsInRange (instance_of parts.now)) result }
{
    if !is_cluster_in_range(&parts.cluster) {
        return Some(Place::AtCluster);
    }
    if let Some(p) = untimely_process(parts) {
        return Some(Place::AtProcess(p));
    }
    if let Some(m) = missized_message(parts) {
        return Some(Place::AtMessage(m));
    }
    None
}

fn is_capacity_list(capacities: &[u32]) -> bool
    ensures { IsTrue result ↔ IsCapacityList capacities.now }
{
    if capacities.is_empty() || capacities.len() > MOST_CAPACITIES {
        return false;
    }
    for k in 0..capacities.len() {
        if capacities[k] > MOST_BYTES || (k > 0 && capacities[k - 1] >= capacities[k]) {
            return false;
        }
    }
    true
}

/// The first node whose capacities are not allowed.
pub fn wrong_capacities(parts: &Parts) -> Option<u32>
    requires { KeepsLimits (instance_of parts.now) }
    ensures { FindsFailure (length parts.now.nodes.items) (HasCapacityList (instance_of parts.now)) result }
{
    for n in 0..parts.nodes.len() {
        if !is_capacity_list(parts.nodes[n].capacities.as_slice()) {
            return Some(n as u32);
        }
    }
    None
}
