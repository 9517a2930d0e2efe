//! How many bytes can capacities of all nodes have together?

ghost use Rattle.std.specs.Prelude.{◌<◌, ◌↔◌, IfOk, IsTrue, length};
ghost use Rattle.plan_cycles.specs.Sums.{AreNoSums, AreReached, AreSums, IsReached, IsReachedBy};

use std::alloc::{AllocError, Global};
use ttp_model::{Instance, MOST_BYTES, MOST_NODES};

/// How many sums there are, from none to the greatest.
pub const SUMS: usize = MOST_NODES * MOST_BYTES as usize + 1;

/// Of each sum whether some capacities have it, one of each node. A step for each sum and each capacity of each node.
pub fn sums_of(alloc: Global, instance: &Instance) -> Result<Vec<bool>, AllocError>
    ensures { IfOk result (λ sums. AreSums instance.now (length instance.now.nodes) sums.items) }
{
    let nodes = instance.nodes();
    let mut sums = without_nodes(alloc)?;
    for n in 0..nodes.len() {
        sums = with_node(alloc, sums.as_slice(), nodes[n].capacities.as_slice())?;
    }
    Ok(sums)
}

/// Without a node there is one: none.
fn without_nodes(alloc: Global) -> Result<Vec<bool>, AllocError>
    ensures { IfOk result (λ sums. AreNoSums sums.items) }
{
    let mut sums = Vec::with_capacity(alloc, SUMS)?;
    for bytes in 0..SUMS {
        sums.push(bytes == 0)?;
    }
    Ok(sums)
}

/// Of each sum whether a capacity of one node more and a sum before come to it.
fn with_node(alloc: Global, before: &[bool], capacities: &[u32]) -> Result<Vec<bool>, AllocError>
    ensures { IfOk result (λ sums. AreReached before.now capacities.now (length before.now) sums.items) }
{
    let count = before.len();
    let mut sums = Vec::with_capacity(alloc, count)?;
    for bytes in 0..count {
        sums.push(is_reached(before, capacities, bytes))?;
    }
    Ok(sums)
}

/// Whether a capacity and a sum before come to so many bytes.
fn is_reached(before: &[bool], capacities: &[u32], bytes: usize) -> bool
    requires { bytes < length before.now }
    ensures { IsTrue result ↔ IsReached before.now capacities.now bytes }
{
    for capacity in capacities {
        if is_reached_by(before, bytes, *capacity as usize) {
            return true;
        }
    }
    false
}

/// Whether this capacity and a sum before do.
fn is_reached_by(before: &[bool], bytes: usize, capacity: usize) -> bool
    requires { bytes < length before.now }
    ensures { IsTrue result ↔ IsReachedBy before.now bytes capacity }
{
    capacity <= bytes && before[bytes - capacity]
}
