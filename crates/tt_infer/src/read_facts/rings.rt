//! Which facts say that processes wait for each other?

ghost use Rattle.std.specs.Prelude.{◌-◌, ◌≤◌, OnOk, length};
ghost use Rattle.tt_infer.specs.Reads.{IsKnownPair, OfSome};
ghost use Rattle.tt_infer.specs.Added.{AddsFacts, OrdersNext, OrdersPair};

use crate::fact::Fact;
use crate::read_facts::added::add;
use sought_plans::leads;
use ttp_model::{Instance, MemoryFault};

/// Adds that process `p` goes before `q`, where neither a link nor a message leads from one to the other.
fn add_pair(instance: &Instance, p: u32, q: u32, reads: &mut Vec<Fact>) -> Result<(), MemoryFault>
    ensures { OnOk result (AddsFacts (OrdersPair instance.now p q) reads.old.items reads.new.items) }
{
    if leads(instance, p, q) {
        return Ok(());
    }
    add(reads, Fact::Order(p, q))
}

/// The same of each process of a ring and the next.
fn add_pairs(instance: &Instance, ring: &[u32], reads: &mut Vec<Fact>) -> Result<(), MemoryFault>
    requires { 2 ≤ length ring.now }
    ensures { OnOk result (AddsFacts (OfSome (length ring.now - 1) (OrdersNext instance.now ring.now))
        reads.old.items reads.new.items) }
{
    let last = ring.len() - 1;
    for k in 0..last {
        add_pair(instance, ring[k], ring[k + 1], reads)?;
    }
    Ok(())
}

/// Adds the orders of the processes of a ring, each before the next, but for those that a link or a message tells.
pub fn add_ring(instance: &Instance, ring: &[u32], reads: &mut Vec<Fact>) -> Result<(), MemoryFault>
    requires { 2 ≤ length ring.now }
    ensures { OnOk result (AddsFacts (IsKnownPair instance.now ring.now) reads.old.items reads.new.items) }
{
    add_pair(instance, ring[ring.len() - 1], ring[0], reads)?;
    add_pairs(instance, ring, reads)
}
