//! Which facts say that a message could be sent in a round?

ghost use Rattle.std.specs.Prelude.{◌<◌, ◌↔◌, OnOk, IsTrue, length};
ghost use Rattle.tt_infer.specs.Sources.{Earlier};
ghost use Rattle.tt_infer.specs.Reads.{IsOtherOf, KeepsOut, OfSome, IsFactOf};
ghost use Rattle.tt_infer.specs.Added.{AddsFacts, KeepsOtherOut};

use crate::fact::{Fact, sender};
use crate::facts::Facts;
use crate::read_facts::added::{add, add_two};
use ttp_model::{Instance, MemoryFault};

/// Adds what keeps message `k` out of the frame of round `r`, if anything does: that it is sent later, or else that it is sent
/// earlier.
fn add_kept_out(facts: &Facts, r: u32, k: u32, reads: &mut Vec<Fact>) -> Result<(), MemoryFault>
    requires { k < length facts.now.instance.messages }
    ensures { OnOk result (AddsFacts (KeepsOut facts.now.known r k) reads.old.items reads.new.items) }
{
    if r < facts.lo(k) {
        return add(reads, Fact::FirstRound(k));
    }
    if facts.top(k) <= r {
        return add(reads, Fact::LateRound(k));
    }
    Ok(())
}

/// Whether message `k` is another one of the node of message `m`.
fn is_other_of(instance: &Instance, m: u32, k: u32) -> bool
    requires first { m < length instance.now.messages }
    requires second { k < length instance.now.messages }
    ensures { IsTrue result ↔ IsOtherOf instance.now m k }
{
    k != m && instance.source_of(k as usize) == instance.source_of(m as usize)
}

/// Adds what keeps message `k` out of the frame of round `r`, where it is another one of the node of message `m`.
fn add_other(
    facts: &Facts,
    m: u32,
    r: u32,
    k: u32,
    reads: &mut Vec<Fact>,
) -> Result<(), MemoryFault>
    requires first { m < length facts.now.instance.messages }
    requires second { k < length facts.now.instance.messages }
    ensures { OnOk result (AddsFacts (KeepsOtherOut facts.now.instance facts.now.known m r k)
        reads.old.items reads.new.items) }
{
    if is_other_of(facts.instance(), m, k) {
        return add_kept_out(facts, r, k, reads);
    }
    Ok(())
}

/// Adds what keeps the other messages of the node of message `m` out of the frame of round `r`. One pass over them.
fn add_others(facts: &Facts, m: u32, r: u32, reads: &mut Vec<Fact>) -> Result<(), MemoryFault>
    requires { m < length facts.now.instance.messages }
    ensures { OnOk result (AddsFacts (OfSome (length facts.now.instance.messages)
        (KeepsOtherOut facts.now.instance facts.now.known m r)) reads.old.items reads.new.items) }
{
    let instance = facts.instance();
    for k in instance.messages_of(instance.source_of(m as usize)) {
        add_other(facts, m, r, *k, reads)?;
    }
    Ok(())
}

/// Adds what shows that message `m` could be sent in round `r`: nothing where it isn't there.
pub fn add_late(facts: &Facts, m: u32, r: u32, reads: &mut Vec<Fact>) -> Result<(), MemoryFault>
    ensures { m < length facts.now.instance.messages
        → OnOk result (AddsFacts (IsFactOf facts.now.instance facts.now.choice facts.now.known (Earlier m r))
        reads.old.items reads.new.items) }
{
    let instance = facts.instance();
    if m as usize >= instance.messages().len() {
        return Ok(());
    }
    add_two(reads, Fact::FirstRound(m), Fact::End(sender(instance, m)))?;
    add_others(facts, m, r, reads)
}
