//! Which facts say that lower messages of a node are in no round together with one of it?

ghost use Rattle.std.specs.Prelude.{◌≡◌, ◌<◌, ◌↔◌, OnOk, IsTrue, length};
ghost use Rattle.tt_infer.specs.Sources.{Lower};
ghost use Rattle.ttp_model.specs.Instance.{source_of};
ghost use Rattle.tt_infer.specs.Reads.{OfSome, IsFactOf, TellsApart};
ghost use Rattle.tt_infer.specs.Added.{AddsFacts, TellsOneNodeApart};

use crate::fact::Fact;
use crate::facts::Facts;
use crate::read_facts::added::add_two;
use ttp_model::{Instance, MemoryFault};

/// Adds what tells that messages `m` and `k` are in no round together, if their rounds tell it: that `k` is sent before `m`, or else that
/// `m` is sent before `k`.
fn add_apart(facts: &Facts, m: u32, k: u32, reads: &mut Vec<Fact>) -> Result<(), MemoryFault>
    requires first { m < length facts.now.instance.messages }
    requires second { k < length facts.now.instance.messages }
    ensures { OnOk result (AddsFacts (TellsApart facts.now.known m k) reads.old.items reads.new.items) }
{
    if facts.top(k) <= facts.lo(m) {
        return add_two(reads, Fact::LateRound(k), Fact::FirstRound(m));
    }
    if facts.top(m) <= facts.lo(k) {
        return add_two(reads, Fact::LateRound(m), Fact::FirstRound(k));
    }
    Ok(())
}

/// Whether two messages are of one node.
fn are_of_one_node(instance: &Instance, m: u32, k: u32) -> bool
    requires first { m < length instance.now.messages }
    requires second { k < length instance.now.messages }
    ensures { IsTrue result ↔ (source_of instance.now k ≡ source_of instance.now m) }
{
    instance.source_of(k as usize) == instance.source_of(m as usize)
}

/// The same, where both are of one node.
fn add_of_node(facts: &Facts, m: u32, k: u32, reads: &mut Vec<Fact>) -> Result<(), MemoryFault>
    requires first { m < length facts.now.instance.messages }
    requires second { k < length facts.now.instance.messages }
    ensures { OnOk result (AddsFacts (TellsOneNodeApart facts.now.instance facts.now.known m k)
        reads.old.items reads.new.items) }
{
    if are_of_one_node(facts.instance(), m, k) {
        return add_apart(facts, m, k, reads);
    }
    Ok(())
}

/// Adds what tells it of message `m` and of each lower one of its node: nothing where `m` isn't there. One pass over the lower messages.
pub fn add_mirror(facts: &Facts, m: u32, reads: &mut Vec<Fact>) -> Result<(), MemoryFault>
    ensures { m < length facts.now.instance.messages
        → OnOk result (AddsFacts (IsFactOf facts.now.instance facts.now.choice facts.now.known (Lower m))
        reads.old.items reads.new.items) }
{
    if m as usize >= facts.instance().messages().len() {
        return Ok(());
    }
    add_lower(facts, m, reads)
}

/// The same, where it is.
fn add_lower(facts: &Facts, m: u32, reads: &mut Vec<Fact>) -> Result<(), MemoryFault>
    requires { m < length facts.now.instance.messages }
    ensures { OnOk result (AddsFacts (OfSome m (TellsOneNodeApart facts.now.instance facts.now.known m))
        reads.old.items reads.new.items) }
{
    for k in 0..m {
        add_of_node(facts, m, k, reads)?;
    }
    Ok(())
}
