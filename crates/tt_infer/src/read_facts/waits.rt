//! Which facts say how long a process may have to wait?

ghost use Rattle.std.specs.Prelude.{◌<◌, ◌↔◌, OnOk, IsTrue, length};
ghost use Rattle.tt_infer.specs.Sources.{Waits};
ghost use Rattle.tt_infer.specs.Reads.{IsRival, OfSome, IsFactOf, TellsWait};
ghost use Rattle.tt_infer.specs.Added.{AddsFacts, TellsArrival, TellsRivalWait};

use crate::fact::Fact;
use crate::facts::Facts;
use crate::indices::receives;
use crate::read_facts::added::{add, add_two};
use ttp_model::{Instance, MemoryFault, has_link};

/// Whether process `x` is another one of the node of process `p`, and no link leads to it from `p`.
fn is_rival(instance: &Instance, p: u32, x: u32) -> bool
    requires first { p < length instance.now.processes }
    requires second { x < length instance.now.processes }
    ensures { IsTrue result ↔ IsRival instance.now p x }
{
    x != p
        && instance.node_of(x as usize) == instance.node_of(p as usize)
        && !has_link(instance, p, x)
}

/// Adds what tells how long process `p` may have to wait for `x`: their order, and the latest end of `x` where that isn't known.
fn add_wait(facts: &Facts, p: u32, x: u32, reads: &mut Vec<Fact>) -> Result<(), MemoryFault>
    ensures { OnOk result (AddsFacts (TellsWait facts.now.known p x) reads.old.items reads.new.items) }
{
    if facts.bef(p, x) {
        return add(reads, Fact::Order(p, x));
    }
    add_two(reads, Fact::Order(p, x), Fact::End(x))
}

/// The same, where `p` may have to wait for `x`.
fn add_rival(facts: &Facts, p: u32, x: u32, reads: &mut Vec<Fact>) -> Result<(), MemoryFault>
    requires first { p < length facts.now.instance.processes }
    requires second { x < length facts.now.instance.processes }
    ensures { OnOk result (AddsFacts (TellsRivalWait facts.now.instance facts.now.known p x)
        reads.old.items reads.new.items) }
{
    if is_rival(facts.instance(), p, x) {
        return add_wait(facts, p, x, reads);
    }
    Ok(())
}

/// Adds what tells how long process `p` may have to wait for the others of its node. One pass over them.
fn add_rivals(facts: &Facts, p: u32, reads: &mut Vec<Fact>) -> Result<(), MemoryFault>
    requires { p < length facts.now.instance.processes }
    ensures { OnOk result (AddsFacts (OfSome (length facts.now.instance.processes)
        (TellsRivalWait facts.now.instance facts.now.known p)) reads.old.items reads.new.items) }
{
    let instance = facts.instance();
    for x in instance.processes_on(instance.node_of(p as usize)) {
        add_rival(facts, p, *x, reads)?;
    }
    Ok(())
}

/// Adds the first round that is too late for message `m`, where it is sent to process `p`.
fn add_arrival(
    instance: &Instance,
    p: u32,
    m: u32,
    reads: &mut Vec<Fact>,
) -> Result<(), MemoryFault>
    ensures { OnOk result (AddsFacts (TellsArrival instance.now p m) reads.old.items reads.new.items) }
{
    if receives(instance, m, p) {
        return add(reads, Fact::LateRound(m));
    }
    Ok(())
}

/// Adds the first rounds that are too late for the messages to process `p`. One pass over these and their receivers.
fn add_arrivals(instance: &Instance, p: u32, reads: &mut Vec<Fact>) -> Result<(), MemoryFault>
    ensures { OnOk result (AddsFacts (OfSome (length instance.now.messages)
        (TellsArrival instance.now p)) reads.old.items reads.new.items) }
{
    for m in instance.received_by(p) {
        add_arrival(instance, p, *m, reads)?;
    }
    Ok(())
}

/// Adds what tells how long process `p` may have to wait: nothing where it isn't there.
pub fn add_settled(facts: &Facts, p: u32, reads: &mut Vec<Fact>) -> Result<(), MemoryFault>
    ensures { p < length facts.now.instance.processes
        → OnOk result (AddsFacts (IsFactOf facts.now.instance facts.now.choice facts.now.known (Waits p))
        reads.old.items reads.new.items) }
{
    if p as usize >= facts.instance().processes().len() {
        return Ok(());
    }
    add_rivals(facts, p, reads)?;
    add_arrivals(facts.instance(), p, reads)
}
