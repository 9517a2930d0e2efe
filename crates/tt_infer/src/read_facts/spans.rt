//! Which facts say what runs, or is sent, in a span?

ghost use Rattle.std.specs.Prelude.{◌≡◌, ◌<◌, OnOk, length};
ghost use Rattle.tt_infer.specs.Sources.{Runs, Frames, Halves};
ghost use Rattle.sought_plans.specs.Premises.{runs_within, sent_within};
ghost use Rattle.tt_infer.specs.Reads.{BoundsRun, BoundsSending, IsFactOf, counted_within};
ghost use Rattle.tt_infer.specs.Added.{AddsFacts, BoundsCounted, BoundsRunWithin, BoundsSendingWithin};

use crate::fact::Fact;
use crate::facts::Facts;
use crate::read_facts::added::{add, add_two};
use sought_plans::counts_on;
use ttp_model::MemoryFault;

/// Adds the latest end of process `p`, and its earliest start where it has to be after 0.
fn add_run(reads: &mut Vec<Fact>, a: u32, p: u32) -> Result<(), MemoryFault>
    ensures { OnOk result (AddsFacts (BoundsRun a p) reads.old.items reads.new.items) }
{
    if a == 0 {
        return add(reads, Fact::End(p));
    }
    add_two(reads, Fact::End(p), Fact::Start(p))
}

/// Adds the first round that is too late for message `m`, and its least round where it has to be after 0.
fn add_sending(reads: &mut Vec<Fact>, a: u32, m: u32) -> Result<(), MemoryFault>
    ensures { OnOk result (AddsFacts (BoundsSending a m) reads.old.items reads.new.items) }
{
    if a == 0 {
        return add(reads, Fact::LateRound(m));
    }
    add_two(reads, Fact::LateRound(m), Fact::FirstRound(m))
}

/// Whether process `p` is of node `n` and runs from `a` to `b`.
fn runs_within(facts: &Facts, n: u32, a: u32, b: u32, p: u32) -> bool
    requires { p < length facts.now.instance.processes }
    ensures { result ≡ runs_within facts.now.instance facts.now.known n a b p }
{
    facts.instance().node_of(p as usize) == n && a <= facts.es(p) && facts.le(p) <= b
}

/// Whether message `m` is of node `n` and is sent from round `a` on and before `b`.
fn sent_within(facts: &Facts, n: u32, a: u32, b: u32, m: u32) -> bool
    requires { m < length facts.now.instance.messages }
    ensures { result ≡ sent_within facts.now.instance facts.now.known n a b m }
{
    facts.instance().source_of(m as usize) == n && a <= facts.lo(m) && facts.top(m) <= b
}

/// The same, where it is fixed to channel `k` or to both.
fn counted_within(facts: &Facts, k: u32, n: u32, a: u32, b: u32, m: u32) -> bool
    requires { m < length facts.now.instance.messages }
    ensures { result ≡ counted_within facts.now.instance facts.now.choice facts.now.known k n a b m }
{
    counts_on(facts.choice(), k, m) && sent_within(facts, n, a, b, m)
}

/// Adds the bounds of process `p`, where it is of node `n` and runs from `a` to `b`.
fn add_run_within(
    facts: &Facts,
    n: u32,
    a: u32,
    b: u32,
    p: u32,
    reads: &mut Vec<Fact>,
) -> Result<(), MemoryFault>
    requires { p < length facts.now.instance.processes }
    ensures { OnOk result (AddsFacts (BoundsRunWithin facts.now.instance facts.now.known n a b p)
        reads.old.items reads.new.items) }
{
    if runs_within(facts, n, a, b, p) {
        return add_run(reads, a, p);
    }
    Ok(())
}

/// Adds the bounds of message `m`, where it is of node `n` and is sent from round `a` on and before `b`.
fn add_sending_within(
    facts: &Facts,
    n: u32,
    a: u32,
    b: u32,
    m: u32,
    reads: &mut Vec<Fact>,
) -> Result<(), MemoryFault>
    requires { m < length facts.now.instance.messages }
    ensures { OnOk result (AddsFacts (BoundsSendingWithin facts.now.instance facts.now.known n a b m)
        reads.old.items reads.new.items) }
{
    if sent_within(facts, n, a, b, m) {
        return add_sending(reads, a, m);
    }
    Ok(())
}

/// Adds them where it is fixed to channel `k` or to both besides.
fn add_counted(
    facts: &Facts,
    k: u32,
    n: u32,
    a: u32,
    b: u32,
    m: u32,
    reads: &mut Vec<Fact>,
) -> Result<(), MemoryFault>
    requires { m < length facts.now.instance.messages }
    ensures { OnOk result (AddsFacts (BoundsCounted facts.now.instance facts.now.choice facts.now.known k n a b m)
        reads.old.items reads.new.items) }
{
    if counted_within(facts, k, n, a, b, m) {
        return add_sending(reads, a, m);
    }
    Ok(())
}

/// Adds the bounds of the processes of node `n` that run from `a` to `b`. One pass over its processes.
pub fn add_load(
    facts: &Facts,
    n: u32,
    a: u32,
    b: u32,
    reads: &mut Vec<Fact>,
) -> Result<(), MemoryFault>
    ensures { OnOk result (AddsFacts (IsFactOf facts.now.instance facts.now.choice facts.now.known (Runs n a b))
        reads.old.items reads.new.items) }
{
    let instance = facts.instance();
    for p in instance.processes_on(n) {
        add_run_within(facts, n, a, b, *p, reads)?;
    }
    Ok(())
}

/// Adds the bounds of the messages of node `n` that are sent from round `a` on and before `b`. One pass over its messages.
pub fn add_frames(
    facts: &Facts,
    n: u32,
    a: u32,
    b: u32,
    reads: &mut Vec<Fact>,
) -> Result<(), MemoryFault>
    ensures { OnOk result (AddsFacts (IsFactOf facts.now.instance facts.now.choice facts.now.known (Frames n a b))
        reads.old.items reads.new.items) }
{
    let instance = facts.instance();
    for m in instance.messages_of(n) {
        add_sending_within(facts, n, a, b, *m, reads)?;
    }
    Ok(())
}

/// Adds the bounds of those that are fixed to channel `k` or to both. One pass over the messages of the node.
pub fn add_channel(
    facts: &Facts,
    k: u32,
    n: u32,
    a: u32,
    b: u32,
    reads: &mut Vec<Fact>,
) -> Result<(), MemoryFault>
    ensures { OnOk result (AddsFacts (IsFactOf facts.now.instance facts.now.choice facts.now.known (Halves k n a b))
        reads.old.items reads.new.items) }
{
    let instance = facts.instance();
    for m in instance.messages_of(n) {
        add_counted(facts, k, n, a, b, *m, reads)?;
    }
    Ok(())
}
