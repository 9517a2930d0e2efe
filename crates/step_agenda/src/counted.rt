//! Which facts count as what a step rests on?

use crate::closers::bytes_counted;
use tt_infer::{Fact, Facts, Reads, Source, add_source, reads, sender};
use ttp_model::{Instance, MemoryFault, Step};

/// Adds the facts that a step rests on, where these facts are known when the last step is taken.
pub fn add_counted(facts: &Facts, step: &Step, counted: &mut Vec<Fact>) -> Result<(), MemoryFault> {
    match reads(facts.instance(), step) {
        Reads::Nothing => Ok(()),
        Reads::One(source) => add_of_source(facts, source, counted),
        Reads::Two(first, second) => {
            add_of_source(facts, first, counted)?;
            add_of_source(facts, second, counted)
        }
    }
}

/// Adds those that count where a source is read: those that it is, and of rings, frames, messages that could go out earlier and settled
/// plans more, by which closers are weighed.
pub fn add_of_source(
    facts: &Facts,
    source: Source,
    counted: &mut Vec<Fact>,
) -> Result<(), MemoryFault> {
    match source {
        Source::Circle(ring) => add_orders(ring.as_slice(), counted),
        Source::Frames(n, a, b) => add_frames(facts, None, n, a, b, counted),
        Source::Halves(k, n, a, b) => add_frames(facts, Some(k), n, a, b, counted),
        Source::Earlier(m, _) => add_late(facts.instance(), m, counted),
        Source::Waits(p) => add_settled(facts, p, counted),
        Source::Learnt(_) | Source::Fixed(_) | Source::Runs(_, _, _) | Source::Lower(_) => {
            add_source(facts, source, counted)
        }
    }
}

/// Adds both rounds of message `m`.
fn add_rounds(m: u32, counted: &mut Vec<Fact>) -> Result<(), MemoryFault> {
    counted.push(Fact::FirstRound(m))?;
    counted.push(Fact::LateRound(m))?;
    Ok(())
}

/// Adds the orders of a ring: of each process before the next, and of the last before the first.
fn add_orders(ring: &[u32], counted: &mut Vec<Fact>) -> Result<(), MemoryFault> {
    let Some(last) = ring.last() else {
        return Ok(());
    };
    let mut before = *last;
    for p in ring {
        counted.push(Fact::Order(before, *p))?;
        before = *p;
    }
    Ok(())
}

/// Adds the rounds of the messages of node `n` that are sent from round `a` on and before `b` and count on a channel, or on all together.
fn add_frames(
    facts: &Facts,
    channel: Option<u32>,
    n: u32,
    a: u32,
    b: u32,
    counted: &mut Vec<Fact>,
) -> Result<(), MemoryFault> {
    for m in facts.instance().messages_of(n) {
        let counts = bytes_counted(facts, channel, *m) > 0;
        if counts && facts.lo(*m) >= a && facts.top(*m) <= b {
            add_rounds(*m, counted)?;
        }
    }
    Ok(())
}

/// Adds when the sender of message `m` ends at most, and the rounds of all messages of its node.
fn add_late(instance: &Instance, m: u32, counted: &mut Vec<Fact>) -> Result<(), MemoryFault> {
    counted.push(Fact::End(sender(instance, m)))?;
    if m as usize >= instance.messages().len() {
        return Ok(());
    }
    for other in instance.messages_of(instance.source_of(m as usize)) {
        add_rounds(*other, counted)?;
    }
    Ok(())
}

/// Adds what keeps process `p` from running later: the ends of the other processes of its node, or
/// that it goes before them, and the rounds of its messages.
fn add_settled(facts: &Facts, p: u32, counted: &mut Vec<Fact>) -> Result<(), MemoryFault> {
    let instance = facts.instance();
    if p as usize >= instance.processes().len() {
        return Ok(());
    }
    for x in instance.processes_on(instance.node_of(p as usize)) {
        if *x != p {
            counted.push(kept_back(facts, p, *x))?;
        }
    }
    add_received(instance, p, counted)
}

/// That process `p` goes before `x` where this is known, and else when `x` ends at most.
fn kept_back(facts: &Facts, p: u32, x: u32) -> Fact {
    if facts.bef(p, x) {
        Fact::Order(p, x)
    } else {
        Fact::End(x)
    }
}

/// Adds the first rounds that are too late for the messages to process `p`.
fn add_received(instance: &Instance, p: u32, counted: &mut Vec<Fact>) -> Result<(), MemoryFault> {
    for m in instance.received_by(p) {
        counted.push(Fact::LateRound(*m))?;
    }
    Ok(())
}
