//! Do processes wait for each other?

ghost use Rattle.std.specs.Prelude.{◌<◌, length};

use std::alloc::Global;
use tt_infer::Facts;
use ttp_model::{Instance, MOST_PROCESSES, MemoryFault, Ring, Step, has_flag, has_link, put_flag};

/// A number for each process.
type Numbers = [u32; MOST_PROCESSES];

/// A step that closes a ring of processes each of which goes before the next, where there is one. A
/// look at each pair of processes of one node, at each link and at each message.
pub fn ring_step(alloc: Global, facts: &Facts) -> Result<Option<Step>, MemoryFault> {
    let waiting = waiting(facts);
    let Some(first) = waiting.iter().position(|waits| *waits) else {
        return Ok(None);
    };
    let before = before(facts, &waiting);
    let ring = ring_from(alloc, &before, entry(&before, first as u32))?;
    if ring.len() < 2 {
        return Ok(None);
    }
    Ok(Some(Step::XCycle(Ring::new(ring))))
}

/// By process, whether it is left when again and again those are taken away that wait for none.
fn waiting(facts: &Facts) -> [bool; MOST_PROCESSES] {
    let count = facts.instance().processes().len() as u32;
    let mut waiting = [false; MOST_PROCESSES];
    let mut times = [0; MOST_PROCESSES];
    for p in 0..count {
        put_flag(&mut waiting, p as usize, true);
        count_later(facts, p, true, &mut times);
    }
    for _ in 0..count {
        if !take_free(facts, &mut waiting, &mut times) {
            return waiting;
        }
    }
    waiting
}

/// Takes away the processes that wait for none. Whether there was one. By process it is kept how many
/// times it stands after one that is left.
fn take_free(facts: &Facts, waiting: &mut [bool; MOST_PROCESSES], times: &mut Numbers) -> bool {
    let mut taken = false;
    let count = facts.instance().processes().len() as u32;
    for p in 0..count {
        if number(times, p) == 0 && put_flag(waiting, p as usize, false) {
            count_later(facts, p, false, times);
            taken = true;
        }
    }
    taken
}

/// Counts each process that `p` goes before, as often as it does: one more or one less.
fn count_later(facts: &Facts, p: u32, more: bool, times: &mut Numbers)
    requires { p < length facts.now.instance.processes }
{
    count_mates(facts, p, more, times);
    count_linked(facts.instance(), p, more, times);
    count_receivers(facts.instance(), p, more, times);
}

/// Counts the processes of its node that `p` goes before.
fn count_mates(facts: &Facts, p: u32, more: bool, times: &mut Numbers)
    requires { p < length facts.now.instance.processes }
{
    let instance = facts.instance();
    for q in instance.processes_on(instance.node_of(p as usize)) {
        if facts.bef(p, *q) {
            count(times, *q, more);
        }
    }
}

/// Counts the processes that links lead to from `p`.
fn count_linked(instance: &Instance, p: u32, more: bool, times: &mut Numbers) {
    for l in instance.links_from(p) {
        count(times, instance.link_at(*l as usize).after, more);
    }
}

/// Counts the receivers of the messages of `p`.
fn count_receivers(instance: &Instance, p: u32, more: bool, times: &mut Numbers) {
    for m in instance.sent_by(p) {
        count_all(
            times,
            instance.message_at(*m as usize).receivers.as_slice(),
            more,
        );
    }
}

/// Counts each of these processes.
fn count_all(times: &mut Numbers, processes: &[u32], more: bool) {
    for q in processes {
        count(times, *q, more);
    }
}

/// Counts a process: one more or one less.
fn count(times: &mut Numbers, q: u32, more: bool) {
    let before = number(times, q);
    if (q as usize) < MOST_PROCESSES {
        times[q as usize] = if more {
            before.saturating_add(1)
        } else {
            before.saturating_sub(1)
        };
    }
}

/// The number of a process: 0 where it isn't there.
fn number(numbers: &Numbers, p: u32) -> u32 {
    if (p as usize) < MOST_PROCESSES {
        numbers[p as usize]
    } else {
        0
    }
}

/// By process, one that waits and goes before it.
fn before(facts: &Facts, waiting: &[bool; MOST_PROCESSES]) -> Numbers {
    let count = facts.instance().processes().len() as u32;
    let mut before = [0; MOST_PROCESSES];
    for q in 0..count {
        before[q as usize] = one_before(facts, waiting, q);
    }
    before
}

/// The first process that waits and goes before `q`: 0 where there is none.
fn one_before(facts: &Facts, waiting: &[bool; MOST_PROCESSES], q: u32) -> u32
    requires { q < length facts.now.instance.processes }
{
    let count = facts.instance().processes().len() as u32;
    for p in 0..count {
        if has_flag(waiting, p as usize) && goes_before(facts, p, q) {
            return p;
        }
    }
    0
}

/// Whether process `p` goes before `q`: on their node, by a link, or as it sends to it.
fn goes_before(facts: &Facts, p: u32, q: u32) -> bool
    requires first { p < length facts.now.instance.processes }
    requires second { q < length facts.now.instance.processes }
{
    let instance = facts.instance();
    let one_node = instance.node_of(p as usize) == instance.node_of(q as usize);
    (one_node && facts.bef(p, q)) || has_link(instance, p, q) || sends_to(instance, p, q)
}

/// Whether process `q` has a message of `p`.
fn sends_to(instance: &Instance, p: u32, q: u32) -> bool {
    for m in instance.sent_by(p) {
        if instance.message_at(*m as usize).receivers.contains(q) {
            return true;
        }
    }
    false
}

/// The first process that comes again where one goes back from a process, each time to the one before.
fn entry(before: &Numbers, first: u32) -> u32 {
    let mut seen = [false; MOST_PROCESSES];
    let mut at = first;
    for _ in 0..MOST_PROCESSES {
        if has_flag(&seen, at as usize) {
            return at;
        }
        put_flag(&mut seen, at as usize, true);
        at = number(before, at);
    }
    at
}

/// The processes from one back to itself, the earliest first.
fn ring_from(alloc: Global, before: &Numbers, entry: u32) -> Result<Vec<u32>, MemoryFault> {
    let mut ring = Vec::new(alloc);
    let mut at = entry;
    for _ in 0..MOST_PROCESSES {
        ring.push(at)?;
        at = number(before, at);
        if at == entry {
            break;
        }
    }
    ring.reverse();
    Ok(ring)
}
