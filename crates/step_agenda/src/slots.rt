//! Which rounds of a message have slots by a time?

ghost use Rattle.std.specs.Prelude.{◌≤◌, ◌<◌, IfSome, length};

use tt_infer::Facts;

/// How far the slots of two rounds are apart, in ticks.
fn distance(earlier: u64, later: u64) -> u64
    ensures { 1 ≤ result }
{
    later.saturating_sub(earlier).max(1)
}

/// The time between the end of a slot and the start of a receiver, in ticks.
pub fn copy_in(facts: &Facts) -> u64 {
    u64::from(facts.instance().cluster().copy_in)
}

/// The time between the end of a sender and the begin of a slot, in ticks.
pub fn copy_out(facts: &Facts) -> u64 {
    u64::from(facts.instance().cluster().copy_out)
}

/// The node that a message is sent from, if the message is there.
fn source(facts: &Facts, m: u32) -> Option<u32>
    ensures { IfSome result (λ n. n < length facts.now.instance.nodes) }
{
    let instance = facts.instance();
    if (m as usize) < instance.messages().len() {
        Some(instance.source_of(m as usize))
    } else {
        None
    }
}

/// How long the slot of a message takes at least with the copies before and after it, in ticks: the copies alone where the
/// message isn't there.
pub fn least_passage(facts: &Facts, m: u32) -> u64 {
    let duration = match source(facts, m) {
        Some(n) => facts.setting().dur_least(n),
        None => 0,
    };
    duration
        .saturating_add(copy_in(facts))
        .saturating_add(copy_out(facts))
}

/// When the slot of a message begins in a round at most, in ticks: 0 where the message isn't there.
pub fn begin_most(facts: &Facts, m: u32, round: u32) -> u64 {
    match source(facts, m) {
        Some(n) => facts.setting().start_most(n, round),
        None => 0,
    }
}

/// When the slot of a message begins in a round at least, in ticks: 0 where the message isn't there.
pub fn begin_least(facts: &Facts, m: u32, round: u32) -> u64 {
    match source(facts, m) {
        Some(n) => facts.setting().start_least(n, round),
        None => 0,
    }
}

/// When the slot of a message ends in a round at least, in ticks: 0 where the message isn't there.
pub fn end_least(facts: &Facts, m: u32, round: u32) -> u64 {
    match source(facts, m) {
        Some(n) => facts.setting().end_least(n, round),
        None => 0,
    }
}

/// When the slot of a message ends in a round at most, in ticks: 0 where the message isn't there.
fn end_most(facts: &Facts, m: u32, round: u32) -> u64 {
    match source(facts, m) {
        Some(n) => facts.setting().end_most(n, round),
        None => 0,
    }
}

/// The first round of a message that arrives at this time or later in all plans.
pub fn round_arriving(facts: &Facts, m: u32, time: u64) -> u64 {
    let first = end_least(facts, m, 0);
    let apart = distance(first, end_least(facts, m, 1));
    let wait = time.saturating_sub(first.saturating_add(copy_in(facts)));
    wait.saturating_add(apart - 1) / apart
}

/// How many rounds of a message begin by a time in all plans.
pub fn rounds_begun(facts: &Facts, m: u32, time: u64) -> u64 {
    let first = begin_most(facts, m, 0);
    let apart = distance(first, begin_most(facts, m, 1));
    if time < first {
        0
    } else {
        ((time - first) / apart).saturating_add(1)
    }
}

/// How many rounds of a message have arrived by a time in all plans.
pub fn rounds_arrived(facts: &Facts, m: u32, time: u64) -> u64 {
    let first = end_most(facts, m, 0).saturating_add(copy_in(facts));
    let apart = distance(begin_most(facts, m, 0), begin_most(facts, m, 1));
    if time < first {
        0
    } else {
        ((time - first) / apart).saturating_add(1)
    }
}
