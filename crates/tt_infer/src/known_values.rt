//! How far is a fact known?

ghost use Rattle.std.specs.Prelude.{◌≡◌};
ghost use Rattle.sought_plans.specs.Known.{es_of, le_of, lo_of, top_of};
ghost use Rattle.tt_infer.specs.Targets.{known_value};

use crate::fact::Fact;
use crate::facts::Facts;

/// When a process starts at least: 0 where the process isn't there.
fn start(facts: &Facts, p: u32) -> u32
    ensures { result ≡ es_of facts.now.known p }
{
    match facts.starts().get(p as usize) {
        Some(time) => *time,
        None => 0,
    }
}

/// When a process ends at most: 0 where the process isn't there.
fn end(facts: &Facts, p: u32) -> u32
    ensures { result ≡ le_of facts.now.known p }
{
    match facts.ends().get(p as usize) {
        Some(time) => *time,
        None => 0,
    }
}

/// The least round of a message: 0 where the message isn't there.
fn first_round(facts: &Facts, m: u32) -> u32
    ensures { result ≡ lo_of facts.now.known m }
{
    match facts.first_rounds().get(m as usize) {
        Some(round) => *round,
        None => 0,
    }
}

/// The first round that is too late for a message: 0 where the message isn't there.
fn late_round(facts: &Facts, m: u32) -> u32
    ensures { result ≡ top_of facts.now.known m }
{
    match facts.late_rounds().get(m as usize) {
        Some(round) => *round,
        None => 0,
    }
}

/// How far a fact is known: a time in ticks, a round, or whether it is; 0 where what it is about
/// isn't there.
pub fn value(facts: &Facts, fact: Fact) -> u32
    ensures { result ≡ known_value facts.now.known fact }
{
    match fact {
        Fact::Start(p) => start(facts, p),
        Fact::End(p) => end(facts, p),
        Fact::FirstRound(m) => first_round(facts, m),
        Fact::LateRound(m) => late_round(facts, m),
        Fact::Order(p, q) => u32::from(facts.bef(p, q)),
        Fact::Closed => u32::from(facts.closed()),
    }
}
