//! Which numbers are outside their ranges, and which process has no room in its period.

ghost use Rattle.std.specs.Prelude.{◌≤◌, ◌↔◌, IsTrue, length};
ghost use Rattle.ttp_model.specs.Lists.{FindsFailure};
ghost use Rattle.rates_model.specs.declared.limits.TheConstants.{MOST_DELAY};
ghost use Rattle.rates_model.specs.declared.error.RatesPlace.TheVariants.{AtCluster};
ghost use Rattle.rates_model.specs.Rates.{process_at, link_at, message_at, chain_at};
ghost use Rattle.rates_model.specs.Parts.{rates_of};
ghost use Rattle.rates_model.specs.Rules.{KeepsRatesLimits, AreTicks, HasRanges, HasRoom};
ghost use Rattle.rates_model.specs.Searches.{FindsFirst};

use crate::error::RatesPlace;
use crate::limits::MOST_DELAY;
use crate::parts::RatesParts;
use ttp_model::MOST_TICKS;

fn are_ticks(ticks: u32) -> bool
    ensures { IsTrue result ↔ AreTicks ticks }
{
    ticks >= 1 && ticks <= MOST_TICKS
}

/// The first process with a period outside its range.
fn wrong_period(parts: &RatesParts) -> Option<u32>
    requires { KeepsRatesLimits (rates_of parts.now) }
    ensures { FindsFailure (length parts.now.processes.items)
        (λ p. AreTicks (process_at (rates_of parts.now) p).period) result }
{
    for p in 0..parts.processes.len() {
        if !are_ticks(parts.processes[p].period) {
            return Some(p as u32);
        }
    }
    None
}

/// The first link with a delay outside its range.
fn late_link(parts: &RatesParts) -> Option<u32>
    requires { KeepsRatesLimits (rates_of parts.now) }
    ensures { FindsFailure (length parts.now.links.items)
        (λ l. (link_at (rates_of parts.now) l).delay ≤ MOST_DELAY) result }
{
    for l in 0..parts.links.len() {
        if parts.links[l].delay > MOST_DELAY {
            return Some(l as u32);
        }
    }
    None
}

/// The first message with a delay outside its range.
fn late_message(parts: &RatesParts) -> Option<u32>
    requires { KeepsRatesLimits (rates_of parts.now) }
    ensures { FindsFailure (length parts.now.messages.items)
        (λ m. (message_at (rates_of parts.now) m).delay ≤ MOST_DELAY) result }
{
    for m in 0..parts.messages.len() {
        if parts.messages[m].delay > MOST_DELAY {
            return Some(m as u32);
        }
    }
    None
}

/// The first chain with an age outside its range.
fn wrong_age(parts: &RatesParts) -> Option<u32>
    requires { KeepsRatesLimits (rates_of parts.now) }
    ensures { FindsFailure (length parts.now.chains.items)
        (λ c. AreTicks (chain_at (rates_of parts.now) c).age) result }
{
    for c in 0..parts.chains.len() {
        if !are_ticks(parts.chains[c].age) {
            return Some(c as u32);
        }
    }
    None
}

/// Whether the numbers of the cluster are: what storing takes, and the round where one is asked for.
fn has_cluster_ranges(parts: &RatesParts) -> bool
    ensures { IsTrue result ↔ HasRanges (rates_of parts.now) AtCluster }
{
    match parts.cluster.round {
        None => are_ticks(parts.cluster.store),
        Some(round) => are_ticks(parts.cluster.store) && are_ticks(round),
    }
}

/// The first place with a number outside its range.
pub fn out_of_range(parts: &RatesParts) -> Option<RatesPlace>
    requires { KeepsRatesLimits (rates_of parts.now) }
    ensures { FindsFirst (HasRanges (rates_of parts.now)) result }
{
    if !has_cluster_ranges(parts) {
        return Some(RatesPlace::AtCluster);
    }
    if let Some(p) = wrong_period(parts) {
        return Some(RatesPlace::AtProcess(p));
    }
    if let Some(l) = late_link(parts) {
        return Some(RatesPlace::AtLink(l));
    }
    if let Some(m) = late_message(parts) {
        return Some(RatesPlace::AtMessage(m));
    }
    if let Some(c) = wrong_age(parts) {
        return Some(RatesPlace::AtChain(c));
    }
    None
}

/// The first process that has no room in its period.
pub fn without_room(parts: &RatesParts) -> Option<u32>
    requires { KeepsRatesLimits (rates_of parts.now) }
    ensures { FindsFailure (length parts.now.processes.items) (HasRoom (rates_of parts.now)) result }
{
    for p in 0..parts.processes.len() {
        let process = &parts.processes[p];
        if u64::from(process.release) + u64::from(process.wcet) > u64::from(process.deadline) {
            return Some(p as u32);
        }
        if process.deadline > process.period {
            return Some(p as u32);
        }
    }
    None
}
