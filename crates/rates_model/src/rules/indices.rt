//! Which indices are of nothing that is there.

ghost use Rattle.std.specs.Prelude.{◌<◌, ◌↔◌, All, IsTrue, length};
ghost use Rattle.ttp_model.specs.Lists.{FindsFailure};
ghost use Rattle.rates_model.specs.Rates.{node_of, link_at, message_at, chain_at};
ghost use Rattle.rates_model.specs.Parts.{rates_of};
ghost use Rattle.rates_model.specs.Rules.{IsRatesProcess, KeepsRatesLimits, HasIndices};
ghost use Rattle.rates_model.specs.Searches.{FindsFirst};

use crate::error::RatesPlace;
use crate::parts::RatesParts;

/// The first process on a node that is not there.
fn misplaced_process(parts: &RatesParts) -> Option<u32>
    requires { KeepsRatesLimits (rates_of parts.now) }
    ensures { FindsFailure (length parts.now.processes.items)
        (λ p. node_of (rates_of parts.now) p < length parts.now.nodes.items) result }
{
    for p in 0..parts.processes.len() {
        if parts.processes[p].node as usize >= parts.nodes.len() {
            return Some(p as u32);
        }
    }
    None
}

/// The first link of a process that is not there.
fn dangling_link(parts: &RatesParts) -> Option<u32>
    requires { KeepsRatesLimits (rates_of parts.now) }
    ensures { FindsFailure (length parts.now.links.items)
        (λ l. IsRatesProcess (rates_of parts.now) (link_at (rates_of parts.now) l).before
        × IsRatesProcess (rates_of parts.now) (link_at (rates_of parts.now) l).after) result }
{
    let count = parts.processes.len();
    for l in 0..parts.links.len() {
        let link = parts.links[l];
        if link.before as usize >= count || link.after as usize >= count {
            return Some(l as u32);
        }
    }
    None
}

/// Whether each number is the index of one of so many processes.
fn are_processes(indices: &[u32], count: usize) -> bool
    ensures { IsTrue result ↔ All (λ q. q < count) indices.now }
{
    indices.iter().all(|q| (*q as usize) < count)
}

/// The first message from or to a process that is not there.
fn dangling_message(parts: &RatesParts) -> Option<u32>
    requires { KeepsRatesLimits (rates_of parts.now) }
    ensures { FindsFailure (length parts.now.messages.items)
        (λ m. IsRatesProcess (rates_of parts.now) (message_at (rates_of parts.now) m).sender
        × All (IsRatesProcess (rates_of parts.now)) (message_at (rates_of parts.now) m).receivers) result }
{
    let count = parts.processes.len();
    for m in 0..parts.messages.len() {
        let message = &parts.messages[m];
        if message.sender as usize >= count || !are_processes(message.receivers.as_slice(), count) {
            return Some(m as u32);
        }
    }
    None
}

/// The first chain through a process that is not there.
fn dangling_chain(parts: &RatesParts) -> Option<u32>
    requires { KeepsRatesLimits (rates_of parts.now) }
    ensures { FindsFailure (length parts.now.chains.items)
        (λ c. All (IsRatesProcess (rates_of parts.now)) (chain_at (rates_of parts.now) c).through) result }
{
    let count = parts.processes.len();
    for c in 0..parts.chains.len() {
        if !are_processes(parts.chains[c].through.as_slice(), count) {
            return Some(c as u32);
        }
    }
    None
}

/// The first place with an index that is not there.
pub fn missing(parts: &RatesParts) -> Option<RatesPlace>
    requires { KeepsRatesLimits (rates_of parts.now) }
    ensures { FindsFirst (HasIndices (rates_of parts.now)) result }
{
    if let Some(p) = misplaced_process(parts) {
        return Some(RatesPlace::AtProcess(p));
    }
    if let Some(l) = dangling_link(parts) {
        return Some(RatesPlace::AtLink(l));
    }
    if let Some(m) = dangling_message(parts) {
        return Some(RatesPlace::AtMessage(m));
    }
    if let Some(c) = dangling_chain(parts) {
        return Some(RatesPlace::AtChain(c));
    }
    None
}
