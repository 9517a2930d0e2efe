//! What stands in the tables of a cluster of several rates at an index: nothing, or 0, where none does?

ghost use Rattle.std.specs.Prelude.{◌≡◌, ◌<◌, length};
ghost use Rattle.rates_model.specs.Parts.{rates_of};
ghost use Rattle.rates_model.specs.Rates.{chain_at, link_at, message_at, node_at, process_at};
ghost use Rattle.rates_command.specs.Rules.{AreTimes, process_through};

use rates_model::{RatesLink, RatesParts};

/// The times of a process, in ticks.
#[derive(Clone, Copy)]
pub struct RatesTimes {
    pub wcet: u32,
    pub period: u32,
    pub release: u32,
    pub deadline: u32,
}

/// The name of node `n`.
pub fn node_name(parts: &RatesParts, n: u32) -> &str
    ensures { result.now ≡ (node_at (rates_of parts.now) n).name }
{
    if (n as usize) < parts.nodes.len() {
        parts.nodes[n as usize].name.as_str()
    } else {
        ""
    }
}

/// What its frame holds.
pub fn capacity_of(parts: &RatesParts, n: u32) -> u32
    ensures { result ≡ (node_at (rates_of parts.now) n).capacity }
{
    if (n as usize) < parts.nodes.len() {
        parts.nodes[n as usize].capacity
    } else {
        0
    }
}

/// The name of process `p`.
pub fn process_name(parts: &RatesParts, p: u32) -> &str
    ensures { result.now ≡ (process_at (rates_of parts.now) p).name }
{
    if (p as usize) < parts.processes.len() {
        parts.processes[p as usize].name.as_str()
    } else {
        ""
    }
}

/// Its times.
pub fn times_of(parts: &RatesParts, p: u32) -> RatesTimes
    ensures { AreTimes (process_at (rates_of parts.now) p) result }
{
    if (p as usize) < parts.processes.len() {
        let process = &parts.processes[p as usize];
        RatesTimes {
            wcet: process.wcet,
            period: process.period,
            release: process.release,
            deadline: process.deadline,
        }
    } else {
        RatesTimes {
            wcet: 0,
            period: 0,
            release: 0,
            deadline: 0,
        }
    }
}

/// Link `l`.
pub fn link_of(parts: &RatesParts, l: u32) -> RatesLink
    ensures { result ≡ link_at (rates_of parts.now) l }
{
    if (l as usize) < parts.links.len() {
        parts.links[l as usize]
    } else {
        RatesLink {
            before: 0,
            after: 0,
            delay: 0,
        }
    }
}

/// The name of message `m`.
pub fn message_name(parts: &RatesParts, m: u32) -> &str
    ensures { result.now ≡ (message_at (rates_of parts.now) m).name }
{
    if (m as usize) < parts.messages.len() {
        parts.messages[m as usize].name.as_str()
    } else {
        ""
    }
}

/// Its delay.
pub fn message_delay(parts: &RatesParts, m: u32) -> u32
    ensures { result ≡ (message_at (rates_of parts.now) m).delay }
{
    if (m as usize) < parts.messages.len() {
        parts.messages[m as usize].delay
    } else {
        0
    }
}

/// The name of chain `c`.
pub fn chain_name(parts: &RatesParts, c: u32) -> &str
    ensures { result.now ≡ (chain_at (rates_of parts.now) c).name }
{
    if (c as usize) < parts.chains.len() {
        parts.chains[c as usize].name.as_str()
    } else {
        ""
    }
}

/// Its age.
pub fn chain_age(parts: &RatesParts, c: u32) -> u32
    ensures { result ≡ (chain_at (rates_of parts.now) c).age }
{
    if (c as usize) < parts.chains.len() {
        parts.chains[c as usize].age
    } else {
        0
    }
}

/// The processes that it leads through.
pub fn chain_processes(parts: &RatesParts, c: u32) -> &[u32]
    ensures { result.now ≡ (chain_at (rates_of parts.now) c).through }
{
    if (c as usize) < parts.chains.len() {
        parts.chains[c as usize].through.as_slice()
    } else {
        &[]
    }
}

/// The process at a place of it.
pub fn process_through(parts: &RatesParts, c: u32, place: u32) -> u32
    requires { place < length (chain_at (rates_of parts.now) c).through }
    ensures { result ≡ process_through (rates_of parts.now) c place }
{
    chain_processes(parts, c)[place as usize]
}
