//! In which ticks is a round as long as is asked for?

ghost use Rattle.std.specs.Prelude.{◌≡◌, ◌-◌, ◌*◌, ◌/◌, ◌<◌, ◌≤◌, ℕ, Some, map, sum_by};
ghost use Rattle.ttp_model.specs.declared.limits.TheConstants.{MOST_NODES};
ghost use Rattle.ttp_model.specs.Slots.{slot_duration};
ghost use Rattle.rates_model.specs.Cycles.{bus_for, least_times, round_of};
ghost use Rattle.rates_model.specs.Finer.{finer, finer_chain, finer_cluster, finer_process, finer_ticks, in_finer_ticks, share_of};
ghost use Rattle.rates_model.specs.Parts.{rates_of};
ghost use Rattle.rates_model.specs.Rates.{Rates};
ghost use Rattle.rates_model.specs.Rules.{IsRates};

use crate::cycles::slot_of;
use crate::parts::{Chain, RatesCluster, RatesNode, RatesParts, RatesProcess};
use ttp_model::MOST_NODES;

/// What the slots leave of a round of so many ticks.
fn rest_of(c: &RatesCluster, nodes: &[RatesNode], round: u32) -> u32
    ensures { result ≡ round - sum_by (λ n. slot_duration (bus_for c.now 0) n.capacity) nodes.now }
{
    let mut rest = round;
    for node in nodes {
        rest = u128::from(rest).saturating_sub(slot_of(c, node.capacity)) as u32;
    }
    rest
}

/// The fewest finer ticks to one of which a rest has the same whole number for each slot: no more than there are slots.
fn finer_ticks(rest: u32, slots: u32) -> u32
    requires some { 0 < slots }
    requires few { slots ≤ MOST_NODES }
    ensures value { result ≡ least_times rest slots }
    ensures few { result ≤ slots }
{
    for k in 0..slots - 1 {
        if u64::from(rest) * u64::from(k + 1) % u64::from(slots) == 0 {
            return k + 1;
        }
    }
    slots
}

/// The share of each slot, of a rest in such ticks.
fn share_of(finer: u32, rest: u32, slots: u32) -> u32
    requires some { 0 < slots }
    requires few { finer ≤ slots }
    ensures { result ≡ finer * rest / slots }
{
    (u64::from(finer) * u64::from(rest) / u64::from(slots)) as u32
}

/// The numbers of a cluster in ticks that are so many times finer, with a share for each slot.
#[tactic(auto, unfolding(crate::specs::Finer::finer_cluster))]
fn finer_cluster(c: &RatesCluster, finer: u32, share: u32) -> RatesCluster
    ensures { result ≡ finer_cluster finer share c.now }
{
    RatesCluster {
        precision: c.precision.saturating_mul(finer),
        lead: c.lead.saturating_mul(finer),
        trail: c.trail.saturating_mul(finer).saturating_add(share),
        head: c.head.saturating_mul(finer),
        per_byte: c.per_byte.saturating_mul(finer),
        copy_out: c.copy_out.saturating_mul(finer),
        copy_in: c.copy_in.saturating_mul(finer),
        channels: c.channels,
        store: c.store.saturating_mul(finer),
        round: c.round,
        finer,
    }
}

/// Processes in ticks that are so many times finer.
fn make_processes_finer(processes: &mut [RatesProcess], finer: u32)
    ensures { processes.new ≡ map (finer_process finer) processes.old }
{
    for process in processes.iter_mut() {
        process.wcet = process.wcet.saturating_mul(finer);
        process.period = process.period.saturating_mul(finer);
        process.release = process.release.saturating_mul(finer);
        process.deadline = process.deadline.saturating_mul(finer);
    }
}

/// Chains in ticks that are so many times finer.
fn make_chains_finer(chains: &mut [Chain], finer: u32)
    ensures { chains.new ≡ map (finer_chain finer) chains.old }
{
    for chain in chains.iter_mut() {
        chain.age = chain.age.saturating_mul(finer);
    }
}

/// Tells all times in ticks so fine that what the slots leave of a round is shared evenly.
fn share_rest(parts: &mut RatesParts, round: u32)
    ensures { rates_of parts.new
        ≡ in_finer_ticks (finer_ticks (rates_of parts.old) round) (share_of (rates_of parts.old) round) (rates_of parts.old) }
{
    let slots = parts.nodes.len().min(MOST_NODES).max(1) as u32;
    let rest = rest_of(&parts.cluster, &parts.nodes, round);
    let finer = finer_ticks(rest, slots);
    let share = share_of(finer, rest, slots);
    parts.cluster = finer_cluster(&parts.cluster, finer, share);
    make_processes_finer(parts.processes.as_mut_slice(), finer);
    make_chains_finer(parts.chains.as_mut_slice(), finer);
}

/// Tells all times in ticks so fine that the round that is asked for is shared evenly; where none is nothing changes. What doesn't fit
/// 32 bits then is the greatest number that does, which no rule lets pass.
pub fn make_finer(parts: &mut RatesParts)
    ensures { rates_of parts.new ≡ finer (rates_of parts.old) }
{
    match parts.cluster.round {
        None => {}
        Some(round) => share_rest(parts, round),
    }
}

/// With the share of each slot a round takes just so many ticks of the text as were asked for.
pub fn rounds_are_as_asked()
    ensures { (rho : Rates) (round : ℕ) → rho.cluster.round ≡ Some round → IsRates (finer rho)
        → round_of (finer rho) ≡ (finer rho).cluster.finer * round }
{}
