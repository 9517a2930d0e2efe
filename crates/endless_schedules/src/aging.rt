//! Which instance is it in which what a chain carries may be so old?

ghost use Rattle.std.specs.Prelude.{◌≡◌, ◌≢◌, ℕ, ◌+◌, ◌<◌, ◌≤◌, IfOk, MatchOption, length};
ghost use Rattle.ttp_model.specs.Instance.{process_at};
ghost use Rattle.ttp_model.specs.Rules.{IsInstance};
ghost use Rattle.rates_model.specs.Rates.{chain_at};
ghost use Rattle.rates_model.specs.Cycles.{jobs_of};
ghost use Rattle.rates_model.specs.Ages.{last_of};
ghost use Rattle.endless_schedules.specs.Unrolled.{unrolled};
ghost use Rattle.endless_schedules.specs.Aging.{IsAging, aged, latest_end};

use crate::carrying::{carried_release, waits_along};
use crate::first_jobs::first_job;
use instance_variants::{built, copies_of_messages, copies_of_nodes};
use rates_model::Rates;
use std::alloc::Global;
use ttp_model::{Instance, MemoryFault, Numbers, Process};

/// A chain of a cluster of several rates whose age is to be another one.
#[derive(Drop)]
pub struct Aging<'a> {
    pub rates: &'a Rates,
    /// The instance of one cycle.
    pub base: &'a Instance,
    /// The index of the chain.
    pub chain: usize,
    /// By how many periods what each of its processes but the first reads may be old.
    pub waits: Numbers,
    /// The index of its last process's first job in the instance.
    pub first: usize,
}

impl<'a> Aging<'a> {
    /// The chain of an index.
    pub fn of(
        alloc: Global,
        rates: &'a Rates,
        base: &'a Instance,
        chain: usize,
    ) -> Result<Self, MemoryFault>
        requires there { chain < length rates.now.chains }
        requires base { base.now ≡ unrolled rates.now }
        ensures known { IfOk result IsAging }
        ensures rates { IfOk result (λ aging. aging.rates.now ≡ rates.now) }
        ensures chain { IfOk result (λ aging. aging.chain ≡ chain) }
    {
        let through = rates.chain_at(chain).through.as_slice();
        let waits = waits_along(alloc, rates, through)?;
        let first = first_job(rates, through[through.len() - 1] as usize);
        Ok(Aging {
            rates,
            base,
            chain,
            waits,
            first,
        })
    }
}

/// By when job `k` of the last process has to end with an age; 0 where that would be before its cycle.
pub fn latest_end(aging: &Aging<'_>, age: u32, k: u32) -> u64
    requires aging { IsAging aging.now }
    requires there { k < jobs_of aging.now.rates.now (last_of (chain_at aging.now.rates.now aging.now.chain)) }
    ensures { result ≡ latest_end aging.now.rates.now (chain_at aging.now.rates.now aging.now.chain) age k }
{
    let chain = aging.rates.chain_at(aging.chain);
    let back = 2 * chain.through.as_slice().len() as u64 * u64::from(aging.rates.cycle());
    let release = carried_release(aging.rates, chain, aging.waits.as_slice(), k);
    (u64::from(age) + release).saturating_sub(back)
}

/// How many jobs the last process has.
pub fn last_jobs(aging: &Aging<'_>) -> u32
    requires { IsAging aging.now }
    ensures { result ≡ jobs_of aging.now.rates.now (last_of (chain_at aging.now.rates.now aging.now.chain)) }
{
    let through = aging.rates.chain_at(aging.chain).through.as_slice();
    aging.rates.jobs_of(through[through.len() - 1] as usize)
}

/// Which job of the last process it is that has this index in the instance.
fn last_job(aging: &Aging<'_>, p: usize) -> Option<u32>
    requires { IsAging aging.now }
    ensures { MatchOption result
        ((k : ℕ) → k < jobs_of aging.now.rates.now (last_of (chain_at aging.now.rates.now aging.now.chain)) → p ≢ aging.now.first + k)
        (λ k. (p ≡ aging.now.first + k) × (k < jobs_of aging.now.rates.now (last_of (chain_at aging.now.rates.now aging.now.chain)))) }
{
    let jobs = last_jobs(aging) as usize;
    if p >= aging.first && p - aging.first < jobs {
        Some((p - aging.first) as u32)
    } else {
        None
    }
}

/// The deadline of a process of the instance with an age, which is at most the chain's bound.
pub fn aged_deadline(aging: &Aging<'_>, age: u32, p: usize) -> u32
    requires aging { IsAging aging.now }
    requires less { age ≤ (chain_at aging.now.rates.now aging.now.chain).age }
    requires inside { p < length aging.now.base.now.processes }
    ensures { result ≡ (process_at (aged aging.now.rates.now aging.now.chain age) p).deadline }
{
    let _chains = aging.rates.chains();
    let deadline = aging.base.process_at(p).deadline;
    match last_job(aging, p) {
        Some(k) => u64::from(deadline).min(latest_end(aging, age, k)) as u32,
        None => deadline,
    }
}

/// That process.
fn aged_process(
    alloc: Global,
    aging: &Aging<'_>,
    age: u32,
    p: usize,
) -> Result<Process, MemoryFault>
    requires aging { IsAging aging.now }
    requires less { age ≤ (chain_at aging.now.rates.now aging.now.chain).age }
    requires inside { p < length aging.now.base.now.processes }
    ensures { IfOk result (λ process. process ≡ process_at (aged aging.now.rates.now aging.now.chain age) p) }
{
    let process = aging.base.process_at(p);
    let name = process.name.copy(alloc)?;
    let deadline = aged_deadline(aging, age, p);
    Ok(Process {
        name,
        deadline,
        ..*process
    })
}

/// All processes of that instance.
fn aged_processes(alloc: Global, aging: &Aging<'_>, age: u32) -> Result<Vec<Process>, MemoryFault>
    requires aging { IsAging aging.now }
    requires less { age ≤ (chain_at aging.now.rates.now aging.now.chain).age }
    ensures { IfOk result (λ processes. processes.items ≡ (aged aging.now.rates.now aging.now.chain age).processes) }
{
    let mut processes = Vec::new(alloc);
    for p in 0..aging.base.processes().len() {
        processes.push(aged_process(alloc, aging, age, p)?)?;
    }
    Ok(processes)
}

/// The instance in which what the chain carries may be so old, at most as old as its bound, where that keeps all rules. Memory is taken
/// for all of it.
pub fn with_age(alloc: Global, aging: &Aging<'_>, age: u32) -> Result<Instance, MemoryFault>
    requires aging { IsAging aging.now }
    requires less { age ≤ (chain_at aging.now.rates.now aging.now.chain).age }
    requires rules { IsInstance (aged aging.now.rates.now aging.now.chain age) }
    ensures { IfOk result (λ other. other ≡ aged aging.now.rates.now aging.now.chain age) }
{
    let cluster = *aging.base.cluster();
    let nodes = copies_of_nodes(alloc, aging.base.nodes())?;
    let processes = aged_processes(alloc, aging, age)?;
    let links = Vec::from_slice(alloc, aging.base.links())?;
    let messages = copies_of_messages(alloc, aging.base.messages())?;
    built(alloc, cluster, nodes, processes, links, messages)
}
