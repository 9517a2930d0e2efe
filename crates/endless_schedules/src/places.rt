//! Which index does each job and each store have?

ghost use Rattle.std.specs.Prelude.{◌≡◌, ◌<◌, ◌≤◌, IfErr, IfOk, length, map};
ghost use Rattle.ttp_model.specs.declared.limits.TheConstants.{MOST_PROCESSES};
ghost use Rattle.ttp_model.specs.Totals.{total};
ghost use Rattle.rates_model.specs.Cycles.{jobs_of};
ghost use Rattle.rates_model.specs.Rules.{IsRatesProcess};
ghost use Rattle.endless_schedules.specs.Stores.{all_jobs, all_storing, first_store, job_index};
ghost use Rattle.endless_schedules.specs.Places.{ArePlaces, process_count};
ghost use Rattle.endless_schedules.specs.Faults.{IsTableFault};
ghost use Rattle.endless_schedules.specs.Unrolled.{below};

use crate::fault::TableFault;
use crate::stores::all_storing;
use rates_model::Rates;
use std::alloc::Global;
use ttp_model::{MOST_PROCESSES, Numbers, Part};

/// The first indices of jobs and stores, and the nodes that store each message.
#[derive(Drop)]
pub struct Places {
    pub first_jobs: Vec<u32>,
    pub first_stores: Vec<u32>,
    pub storing: Vec<Numbers>,
}

/// The first index of each process's jobs, and how many jobs there are.
fn first_jobs(alloc: Global, rates: &Rates) -> Result<(Vec<u32>, u32), TableFault>
    ensures jobs { IfOk result (λ first. first.0.items
        ≡ map (λ p. total (jobs_of rates.now) p) (below (length rates.now.processes))) }
    ensures count { IfOk result (λ first. (first.1 ≡ all_jobs rates.now) × (first.1 ≤ MOST_PROCESSES)) }
    ensures err { IfErr result (IsTableFault rates.now) }
{
    let mut first = Vec::new(alloc);
    let mut count = 0;
    for p in 0..rates.processes().len() {
        first.push(count)?;
        count += rates.jobs_of(p);
        if count as usize > MOST_PROCESSES {
            return Err(TableFault::TooMany(Part::Processes));
        }
    }
    Ok((first, count))
}

/// The first index of each message's stores, behind so many jobs.
fn first_stores(
    alloc: Global,
    rates: &Rates,
    storing: &[Numbers],
    jobs: u32,
) -> Result<Vec<u32>, TableFault>
    requires storing { storing.now ≡ all_storing rates.now }
    requires jobs { jobs ≡ all_jobs rates.now }
    requires few { jobs ≤ MOST_PROCESSES }
    ensures stores { IfOk result (λ first. first.items
        ≡ map (first_store rates.now) (below (length rates.now.messages))) }
    ensures count { IfOk result (λ _. process_count rates.now ≤ MOST_PROCESSES) }
    ensures err { IfErr result (IsTableFault rates.now) }
{
    let mut first = Vec::new(alloc);
    let mut count = jobs;
    for m in 0..rates.messages().len() {
        first.push(count)?;
        let stores = storing[m].len();
        if stores > MOST_PROCESSES - count as usize {
            return Err(TableFault::TooMany(Part::Processes));
        }
        count += stores as u32;
    }
    Ok(first)
}

impl Places {
    /// Those of a cycle, unless it has too many processes.
    pub fn of(alloc: Global, rates: &Rates) -> Result<Places, TableFault>
        ensures ok { IfOk result (ArePlaces rates.now) }
        ensures err { IfErr result (IsTableFault rates.now) }
    {
        let (first_jobs, jobs) = first_jobs(alloc, rates)?;
        let storing = all_storing(alloc, rates)?;
        let first_stores = first_stores(alloc, rates, &storing, jobs)?;
        Ok(Places {
            first_jobs,
            first_stores,
            storing,
        })
    }

    /// The index of job `k` of a process.
    pub fn of_job(&self, rates: &Rates, p: u32, k: u32) -> u32
        requires places { ArePlaces rates.now self.now }
        requires inside { IsRatesProcess rates.now p }
        requires there { k < jobs_of rates.now p }
        ensures index { result ≡ job_index rates.now p k }
        ensures few { result < MOST_PROCESSES }
    {
        self.first_jobs[p as usize] + k
    }
}
