//! Which jobs are there in a cycle?

ghost use Rattle.std.specs.Prelude.{◌≡◌, ◌+◌, ◌<◌, ◌++◌, IfOk, OnOk, length};
ghost use Rattle.std.specs.List.{flat_map};
ghost use Rattle.rates_model.specs.Cycles.{jobs_of};
ghost use Rattle.endless_schedules.specs.Times.{waits_of};
ghost use Rattle.endless_schedules.specs.Unrolled.{below, job, jobs};

use crate::deadlines::job_deadline;
use crate::names::numbered;
use rates_model::Rates;
use std::alloc::Global;
use ttp_model::{MemoryFault, Numbers, Process};

/// Job `k` of a process.
#[tactic(auto, unfolding(crate::specs::Unrolled::job))]
fn job(
    alloc: Global,
    rates: &Rates,
    waits: &[Numbers],
    p: usize,
    k: u32,
) -> Result<Process, MemoryFault>
    requires inside { p < length rates.now.processes }
    requires there { k < jobs_of rates.now p }
    requires waits { waits.now ≡ waits_of rates.now }
    ensures { IfOk result (λ made. made ≡ job rates.now p k) }
{
    let process = rates.process_at(p);
    let name = numbered(alloc, &process.name, rates.jobs_of(p), k)?;
    Ok(Process {
        name,
        node: process.node,
        wcet: process.wcet,
        release: rates.begin_of(p, k) + process.release,
        deadline: job_deadline(rates, waits, p, k),
    })
}

/// Adds the jobs of a process.
fn push_jobs(
    alloc: Global,
    list: &mut Vec<Process>,
    rates: &Rates,
    waits: &[Numbers],
    p: usize,
) -> Result<(), MemoryFault>
    requires inside { p < length rates.now.processes }
    requires waits { waits.now ≡ waits_of rates.now }
    ensures { OnOk result (list.new.items ≡ list.old.items ++ jobs rates.now p) }
{
    for k in 0..rates.jobs_of(p) {
        list.push(job(alloc, rates, waits, p, k)?)?;
    }
    Ok(())
}

/// Adds the jobs of all processes.
pub fn push_all_jobs(
    alloc: Global,
    list: &mut Vec<Process>,
    rates: &Rates,
    waits: &[Numbers],
) -> Result<(), MemoryFault>
    requires { waits.now ≡ waits_of rates.now }
    ensures { OnOk result (list.new.items ≡ list.old.items
        ++ flat_map (jobs rates.now) (below (length rates.now.processes))) }
{
    for p in 0..rates.processes().len() {
        push_jobs(alloc, list, rates, waits, p)?;
    }
    Ok(())
}
