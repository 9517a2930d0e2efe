//! How old is what a chain carries?

ghost use Rattle.std.specs.Prelude.{◌≡◌, ◌<◌, ◌≤◌, All, IfOk, length};
ghost use Rattle.ttp_model.specs.Plans.{IsValid};
ghost use Rattle.rates_model.specs.declared.limits.TheConstants.{LEAST_THROUGH, MOST_THROUGH};
ghost use Rattle.rates_model.specs.Rates.{chain_at};
ghost use Rattle.rates_model.specs.Rules.{IsRatesProcess};
ghost use Rattle.endless_schedules.specs.Times.{waits_along};
ghost use Rattle.endless_schedules.specs.Unrolled.{unrolled};
ghost use Rattle.endless_schedules.specs.Ages.{IsAge};

use crate::carrying::{carried_release, waits_along};
use crate::first_jobs::first_job;
use rates_model::{Chain, Rates};
use std::alloc::Global;
use ttp_model::{MemoryFault, Plan};

/// The greatest age of what jobs of a chain's last process carry, told by one cycle in which none reaches back to one before all. Takes no
/// memory.
pub fn greatest_age(rates: &Rates, plan: &Plan, chain: &Chain, waits: &[u32]) -> u64
    requires least { LEAST_THROUGH ≤ length chain.now.through }
    requires most { length chain.now.through ≤ MOST_THROUGH }
    requires inside { All (IsRatesProcess rates.now) chain.now.through }
    requires waits { waits.now ≡ waits_along rates.now chain.now.through }
    requires valid { IsValid (unrolled rates.now) plan.now }
    ensures { IsAge rates.now plan.now chain.now result }
{
    let through = chain.through.as_slice();
    let last = through[through.len() - 1] as usize;
    let back = 2 * through.len() as u64 * u64::from(rates.cycle());
    let wcet = u64::from(rates.process_at(last).wcet);
    let starts = plan.starts.as_slice();
    let first = first_job(rates, last);
    let mut greatest = 0u64;
    for k in 0..rates.jobs_of(last) {
        let end = u64::from(starts[first + k as usize]) + wcet;
        let age = (back + end).saturating_sub(carried_release(rates, chain, waits, k));
        greatest = greatest.max(age);
    }
    greatest
}

/// The age of chain `x`, for ever, in a valid plan of the instance of one cycle. For each of its places a pass over links and messages,
/// and for each job of its last process a step for each place.
pub fn chain_age(alloc: Global, rates: &Rates, plan: &Plan, x: usize) -> Result<u64, MemoryFault>
    requires inside { x < length rates.now.chains }
    requires valid { IsValid (unrolled rates.now) plan.now }
    ensures { IfOk result (IsAge rates.now plan.now (chain_at rates.now x)) }
{
    let chain = rates.chain_at(x);
    let waits = waits_along(alloc, rates, chain.through.as_slice())?;
    let age = greatest_age(rates, plan, chain, waits.as_slice());
    Ok(age)
}
