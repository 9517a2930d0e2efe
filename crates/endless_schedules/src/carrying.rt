//! Which job of a chain's first process does a job of its last one carry a value of?

ghost use Rattle.std.specs.Prelude.{◌≡◌, ◌*◌, ◌^◌, ◌<◌, ◌≤◌, All, IfOk, length, slice_index};
ghost use Rattle.ttp_model.specs.declared.limits.TheConstants.{MOST_TICKS};
ghost use Rattle.rates_model.specs.declared.limits.TheConstants.{LEAST_THROUGH, MOST_THROUGH};
ghost use Rattle.rates_model.specs.Rates.{period_of};
ghost use Rattle.rates_model.specs.Ages.{age_deadline, carried, last_of};
ghost use Rattle.endless_schedules.specs.Times.{carried_release, waits_along, waits_of};
ghost use Rattle.rates_model.specs.Cycles.{jobs_of};
ghost use Rattle.rates_model.specs.Rules.{IsRatesProcess};

use rates_model::{Chain, Rates};
use std::alloc::Global;
use ttp_model::{MemoryFault, Numbers};

/// By how many periods what each of these but the first reads of the one before it may be old. For each a pass over links and
/// messages.
pub fn waits_along(alloc: Global, rates: &Rates, through: &[u32]) -> Result<Numbers, MemoryFault>
    ensures { IfOk result (λ waits. waits ≡ waits_along rates.now through.now) }
{
    let mut waits = Vec::new(alloc);
    let count = through.len().saturating_sub(1);
    for k in 0..count {
        waits.push(rates.wait_of(through[k], through[k + 1]))?;
    }
    Ok(Numbers::new(waits))
}

/// Those along each chain.
pub fn waits_of(alloc: Global, rates: &Rates) -> Result<Vec<Numbers>, MemoryFault>
    ensures { IfOk result (λ waits. waits.items ≡ waits_of rates.now) }
{
    let mut waits = Vec::new(alloc);
    for chain in rates.chains() {
        waits.push(waits_along(alloc, rates, chain.through.as_slice())?)?;
    }
    Ok(waits)
}

/// The job of the first of these whose value job `job` of the last carries, both from all.
fn carried(rates: &Rates, through: &[u32], waits: &[u32], job: u64) -> u64
    requires some { 0 < length through.now }
    requires inside { All (IsRatesProcess rates.now) through.now }
    requires waits { waits.now ≡ waits_along rates.now through.now }
    requires early { job ≤ 10 ^ 8 }
    ensures value { result ≡ carried rates.now through.now job }
    ensures small { result * period_of rates.now (slice_index through.now 0) ≤ 10 ^ 14 }
{
    let _processes = rates.processes();
    let mut job = job;
    let mut k = through.len() - 1;
    while k > 0 {
        k -= 1;
        let before = rates.process_at(through[k] as usize);
        let after = rates.process_at(through[k + 1] as usize);
        let begun = job * u64::from(after.period) / u64::from(before.period);
        job = begun.saturating_sub(u64::from(waits[k]));
    }
    job
}

/// When the job of a chain's first process may begin whose value job `k` of its last one carries, told by the cycle so many cycles from
/// the first on that none on the way is before all.
pub fn carried_release(rates: &Rates, chain: &Chain, waits: &[u32], k: u32) -> u64
    requires least { LEAST_THROUGH ≤ length chain.now.through }
    requires most { length chain.now.through ≤ MOST_THROUGH }
    requires inside { All (IsRatesProcess rates.now) chain.now.through }
    requires waits { waits.now ≡ waits_along rates.now chain.now.through }
    requires there { k < jobs_of rates.now (last_of chain.now) }
    ensures value { result ≡ carried_release rates.now chain.now k }
    ensures small { result ≤ 10 ^ 15 }
{
    let through = chain.through.as_slice();
    let back = 2 * through.len() as u64;
    let jobs = rates.jobs_of(through[through.len() - 1] as usize);
    let job = carried(rates, through, waits, back * u64::from(jobs) + u64::from(k));
    let first = rates.process_at(through[0] as usize);
    job * u64::from(first.period) + u64::from(first.release)
}

/// By when job `k` of a chain's last process has to end, so that what it carries isn't too old.
pub fn age_deadline(rates: &Rates, chain: &Chain, waits: &[u32], k: u32) -> u64
    requires least { LEAST_THROUGH ≤ length chain.now.through }
    requires most { length chain.now.through ≤ MOST_THROUGH }
    requires inside { All (IsRatesProcess rates.now) chain.now.through }
    requires waits { waits.now ≡ waits_along rates.now chain.now.through }
    requires age { chain.now.age ≤ MOST_TICKS }
    requires there { k < jobs_of rates.now (last_of chain.now) }
    ensures { result ≡ age_deadline rates.now chain.now k }
{
    let back = 2 * chain.through.as_slice().len() as u64;
    let release = carried_release(rates, chain, waits, k);
    (u64::from(chain.age) + release).saturating_sub(back * u64::from(rates.cycle()))
}
