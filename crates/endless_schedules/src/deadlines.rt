//! By when does a job have to end?

ghost use Rattle.std.specs.Prelude.{◌≡◌, ◌+◌, ◌<◌, fold, length, min};
ghost use Rattle.rates_model.specs.Cycles.{jobs_of};
ghost use Rattle.rates_model.specs.Rates.{process_at};
ghost use Rattle.endless_schedules.specs.Times.{age_deadlines, job_deadline, waits_of};

use crate::carrying::age_deadline;
use rates_model::Rates;
use ttp_model::Numbers;

/// The least of a tick and of those by which chains want job `k` of a process to end.
fn least_with_ages(rates: &Rates, waits: &[Numbers], p: usize, k: u32, tick: u32) -> u32
    requires inside { p < length rates.now.processes }
    requires there { k < jobs_of rates.now p }
    requires waits { waits.now ≡ waits_of rates.now }
    ensures { result ≡ fold min tick (age_deadlines rates.now p k) }
{
    let mut least = tick;
    for c in 0..rates.chains().len() {
        let chain = rates.chain_at(c);
        let through = chain.through.as_slice();
        if through[through.len() - 1] as usize == p {
            let age = age_deadline(rates, chain, waits[c].as_slice(), k);
            least = u64::from(least).min(age) as u32;
        }
    }
    least
}

/// The latest end of job `k` of a process.
#[tactic(auto, unfolding(crate::specs::Times::job_deadline))]
pub fn job_deadline(rates: &Rates, waits: &[Numbers], p: usize, k: u32) -> u32
    requires inside { p < length rates.now.processes }
    requires there { k < jobs_of rates.now p }
    requires waits { waits.now ≡ waits_of rates.now }
    ensures { result ≡ job_deadline rates.now p k }
{
    let process = rates.process_at(p);
    let own = rates.begin_of(p, k) + process.deadline;
    least_with_ages(rates, waits, p, k, rates.horizon().min(own))
}
