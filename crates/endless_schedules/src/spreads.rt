//! By how much do the starts of a process vary, and how long after its releases does it end?

ghost use Rattle.std.specs.Prelude.{◌<◌, length};
ghost use Rattle.ttp_model.specs.Rules.{IsInstance};
ghost use Rattle.ttp_model.specs.Plans.{IsValid};
ghost use Rattle.endless_schedules.specs.Unrolled.{unrolled};
ghost use Rattle.endless_schedules.specs.Spreads.{IsSpread};

use crate::first_jobs::first_job;
use rates_model::Rates;
use ttp_model::Plan;

/// Over all jobs of a process and all cycles, in ticks.
#[derive(Clone, Copy, PartialEq, Eq)]
pub struct Spread {
    /// The greatest start, from the begin of its period, less the least.
    pub jitter: u64,
    /// The greatest end, from its release.
    pub response: u64,
}

/// The spread of a process in a valid plan of the instance of one cycle. A step for each job of it, and for each process before it.
pub fn spread_of(rates: &Rates, plan: &Plan, p: usize) -> Spread
    requires inside { p < length rates.now.processes }
    requires valid { IsValid (unrolled rates.now) plan.now }
    ensures { IsSpread rates.now plan.now p result }
{
    let _processes = rates.processes();
    let process = rates.process_at(p);
    let starts = plan.starts.as_slice();
    let first = first_job(rates, p);
    let mut earliest = u64::MAX;
    let mut latest = 0u64;
    for k in 0..rates.jobs_of(p) {
        let at = u64::from(starts[first + k as usize]);
        let start = at.saturating_sub(u64::from(rates.begin_of(p, k)));
        earliest = earliest.min(start);
        latest = latest.max(start);
    }
    Spread {
        jitter: latest.saturating_sub(earliest),
        response: (latest + u64::from(process.wcet)).saturating_sub(u64::from(process.release)),
    }
}
