//! Where do the jobs of a process stand in a plan?

ghost use Rattle.std.specs.Prelude.{◌≡◌, ◌^◌, ◌<◌, ◌≤◌, length};
ghost use Rattle.ttp_model.specs.Totals.{total};
ghost use Rattle.rates_model.specs.Cycles.{jobs_of};

use rates_model::Rates;

/// The place of the first one's start: behind the jobs of the processes before.
pub fn first_job(rates: &Rates, p: usize) -> usize
    requires { p < length rates.now.processes }
    ensures value { result ≡ total (jobs_of rates.now) p }
    ensures small { result ≤ 10 ^ 9 }
{
    let _processes = rates.processes();
    let mut first = 0;
    for before in 0..p {
        first += rates.jobs_of(before) as usize;
    }
    first
}
