//! What follows of the definitions, whatever the cluster.

ghost use Rattle.std.specs.Prelude.{◌≡◌, ◌+◌, ◌*◌, ◌<◌, ℕ};
ghost use Rattle.rates_model.specs.Rates.{period_of};
ghost use Rattle.rates_model.specs.Cycles.{cycle, jobs_of, periods_of, IsLeastCommonMultiple};
ghost use Rattle.rates_model.specs.Reads.{job_from_all, last_begun};
ghost use Rattle.rates_model.specs.Rules.{IsRatesProcess};

use crate::rates::Rates;

/// A cycle is some whole number of each period, and no lesser number of ticks is.
pub fn cycle_is_whole_periods(rates: &Rates)
    ensures least { IsLeastCommonMultiple (periods_of rates.now) (cycle rates.now) }
    ensures jobs { (p : ℕ) → IsRatesProcess rates.now p → jobs_of rates.now p * period_of rates.now p ≡ cycle rates.now }
{
    let _processes = rates.processes();
}

/// Which job of p has begun last when job j of q begins is told by jobs counted over all cycles alone: a cycle later it is
/// that job a cycle later.
pub fn reads_are_of_all_cycles(rates: &Rates)
    ensures { (p q c j : ℕ) → IsRatesProcess rates.now p → IsRatesProcess rates.now q
        → last_begun rates.now p q (job_from_all rates.now q c j)
        ≡ job_from_all rates.now p c (last_begun rates.now p q j) }
{
    let _processes = rates.processes();
}
