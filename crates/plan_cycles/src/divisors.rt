//! Which rounds divide a period?

ghost use Rattle.std.specs.Prelude.{◌+◌, ◌<◌, ◌≤◌, IfOk};
ghost use Rattle.ttp_model.specs.declared.limits.TheConstants.{MOST_TICKS};
ghost use Rattle.plan_cycles.specs.Divisors.{AreDivisors, IsGreatestUpTo, IsLeastFrom};

use std::alloc::{AllocError, Global};

/// All rounds that divide a period, rising. A step for each tick of it.
pub fn divisors(alloc: Global, period: u64) -> Result<Vec<u64>, AllocError>
    requires { period ≤ MOST_TICKS }
    ensures { IfOk result (λ rounds. AreDivisors period (period + 1) rounds.items) }
{
    let mut rounds = Vec::new(alloc);
    for ticks in 1..period + 1 {
        if period % ticks == 0 {
            rounds.push(ticks)?;
        }
    }
    Ok(rounds)
}

/// The longest round that divides a period and takes no more ticks than this one. A step for each of its ticks.
pub fn nearest_below(period: u64, round: u64) -> u64
    requires { 0 < round }
    ensures { IsGreatestUpTo period round result }
{
    for fewer in 0..round {
        let ticks = round - fewer;
        if period % ticks == 0 {
            return ticks;
        }
    }
    1
}

/// The shortest round that divides a period and takes no fewer ticks than this one. A step for each tick of the period.
pub fn nearest_above(period: u64, round: u64) -> u64
    requires some { 0 < round }
    requires within { round ≤ period }
    ensures { IsLeastFrom period round result }
{
    for ticks in round..period {
        if period % ticks == 0 {
            return ticks;
        }
    }
    period
}
