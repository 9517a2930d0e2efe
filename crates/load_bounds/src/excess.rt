//! In which interval is more to be served than there is room for?

ghost use Rattle.std.specs.Prelude.{◌≡◌, ◌<◌, ◌≤◌, ◌^◌, ℕ, length, MatchOption};
ghost use Rattle.std.specs.List.Sorted.{IsNonDecreasingBy};
ghost use Rattle.load_bounds.specs.Within.{until_of, IsExcess};

use crate::demands::{Demand, Demands, MOST_DEMANDS};

/// From `from` on, the end of an interval with more demand than `rate` for each tick or round of it.
/// The demands are handed in by their ends. One pass over them.
fn excess_from(demands: &[Demand], rate: u32, from: u32) -> Option<u32>
    requires few { length demands.now ≤ MOST_DEMANDS }
    requires sorted { IsNonDecreasingBy until_of demands.now }
    ensures { MatchOption result
        ((b : ℕ) → ¬ IsExcess rate demands.now from b)
        (λ b. IsExcess rate demands.now from b) }
{
    let mut sum: u64 = 0;
    for demand in demands {
        if demand.from >= from {
            sum += u64::from(demand.size);
            let until = from.max(demand.until);
            if sum > u64::from(until - from) * u64::from(rate) {
                return Some(until);
            }
        }
    }
    None
}

/// An interval with more demand than `rate` for each tick or round of it. Sorts the demands; for each of
/// them a pass over all.
pub fn excess(demands: &mut Demands, rate: u32) -> Option<(u32, u32)>
    ensures { MatchOption result
        ((a b : ℕ) → ¬ IsExcess rate demands.old a b)
        (λ ends. IsExcess rate demands.old ends.0 ends.1) }
{
    demands.sort();
    let sorted = demands.as_slice();
    for demand in sorted {
        if let Some(until) = excess_from(sorted, rate, demand.from) {
            return Some((demand.from, until));
        }
    }
    None
}
