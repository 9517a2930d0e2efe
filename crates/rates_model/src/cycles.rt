//! How long are a cycle and a round?

ghost use Rattle.std.specs.Prelude.{◌≡◌, ◌+◌, ◌*◌, ◌^◌, ◌<◌, ◌≤◌, All, MatchOption, fold, length, map, sum_by};
ghost use Rattle.ttp_model.specs.declared.limits.TheConstants.{MOST_NODES, MOST_TICKS};
ghost use Rattle.ttp_model.specs.Slots.{slot_duration};
ghost use Rattle.rates_model.specs.Cycles.{bus_for, least_multiple};

use crate::parts::{RatesCluster, RatesNode, RatesProcess};
use ttp_model::MOST_TICKS;

/// The least multiple of these ticks that is some whole number of periods, as far as it is in range.
fn least_multiple(ticks: u32, period: u32) -> Option<u32>
    requires some { 0 < ticks }
    requires period { 0 < period }
    ensures { MatchOption result
        (MOST_TICKS < least_multiple ticks period)
        (λ multiple. (multiple ≡ least_multiple ticks period) × (multiple ≤ MOST_TICKS)) }
{
    for k in 0..MOST_TICKS / ticks {
        let multiple = ticks * (k + 1);
        if multiple % period == 0 {
            return Some(multiple);
        }
    }
    None
}

/// The least common multiple of all periods, as far as it is in range.
pub fn cycle_of(processes: &[RatesProcess]) -> Option<u32>
    requires { All (λ p. 0 < p.period) processes.now }
    ensures { MatchOption result
        (MOST_TICKS < fold least_multiple 1 (map (λ p. p.period) processes.now))
        (λ cycle. (cycle ≡ fold least_multiple 1 (map (λ p. p.period) processes.now)) × (cycle ≤ MOST_TICKS)) }
{
    let mut cycle = 1;
    for process in processes {
        let Some(next) = least_multiple(cycle, process.period) else {
            return None;
        };
        cycle = next;
    }
    Some(cycle)
}

/// How long a slot is, whatever its numbers.
pub fn slot_of(c: &RatesCluster, capacity: u32) -> u128
    ensures value { result ≡ slot_duration (bus_for c.now 0) capacity }
    ensures bound { result < 2 ^ 66 }
{
    let frame = u128::from(c.head) + u128::from(c.per_byte) * u128::from(capacity);
    u128::from(c.lead) + frame + u128::from(c.trail)
}

/// How long a round is: the slots of all nodes.
pub fn round_of(c: &RatesCluster, nodes: &[RatesNode]) -> u128
    requires { length nodes.now ≤ MOST_NODES }
    ensures { result ≡ sum_by (λ n. slot_duration (bus_for c.now 0) n.capacity) nodes.now }
{
    let mut round = 0;
    for node in nodes {
        round += slot_of(c, node.capacity);
    }
    round
}
