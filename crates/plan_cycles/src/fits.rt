//! Which trails and rounds fit a period?

ghost use Rattle.std.specs.Prelude.{◌≡◌, ◌≢◌, ℕ, ◌+◌, ◌<◌, ◌≤◌, ◌↔◌, IfOk, IsTrue, MatchOption, OnOk, length};
ghost use Rattle.ttp_model.specs.declared.limits.TheConstants.{MOST_NODES, MOST_TICKS};
ghost use Rattle.ttp_model.specs.Rules.{IsClusterInRange};
ghost use Rattle.plan_cycles.specs.Divisors.{AreDivisors};
ghost use Rattle.plan_cycles.specs.Sums.{AreSums};
ghost use Rattle.plan_cycles.specs.Fits.{AreFirst, AreFirstFits, CanTake, IsFitBefore, round_of_bytes};

use crate::divisors::divisors;
use crate::sums::{SUMS, sums_of};
use std::alloc::{AllocError, Global};
use ttp_model::{Cluster, Instance, MOST_BUS_TICKS};

/// How many fits are told, at most.
pub const MOST_FITS: usize = 5;

/// A trail with which some capacities that the nodes offer make a round that divides a period.
#[derive(Clone, Copy, PartialEq, Eq)]
pub struct Fit {
    pub trail: u32,
    /// The ticks of the round.
    pub round: u64,
}

/// The first fits, by rising trail and then by rising round: five, or all. A step for each tick of the period, and for each trail one
/// for each round that divides it.
pub fn fits_of(alloc: Global, instance: &Instance, period: u64) -> Result<Vec<Fit>, AllocError>
    requires some { 0 < period }
    requires few { period ≤ MOST_TICKS }
    ensures { IfOk result (λ fits. AreFirstFits instance.now period fits.items) }
{
    let sums = sums_of(alloc, instance)?;
    let rounds = divisors(alloc, period)?;
    let mut fits = Vec::new(alloc);
    for trail in instance.cluster().trail..MOST_BUS_TICKS + 1 {
        if fits.len() == MOST_FITS {
            return Ok(fits);
        }
        push_fits(
            &mut fits,
            instance,
            sums.as_slice(),
            rounds.as_slice(),
            trail,
        )?;
    }
    Ok(fits)
}

/// Adds those with this trail to the first ones with lesser trails.
fn push_fits(
    fits: &mut Vec<Fit>,
    instance: &Instance,
    sums: &[bool],
    rounds: &[u64],
    trail: u32,
) -> Result<(), AllocError>
    requires sums { AreSums instance.now (length instance.now.nodes) sums.now }
    requires least { instance.now.cluster.trail ≤ trail }
    requires most { trail ≤ MOST_BUS_TICKS }
    ensures { OnOk result ((period : ℕ) → 0 < period → AreDivisors period (period + 1) rounds.now
        → AreFirst (IsFitBefore instance.now period trail) fits.old.items
        → AreFirst (IsFitBefore instance.now period (trail + 1)) fits.new.items) }
{
    for round in rounds {
        if fits.len() == MOST_FITS {
            return Ok(());
        }
        if can_take(instance, sums, trail, *round) {
            fits.push(Fit {
                trail,
                round: *round,
            })?;
        }
    }
    Ok(())
}

/// Whether with this trail some capacities make a round of so many ticks.
fn can_take(instance: &Instance, sums: &[bool], trail: u32, round: u64) -> bool
    requires sums { AreSums instance.now (length instance.now.nodes) sums.now }
    requires most { trail ≤ MOST_BUS_TICKS }
    ensures { IsTrue result ↔ CanTake instance.now trail round }
{
    let count = instance.nodes().len();
    match bytes_of_round(instance.cluster(), count, trail, round) {
        Some(bytes) => bytes < SUMS as u64 && sums[bytes as usize],
        None => false,
    }
}

/// How many bytes a round of so many ticks has, where it has whole ones.
fn bytes_of_round(c: &Cluster, count: usize, trail: u32, round: u64) -> Option<u64>
    requires ranges { IsClusterInRange c.now }
    requires few { count ≤ MOST_NODES }
    requires most { trail ≤ MOST_BUS_TICKS }
    ensures { MatchOption result ((bytes : ℕ) → round_of_bytes c.now count trail bytes ≢ round)
        (λ bytes. round_of_bytes c.now count trail bytes ≡ round) }
{
    let ticks = round.checked_sub(ticks_without_bytes(c, count, trail))?;
    let per_byte = u64::from(c.per_byte);
    if ticks % per_byte == 0 {
        Some(ticks / per_byte)
    } else {
        None
    }
}

/// How many ticks a round takes beside its bytes.
fn ticks_without_bytes(c: &Cluster, count: usize, trail: u32) -> u64
    requires ranges { IsClusterInRange c.now }
    requires few { count ≤ MOST_NODES }
    requires most { trail ≤ MOST_BUS_TICKS }
    ensures { result ≡ round_of_bytes c.now count trail 0 }
{
    count as u64 * (u64::from(c.lead) + u64::from(c.head) + u64::from(trail))
}
