//! With which least age has each job of a chain's last process room by itself, and which hasn't with less?

ghost use Rattle.std.specs.Prelude.{◌≡◌, ◌<◌, ◌≤◌, length};
ghost use Rattle.std.specs.Bool.{Decides};
ghost use Rattle.ttp_model.specs.Lists.{EachBelow, IsFirstFailure};
ghost use Rattle.ttp_model.specs.Rules.{CanEndInTime};
ghost use Rattle.rates_model.specs.Rates.{chain_at};
ghost use Rattle.rates_model.specs.Cycles.{jobs_of};
ghost use Rattle.rates_model.specs.Ages.{last_of};
ghost use Rattle.endless_schedules.specs.Aging.{IsAging, aged, window_age, window_of};

use crate::aging::{Aging, aged_deadline, last_jobs};
use crate::carrying::carried_release;

/// How old what job `k` of the last process carries is where it starts at its release.
fn window_of(aging: &Aging<'_>, k: u32) -> u64
    requires aging { IsAging aging.now }
    requires there { k < jobs_of aging.now.rates.now (last_of (chain_at aging.now.rates.now aging.now.chain)) }
    ensures { result ≡ window_of aging.now.rates.now (chain_at aging.now.rates.now aging.now.chain) k }
{
    let chain = aging.rates.chain_at(aging.chain);
    let through = chain.through.as_slice();
    let last = through[through.len() - 1] as usize;
    let process = aging.rates.process_at(last);
    let end = aging.rates.begin_of(last, k) + process.release + process.wcet;
    let back = 2 * through.len() as u64 * u64::from(aging.rates.cycle());
    (back + u64::from(end)).saturating_sub(carried_release(
        aging.rates,
        chain,
        aging.waits.as_slice(),
        k,
    ))
}

/// The least age with which each of these jobs has room.
fn greatest_window(aging: &Aging<'_>) -> u64
    requires { IsAging aging.now }
    ensures { result ≡ window_age aging.now.rates.now aging.now.chain }
{
    let mut greatest: u64 = 0;
    for k in 0..last_jobs(aging) {
        greatest = greatest.max(window_of(aging, k));
    }
    greatest
}

/// The same, which is at most the chain's bound.
pub fn window_age(aging: &Aging<'_>) -> u32
    requires { IsAging aging.now }
    ensures value { result ≡ window_age aging.now.rates.now aging.now.chain }
    ensures within { result ≤ (chain_at aging.now.rates.now aging.now.chain).age }
{
    let _nodes = aging.base.nodes();
    let _chains = aging.rates.chains();
    greatest_window(aging) as u32
}

/// Whether a process of the instance with an age can end in time if it starts at its release.
fn has_room(aging: &Aging<'_>, age: u32, p: usize) -> bool
    requires aging { IsAging aging.now }
    requires less { age ≤ (chain_at aging.now.rates.now aging.now.chain).age }
    requires inside { p < length aging.now.base.now.processes }
    ensures { Decides result (CanEndInTime (aged aging.now.rates.now aging.now.chain age) p) }
{
    let _nodes = aging.base.nodes();
    let process = aging.base.process_at(p);
    process.release + process.wcet <= aged_deadline(aging, age, p)
}

/// The index of the first process of that instance that can't.
pub fn first_without_room(aging: &Aging<'_>, age: u32) -> usize
    requires aging { IsAging aging.now }
    requires less { age ≤ (chain_at aging.now.rates.now aging.now.chain).age }
    requires lacks { ¬ EachBelow (length aging.now.base.now.processes) (CanEndInTime (aged aging.now.rates.now aging.now.chain age)) }
    ensures { IsFirstFailure (length aging.now.base.now.processes) (CanEndInTime (aged aging.now.rates.now aging.now.chain age)) result }
{
    for p in 0..aging.base.processes().len() {
        if !has_room(aging, age, p) {
            return p;
        }
    }
    unreachable!()
}
