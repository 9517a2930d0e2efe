//! How do the rounds of a plan lie in a period?

ghost use Rattle.std.specs.Prelude.{◌≡◌, ◌<◌, ◌≤◌, IfOk};
ghost use Rattle.ttp_model.specs.declared.limits.TheConstants.{MOST_TICKS};
ghost use Rattle.ttp_model.specs.Plans.{IsValid};
ghost use Rattle.tt_layout.specs.Cycle.{cycle_rounds};
ghost use Rattle.plan_cycles.specs.Cycles.{whole_rounds};
ghost use Rattle.plan_cycles.specs.Repetition.{IsDividing, IsNear, IsRepetition};

use crate::divisors::{nearest_above, nearest_below};
use crate::fits::{Fit, fits_of};
use std::alloc::Global;
use tt_layout::Layout;
use ttp_model::{Instance, MemoryFault, Plan};

/// The rounds nearest to one that divide a period, in ticks.
#[derive(Clone, Copy, PartialEq, Eq)]
pub struct Near {
    /// The longest that takes no more ticks.
    pub below: u64,
    /// The shortest that takes no fewer.
    pub above: u64,
}

/// Which rounds would divide a period.
#[derive(Drop)]
pub struct Dividing {
    pub near: Near,
    /// The first trails and rounds that fit, by rising trail and then by rising round.
    pub fits: Vec<Fit>,
}

/// How the rounds of a plan lie in a period; all but `rounds` in ticks.
#[derive(Drop)]
pub struct Repetition {
    pub period: u64,
    pub round: u64,
    /// How many whole rounds there are.
    pub rounds: u64,
    /// What is left behind them.
    pub gap: u64,
    /// Which rounds would leave nothing, where this one leaves something.
    pub dividing: Option<Dividing>,
}

/// How many whole rounds of a valid plan a period holds.
pub fn held_rounds(instance: &Instance, plan: &Plan, period: u64) -> u64
    requires { IsValid instance.now plan.now }
    ensures { result ≡ whole_rounds period instance.now plan.now }
{
    let layout = Layout::of(instance, plan.order.as_slice(), plan.caps.as_slice());
    period / layout.round_length()
}

/// How the rounds of a valid plan lie in a period that holds those of its cycle. A step for each tick of the period, and for each
/// trail one for each round that divides it.
pub fn repetition_of(
    alloc: Global,
    instance: &Instance,
    plan: &Plan,
    period: u64,
) -> Result<Repetition, MemoryFault>
    requires valid { IsValid instance.now plan.now }
    requires held { cycle_rounds instance.now plan.now ≤ whole_rounds period instance.now plan.now }
    requires few { period ≤ MOST_TICKS }
    ensures { IfOk result (IsRepetition instance.now plan.now period) }
{
    let _nodes = instance.nodes();
    let layout = Layout::of(instance, plan.order.as_slice(), plan.caps.as_slice());
    let round = layout.round_length();
    let dividing = dividing_of(alloc, instance, period, round)?;
    Ok(Repetition {
        period,
        round,
        rounds: period / round,
        gap: period % round,
        dividing,
    })
}

/// Which rounds would divide a period, where this one doesn't.
fn dividing_of(
    alloc: Global,
    instance: &Instance,
    period: u64,
    round: u64,
) -> Result<Option<Dividing>, MemoryFault>
    requires some { 0 < round }
    requires within { round ≤ period }
    requires few { period ≤ MOST_TICKS }
    ensures { IfOk result (IsDividing instance.now period round) }
{
    if period % round == 0 {
        return Ok(None);
    }
    let fits = fits_of(alloc, instance, period)?;
    let near = near_of(period, round);
    Ok(Some(Dividing { near, fits }))
}

/// The rounds nearest to this one that divide a period. A step for each tick of it.
pub fn near_of(period: u64, round: u64) -> Near
    requires some { 0 < round }
    requires within { round ≤ period }
    ensures { IsNear period round result }
{
    Near {
        below: nearest_below(period, round),
        above: nearest_above(period, round),
    }
}
