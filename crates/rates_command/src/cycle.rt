//! How do the rounds of a cluster lie in its cycle, and how large is the instance of one?

ghost use Rattle.std.specs.Prelude.{◌≡◌, ◌<◌, ◌≤◌};
ghost use Rattle.ttp_model.specs.declared.limits.TheConstants.{MOST_TICKS};
ghost use Rattle.rates_model.specs.Cycles.{cycle, round_of};
ghost use Rattle.endless_schedules.specs.Unrolled.{unrolled};
ghost use Rattle.rates_command.specs.Cycles.{AreNearest, IsCycleOf};

use plan_cycles::{Near, near_of};
use rates_model::Rates;
use ttp_model::Instance;

/// What is told of a cluster without a plan; all but the counts in ticks.
#[derive(Clone, Copy, PartialEq, Eq)]
pub struct RatesCycle {
    /// How many ticks are one of the text's.
    pub finer: u32,
    pub period: u32,
    pub round: u32,
    /// How many whole rounds there are.
    pub rounds: u32,
    /// What is left behind them.
    pub gap: u32,
    /// The rounds that would leave nothing, where this one leaves something.
    pub near: Option<Near>,
    /// How many processes the instance of one cycle has.
    pub processes: usize,
    pub links: usize,
    pub messages: usize,
}

/// The rounds nearest to this one that divide a cycle, where it doesn't.
fn nearest(period: u32, round: u32) -> Option<Near>
    requires some { 0 < round }
    requires within { round ≤ period }
    ensures { AreNearest period round result }
{
    if period % round == 0 {
        None
    } else {
        Some(near_of(u64::from(period), u64::from(round)))
    }
}

/// A round of the cluster, which takes some ticks where the instance of its cycle keeps all rules.
#[tactic(auto, using(crate::proofs::CycleParts::some_round))]
fn round_of(rates: &Rates, instance: &Instance) -> u32
    requires { instance.now ≡ unrolled rates.now }
    ensures value { result ≡ round_of rates.now }
    ensures some { 0 < result }
    ensures within { result ≤ cycle rates.now }
{
    let _nodes = instance.nodes();
    rates.round()
}

/// What is told of a cluster, with the instance of its cycle.
#[tactic(auto, using(crate::proofs::CycleParts::processes_counted, crate::proofs::CycleParts::links_counted, crate::proofs::CycleParts::messages_counted))]
pub fn cycle_of(rates: &Rates, instance: &Instance) -> RatesCycle
    requires { instance.now ≡ unrolled rates.now }
    ensures { IsCycleOf rates.now result }
{
    let period = rates.cycle();
    let round = round_of(rates, instance);
    RatesCycle {
        finer: rates.cluster().finer,
        period,
        round,
        rounds: period / round,
        gap: period % round,
        near: nearest(period, round),
        processes: instance.processes().len(),
        links: instance.links().len(),
        messages: instance.messages().len(),
    }
}
