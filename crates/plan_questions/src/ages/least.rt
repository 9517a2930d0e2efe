//! What is the least age that a chain can have, and which plan has it?

ghost use Rattle.std.specs.Prelude.{IfOk};
ghost use Rattle.plan_questions.specs.Cuts.{IsExact};
ghost use Rattle.endless_schedules.specs.Aging.{IsAging};
ghost use Rattle.plan_questions.specs.AgeHalving.{IsAsked, age_cutting};
ghost use Rattle.plan_questions.specs.LeastAges.{IsAnswer};

use crate::ages::age_cut::AgeCut;
use crate::ages::answer::LeastAge;
use crate::asking::Asking;
use crate::cuts::{LeastNumber, least_number};
use certificate::Cert;
use endless_schedules::{Aging, ages_take_ticks, first_without_room, window_age};
use planner::{Gate, Options, SolveFault};
use std::marker::Sync;
use std::sync::Wait;
use std::thread::Threads;
use ttp_model::Plan;

/// What is told of an age that is the least, with this plan and what shows that there is none with one less, where a search had to tell.
fn exactly(
    cut: &AgeCut<'_>,
    options: Options,
    age: u32,
    plan: Plan,
    below: Option<Cert>,
) -> LeastAge
    requires aging { IsAging cut.now.aging.now }
    requires asked { IsAsked cut.now.aging.now.rates.now cut.now.aging.now.chain cut.now.low cut.now.most }
    requires exact { IsExact (age_cutting cut.now.aging.now.rates.now cut.now.aging.now.chain cut.now.low cut.now.most) options age plan below }
    ensures { IsAnswer cut.now.aging.now.rates.now cut.now.aging.now.chain options result }
{
    if age <= cut.low {
        let job = first_without_room(cut.aging, age - 1);
        return LeastAge::Window { age, job, plan };
    }
    match below {
        Some(cert) => LeastAge::Least { age, plan, cert },
        None => unreachable!(),
    }
}

/// What is answered where an instance is cut by the age of a chain.
fn least_of<R: Threads + Wait + Sync, G: Gate + Sync>(
    rt: &R,
    asking: &Asking<'_, G>,
    cut: &AgeCut<'_>,
) -> Result<LeastAge, SolveFault>
    requires aging { IsAging cut.now.aging.now }
    requires asked { IsAsked cut.now.aging.now.rates.now cut.now.aging.now.chain cut.now.low cut.now.most }
    ensures { IfOk result (IsAnswer cut.now.aging.now.rates.now cut.now.aging.now.chain asking.now.options) }
{
    let least = least_number(rt, asking, cut)?;
    match least {
        LeastNumber::Exact {
            number: age,
            plan,
            below,
        } => Ok(exactly(cut, asking.options, age, plan, below)),
        LeastNumber::Apart {
            low,
            high,
            plan,
            ..
        } => Ok(LeastAge::Between { low, high, plan }),
        LeastNumber::Open { .. } => Ok(LeastAge::Unknown { low: cut.low }),
        LeastNumber::Never { .. } => Ok(LeastAge::Never),
    }
}

/// The least age that a chain can have in any valid plan of the instance of one cycle, told for ever, and a plan that has it. Searches
/// first for any plan: what the chain has there is an age that it can have, and with less than its windows leave none is valid. Then the
/// search half way between tells whether it can have less, and so on. Each search ends at its first plan, and has the whole budget; where
/// one is stopped before that, less is answered.
pub fn least_age<R: Threads + Wait + Sync, G: Gate + Sync>(
    rt: &R,
    asking: &Asking<'_, G>,
    aging: &Aging<'_>,
) -> Result<LeastAge, SolveFault>
    requires { IsAging aging.now }
    ensures { IfOk result (IsAnswer aging.now.rates.now aging.now.chain asking.now.options) }
{
    let _nodes = aging.base.nodes();
    let _chains = aging.rates.chains();
    ages_take_ticks();
    let low = window_age(aging);
    let most = aging.rates.chain_at(aging.chain).age;
    let cut = AgeCut { aging, low, most };
    least_of(rt, asking, &cut)
}
