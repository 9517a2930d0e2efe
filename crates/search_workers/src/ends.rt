//! What does the end of a search say?

ghost use Rattle.std.specs.Prelude.{◌≡◌, ◌≤◌};
ghost use Rattle.ttp_model.specs.Instance.{Instance};
ghost use Rattle.search_workers.specs.Searching.{limit_of};
ghost use Rattle.search_workers.specs.Ends.{IsAnswerOf, IsCauseTold};

use crate::found::FoundPlan;
use crate::outcome::{Outcome, Why};
use certificate::Cert;

/// Why a search stopped that ended for this reason with a bound and a plan: where the plan takes at most so many ticks more than the bound as the gap
/// allows, that is why.
pub fn cause(why: Why, best: &Option<FoundPlan>, low: u32, gap: u32) -> Why
    ensures { IsCauseTold why gap low best.now result }
{
    match best {
        Some(found) => {
            if found.delay <= low as u64 + gap as u64 {
                Why::Gap
            } else {
                why
            }
        }
        None => why,
    }
}

/// What a bound says, where the best plan has a delay of `limit` ticks.
pub fn answer(why: Why, best: Option<FoundPlan>, limit: u32, low: u32, cert: Cert) -> Outcome
    ensures { (i : Instance) → limit ≡ limit_of i best → low ≤ limit
        → IsAnswerOf i why best low cert result }
{
    if low < limit {
        return Outcome::Stopped {
            why,
            low,
            best,
            cert,
        };
    }
    match best {
        Some(FoundPlan { plan, delay }) => Outcome::Optimal { plan, delay, cert },
        None => Outcome::Infeasible { cert },
    }
}
