//! How is a settled plan reached?

ghost use Rattle.std.specs.Prelude.{◌≤◌, MatchResult, IsOk};
ghost use Rattle.ttp_model.specs.Plans.{IsValid};
ghost use Rattle.ttp_model.specs.Delays.{delay};
ghost use Rattle.ttp_model.specs.Moves.{IsSettled, MovesLead};
ghost use Rattle.tt_settle.specs.Settling.{IsTried, RestsWhole};

use crate::{passes, swaps, turns};
use std::alloc::Global;
use ttp_model::{Instance, MemoryFault, Plan};

/// A settled plan, to which the moves lead from a valid one, with no larger delay.
///
/// It goes through the five kinds of moves in turn, until none is left. A process goes at once to
/// the end of what it waits for, and a message to the first round that has room for it, however
/// many ticks lie between. The plan is changed in place: no memory is taken, so the error never
/// comes.
pub fn settle(_alloc: Global, instance: &Instance, plan: Plan) -> Result<Plan, (Plan, MemoryFault)>
    requires { IsValid instance.now plan }
    ensures settled { MatchResult result
        (λ settled. IsSettled instance.now settled)
        (λ kept. IsValid instance.now kept.0) }
    ensures leads { MatchResult result
        (λ settled. MovesLead instance.now plan settled)
        (λ kept. MovesLead instance.now plan kept.0) }
    ensures delay { MatchResult result
        (λ settled. delay instance.now settled ≤ delay instance.now plan)
        (λ kept. delay instance.now kept.0 ≤ delay instance.now plan) }
    ensures no_memory { IsOk result }
{
    Ok(settle_in_place(instance, plan))
}

/// A settled plan, by rounds of moves: mostly one, after all has gone earlier.
fn settle_in_place(instance: &Instance, plan: Plan) -> Plan
    requires { IsValid instance.now plan }
    ensures settled { IsSettled instance.now result }
    ensures leads { MovesLead instance.now plan result }
    ensures delay { delay instance.now result ≤ delay instance.now plan }
{
    let (mut plan, _) = passes::go_earlier(instance, plan);
    loop {
        let (next, moved) = try_moves(instance, plan);
        plan = next;
        if !moved {
            return plan;
        }
    }
}

/// The plan after moves of each kind in turn, and whether there were any.
fn try_moves(instance: &Instance, plan: Plan) -> (Plan, bool)
    requires { IsValid instance.now plan }
    ensures { IsTried instance.now plan (RestsWhole instance.now) result.0 result.1 }
{
    let (plan, ordered) = swaps::order_twins(instance, plan);
    let (plan, exchanged) = swaps::order_silent_twins(instance, plan);
    let (plan, turned) = turns::turn_frames(instance, plan);
    let (plan, earlier) = passes::go_earlier(instance, plan);
    (plan, ordered | exchanged | turned | earlier)
}
