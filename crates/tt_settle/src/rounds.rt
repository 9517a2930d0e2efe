//! A message is sent in the earliest round in which it can be, where nothing else changes.

ghost use Rattle.std.specs.Prelude.{◌<◌, length};
ghost use Rattle.ttp_model.specs.Rules.{IsInstance};
ghost use Rattle.ttp_model.specs.Plans.{IsValid};
ghost use Rattle.tt_settle.specs.Settling.{IsTried, RestsInRound};

use crate::changes::send_in;
use plan_facts::first_room;
use ttp_model::{Instance, Plan};

/// Sends message `m` in the earliest round that it can be sent in, and tells whether that is earlier
/// than before.
pub fn send_one(instance: &Instance, plan: Plan, m: usize) -> (Plan, bool)
    requires instance { IsInstance instance.now }
    requires valid { IsValid instance.now plan }
    requires inside { m < length instance.now.messages }
    ensures { IsTried instance.now plan (λ q. RestsInRound instance.now q m) result.0 result.1 }
{
    let round = first_room(instance, &plan, m);
    if round < plan.rounds.as_slice()[m] {
        (send_in(plan, m, round), true)
    } else {
        (plan, false)
    }
}
