//! Why is a message sent in its round?

ghost use Rattle.std.specs.Prelude.{◌<◌, length};
ghost use Rattle.ttp_model.specs.Plans.{IsValid};
ghost use Rattle.plan_reasons.specs.PlanCauses.{IsRoundCause};

use crate::plan_links::RoundCause;
use plan_facts::{first_in_time, first_room};
use tt_layout::Layout;
use ttp_model::{Instance, Plan};

/// What holds message `m` back, in its round.
#[tactic(auto, using(crate::proofs::Rooms::own_is_first, crate::proofs::Rooms::none_sooner))]
pub fn round_cause(instance: &Instance, plan: &Plan, m: usize) -> RoundCause
    requires valid { IsValid instance.now plan.now }
    requires inside { m < length instance.now.messages }
    ensures { IsRoundCause instance.now plan.now m result }
{
    let layout = Layout::of(instance, plan.order.as_slice(), plan.caps.as_slice());
    let round = plan.rounds.as_slice()[m];
    let first = first_in_time(instance, plan, &layout, m);
    if first >= u64::from(round) {
        return RoundCause::First;
    }
    let earliest = first_room(instance, plan, m);
    if earliest < round {
        RoundCause::CouldGo(earliest)
    } else {
        RoundCause::Full(first as u32)
    }
}
