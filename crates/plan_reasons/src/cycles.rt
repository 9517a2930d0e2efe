//! How long is the cycle of a plan?

ghost use Rattle.ttp_model.specs.Plans.{IsValid};
ghost use Rattle.plan_reasons.specs.Cycles.{IsCycle};

use sentences::Word::Number;
use sentences::{Member, tell, write_members};
use serde::{Described, Serialize, Serializer};
use std::fmt;
use tt_layout::{Layout, cycle_rounds};
use ttp_model::{Instance, Plan};

/// The cycle of a plan; in ticks.
#[derive(Clone, Copy)]
pub struct Cycle {
    /// How long a round is.
    pub round: u64,
    /// How many there are.
    pub rounds: u32,
    /// When the next cycle may begin.
    pub next: u64,
}

/// The cycle of a valid plan. One pass over its processes.
pub fn cycle_of(instance: &Instance, plan: &Plan) -> Cycle
    requires { IsValid instance.now plan.now }
    ensures { IsCycle instance.now plan.now result }
{
    let layout = Layout::of(instance, plan.order.as_slice(), plan.caps.as_slice());
    let (round, rounds) = (layout.round_length(), cycle_rounds(instance, plan));
    Cycle {
        round,
        rounds,
        next: u64::from(rounds) * round,
    }
}

impl Described for Cycle {}

impl Serialize for Cycle {
    fn serialize<S: Serializer>(&self, out: &mut S) -> Result<(), S::Error> {
        write_members(
            &[
                ("round", Member::Number(self.round)),
                ("rounds", Member::Number(u64::from(self.rounds))),
                ("next", Member::Number(self.next)),
            ],
            out,
        )
    }
}

impl fmt::Display for Cycle {
    fn fmt<W: fmt::Write>(&self, f: &mut fmt::Formatter<W>) -> fmt::Result {
        let (round, rounds, next) = (self.round, self.rounds, self.next);
        tell(
            f,
            "A round takes {}, and the cycle has {} of them: the next one may begin at {}.\n",
            &[Number(round), Number(u64::from(rounds)), Number(next)],
        )
    }
}
