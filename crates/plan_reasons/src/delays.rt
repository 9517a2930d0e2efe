//! Why is the delay refused that a plan states?

ghost use Rattle.std.specs.Prelude.{◌≢◌};
ghost use Rattle.ttp_model.specs.Delays.{delay};
ghost use Rattle.ttp_model.specs.Plans.{HasLengths};
ghost use Rattle.plan_reasons.specs.Delays.{IsOtherDelay};

use crate::differences::{Difference, difference_of};
use crate::plan_links::last_to_end;
use sentences::Word::{Number, Text, Ticks};
use sentences::{Member, tell, write_members};
use serde::{Described, Serialize, Serializer};
use std::fmt;
use ttp_model::{Instance, Plan, delay};

/// A stated delay that isn't the plan's own; in ticks.
#[derive(Clone, Copy)]
pub struct OtherDelay<'a> {
    pub stated: u32,
    pub own: u64,
    /// The first of the processes that end last.
    pub process: &'a str,
    pub node: &'a str,
    pub by: Difference,
}

/// Why this delay is refused.
pub fn other_delay<'a>(instance: &'a Instance, plan: &Plan, stated: u32) -> OtherDelay<'a>
    requires lengths { HasLengths instance.now plan.now }
    requires other { stated ≢ delay instance.now plan.now }
    ensures { IsOtherDelay instance.now plan.now stated result }
{
    let last = last_to_end(instance, plan) as usize;
    let own = delay(instance, plan);
    OtherDelay {
        stated,
        own,
        process: instance.process_name(last),
        node: instance.place_name(last),
        by: difference_of(u64::from(stated), own),
    }
}

impl<'a> Described for OtherDelay<'a> {}

impl<'a> Serialize for OtherDelay<'a> {
    fn serialize<S: Serializer>(&self, out: &mut S) -> Result<(), S::Error> {
        write_members(
            &[
                ("stated", Member::Number(u64::from(self.stated))),
                ("own", Member::Number(self.own)),
                ("process", Member::Text(self.process)),
                ("node", Member::Text(self.node)),
                ("by", self.by.member()),
            ],
            out,
        )
    }
}

impl<'a> fmt::Display for OtherDelay<'a> {
    fn fmt<W: fmt::Write>(&self, f: &mut fmt::Formatter<W>) -> fmt::Result {
        let (stated, own) = (self.stated, self.own);
        let (process, node) = (self.process, self.node);
        let (by, side) = (self.by.by(), self.by.side());
        tell(
            f,
            "The plan says that its delay is {}.\n  it is {}, as {} on {} ends then: {} {}\n",
            &[
                Number(u64::from(stated)),
                Number(own),
                Text(process),
                Text(node),
                Ticks(by),
                Text(side),
            ],
        )
    }
}
