//! By how many ticks is a time too short?

ghost use Rattle.ttp_model.specs.Rules.{CanEndInTime, HasLead, HasTrail};
ghost use Rattle.ttp_model.specs.Parts.{instance_of};
ghost use Rattle.instance_reasons.specs.Times.{IsNoTime, IsShortLead, IsShortTrail};

use crate::parts::{process_name, times_of};
use sentences::Word::{Count, Number, Ticks, Told};
use sentences::{Counted, Member, tell, write_members};
use serde::{Described, Serialize, Serializer};
use std::fmt;
use ttp_model::Parts;

/// So many ticks, of which it is said that they are lacking.
fn lacking(ticks: u64) -> Counted {
    Counted {
        number: ticks,
        one: "tick is lacking",
        many: "ticks are lacking",
    }
}

/// A lead that is below twice the precision; in ticks.
#[derive(Clone, Copy)]
pub struct ShortLead {
    pub lead: u32,
    pub precision: u32,
    pub twice: u64,
    pub by: u64,
}

/// Why the lead is refused.
pub fn short_lead(parts: &Parts) -> ShortLead
    requires { ¬ HasLead (instance_of parts.now) }
    ensures { IsShortLead (instance_of parts.now) result }
{
    let (lead, precision) = (parts.cluster.lead, parts.cluster.precision);
    let twice = 2 * u64::from(precision);
    ShortLead {
        lead,
        precision,
        twice,
        by: twice.saturating_sub(u64::from(lead)),
    }
}

impl Described for ShortLead {}

impl Serialize for ShortLead {
    fn serialize<S: Serializer>(&self, out: &mut S) -> Result<(), S::Error> {
        write_members(
            &[
                ("lead", Member::Number(u64::from(self.lead))),
                ("precision", Member::Number(u64::from(self.precision))),
                ("twice", Member::Number(self.twice)),
                ("by", Member::Number(self.by)),
            ],
            out,
        )
    }
}

impl fmt::Display for ShortLead {
    fn fmt<W: fmt::Write>(&self, f: &mut fmt::Formatter<W>) -> fmt::Result {
        let (lead, twice, by) = (self.lead, self.twice, lacking(self.by));
        tell(
            f,
            "The lead is {}, and twice the precision is {}: {}.\n",
            &[Number(u64::from(lead)), Number(twice), Count(by)],
        )
    }
}

/// A trail that is below the precision; in ticks.
#[derive(Clone, Copy)]
pub struct ShortTrail {
    pub trail: u32,
    pub precision: u32,
    pub by: u32,
}

/// Why the trail is refused.
pub fn short_trail(parts: &Parts) -> ShortTrail
    requires { ¬ HasTrail (instance_of parts.now) }
    ensures { IsShortTrail (instance_of parts.now) result }
{
    let (trail, precision) = (parts.cluster.trail, parts.cluster.precision);
    ShortTrail {
        trail,
        precision,
        by: precision.saturating_sub(trail),
    }
}

impl Described for ShortTrail {}

impl Serialize for ShortTrail {
    fn serialize<S: Serializer>(&self, out: &mut S) -> Result<(), S::Error> {
        write_members(
            &[
                ("trail", Member::Number(u64::from(self.trail))),
                ("precision", Member::Number(u64::from(self.precision))),
                ("by", Member::Number(u64::from(self.by))),
            ],
            out,
        )
    }
}

impl fmt::Display for ShortTrail {
    fn fmt<W: fmt::Write>(&self, f: &mut fmt::Formatter<W>) -> fmt::Result {
        let (trail, precision, by) = (self.trail, self.precision, lacking(u64::from(self.by)));
        tell(
            f,
            "The trail is {}, and the precision is {}: {}.\n",
            &[
                Number(u64::from(trail)),
                Number(u64::from(precision)),
                Count(by),
            ],
        )
    }
}

/// A process that ends after its deadline even where it starts at its release; in ticks.
#[derive(Clone, Copy)]
pub struct NoTime<'a> {
    pub process: &'a str,
    pub release: u32,
    pub wcet: u32,
    /// When it ends at the earliest.
    pub end: u64,
    pub deadline: u32,
    pub by: u64,
}

/// Why the deadline of process `p` is refused.
pub fn no_time(parts: &Parts, p: u32) -> NoTime<'_>
    requires { ¬ CanEndInTime (instance_of parts.now) p }
    ensures { IsNoTime (instance_of parts.now) p result }
{
    let times = times_of(parts, p);
    let end = u64::from(times.release) + u64::from(times.wcet);
    NoTime {
        process: process_name(parts, p),
        release: times.release,
        wcet: times.wcet,
        end,
        deadline: times.deadline,
        by: end.saturating_sub(u64::from(times.deadline)),
    }
}

impl<'a> Described for NoTime<'a> {}

impl<'a> Serialize for NoTime<'a> {
    fn serialize<S: Serializer>(&self, out: &mut S) -> Result<(), S::Error> {
        write_members(
            &[
                ("process", Member::Told(self.process)),
                ("release", Member::Number(u64::from(self.release))),
                ("wcet", Member::Number(u64::from(self.wcet))),
                ("end", Member::Number(self.end)),
                ("deadline", Member::Number(u64::from(self.deadline))),
                ("by", Member::Number(self.by)),
            ],
            out,
        )
    }
}

impl<'a> fmt::Display for NoTime<'a> {
    fn fmt<W: fmt::Write>(&self, f: &mut fmt::Formatter<W>) -> fmt::Result {
        let (release, wcet, end) = (self.release, Ticks(u64::from(self.wcet)), self.end);
        let (deadline, by) = (self.deadline, lacking(self.by));
        tell(
            f,
            "Process {} is released at {} and takes {}, so it ends at {} at the earliest.\nIts deadline is {}: {}.\n",
            &[
                Told(self.process),
                Number(u64::from(release)),
                wcet,
                Number(end),
                Number(u64::from(deadline)),
                Count(by),
            ],
        )
    }
}
