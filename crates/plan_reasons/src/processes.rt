//! Why do processes not keep their times or their order?

ghost use Rattle.std.specs.Prelude.{◌<◌, length, max, min};
ghost use Rattle.ttp_model.specs.Instance.{link_at, process_at};
ghost use Rattle.ttp_model.specs.Plans.{HasLengths, end_of, start_of};
ghost use Rattle.plan_facts.specs.Ends.{must_end_by};
ghost use Rattle.plan_reasons.specs.Processes.{IsBrokenLink, IsOverlap, IsTooEarly, IsTooLate};

use crate::limits::{Limit, limit_of};
use plan_facts::{late_by, must_end_by};
use sentences::Word::{Number, Text, Ticks};
use sentences::{Member, tell, write_members};
use serde::{Described, Serialize, Serializer};
use std::fmt;
use ttp_model::{Instance, Plan, end_of};

/// A process that starts before its release; in ticks.
#[derive(Clone, Copy)]
pub struct TooEarly<'a> {
    pub process: &'a str,
    pub node: &'a str,
    pub start: u32,
    pub release: u32,
    pub by: u32,
}

/// Why the start of process `p` is refused.
pub fn too_early<'a>(instance: &'a Instance, plan: &Plan, p: usize) -> TooEarly<'a>
    requires lengths { HasLengths instance.now plan.now }
    requires inside { p < length instance.now.processes }
    requires wrong { start_of plan.now p < (process_at instance.now p).release }
    ensures { IsTooEarly instance.now plan.now p result }
{
    let (start, release) = (plan.starts.as_slice()[p], instance.process_at(p).release);
    TooEarly {
        process: instance.process_name(p),
        node: instance.place_name(p),
        start,
        release,
        by: release.saturating_sub(start),
    }
}

impl<'a> Described for TooEarly<'a> {}

impl<'a> Serialize for TooEarly<'a> {
    fn serialize<S: Serializer>(&self, out: &mut S) -> Result<(), S::Error> {
        write_members(
            &[
                ("process", Member::Text(self.process)),
                ("node", Member::Text(self.node)),
                ("start", Member::Number(u64::from(self.start))),
                ("release", Member::Number(u64::from(self.release))),
                ("by", Member::Number(u64::from(self.by))),
            ],
            out,
        )
    }
}

impl<'a> fmt::Display for TooEarly<'a> {
    fn fmt<W: fmt::Write>(&self, f: &mut fmt::Formatter<W>) -> fmt::Result {
        let (process, node) = (self.process, self.node);
        let (start, release, by) = (self.start, self.release, u64::from(self.by));
        tell(
            f,
            "{} on {} starts before its release.\n  it starts at {}, and is released at {}: {} too early\n",
            &[
                Text(process),
                Text(node),
                Number(u64::from(start)),
                Number(u64::from(release)),
                Ticks(by),
            ],
        )
    }
}

/// A process that ends after its deadline or the horizon; in ticks.
#[derive(Clone, Copy)]
pub struct TooLate<'a> {
    pub process: &'a str,
    pub node: &'a str,
    pub start: u32,
    pub wcet: u32,
    pub end: u64,
    pub limit: Limit,
    /// By when it has to end.
    pub latest: u32,
    pub by: u64,
}

/// Why the end of process `p` is refused.
pub fn too_late<'a>(instance: &'a Instance, plan: &Plan, p: usize) -> TooLate<'a>
    requires lengths { HasLengths instance.now plan.now }
    requires inside { p < length instance.now.processes }
    requires wrong { must_end_by instance.now p < end_of instance.now plan.now p }
    ensures { IsTooLate instance.now plan.now p result }
{
    TooLate {
        process: instance.process_name(p),
        node: instance.place_name(p),
        start: plan.starts.as_slice()[p],
        wcet: instance.process_at(p).wcet,
        end: end_of(instance, plan, p),
        limit: limit_of(instance, p),
        latest: must_end_by(instance, p),
        by: late_by(instance, plan, p),
    }
}

impl<'a> Described for TooLate<'a> {}

impl<'a> Serialize for TooLate<'a> {
    fn serialize<S: Serializer>(&self, out: &mut S) -> Result<(), S::Error> {
        write_members(
            &[
                ("process", Member::Text(self.process)),
                ("node", Member::Text(self.node)),
                ("start", Member::Number(u64::from(self.start))),
                ("wcet", Member::Number(u64::from(self.wcet))),
                ("end", Member::Number(self.end)),
                ("limit", Member::Text(self.limit.name())),
                ("latest", Member::Number(u64::from(self.latest))),
                ("by", Member::Number(self.by)),
            ],
            out,
        )
    }
}

impl<'a> fmt::Display for TooLate<'a> {
    fn fmt<W: fmt::Write>(&self, f: &mut fmt::Formatter<W>) -> fmt::Result {
        let (process, node, limit) = (self.process, self.node, self.limit.words());
        let (start, wcet, end) = (self.start, self.wcet, self.end);
        let (latest, by) = (self.latest, self.by);
        tell(
            f,
            "{} on {} ends after {}.\n  it starts at {} and takes {}: it ends at {}\n  {} is {}: {} too late\n",
            &[
                Text(process),
                Text(node),
                Text(limit),
                Number(u64::from(start)),
                Number(u64::from(wcet)),
                Number(end),
                Text(limit),
                Number(u64::from(latest)),
                Ticks(by),
            ],
        )
    }
}

/// Two processes of one node that run together; in ticks.
#[derive(Clone, Copy)]
pub struct Overlap<'a> {
    pub node: &'a str,
    pub process: &'a str,
    pub start: u32,
    pub end: u64,
    pub other: &'a str,
    pub other_start: u32,
    pub other_end: u64,
    /// For how long they run together.
    pub by: u64,
}

/// Why processes `p` and `q` are refused.
pub fn overlap_of<'a>(instance: &'a Instance, plan: &Plan, p: usize, q: usize) -> Overlap<'a>
    requires lengths { HasLengths instance.now plan.now }
    requires first { p < length instance.now.processes }
    requires second { q < length instance.now.processes }
    requires wrong { max (start_of plan.now p) (start_of plan.now q) < min (end_of instance.now plan.now p) (end_of instance.now plan.now q) }
    ensures { IsOverlap instance.now plan.now p q result }
{
    let starts = plan.starts.as_slice();
    let (start, other_start) = (starts[p], starts[q]);
    let (end, other_end) = (end_of(instance, plan, p), end_of(instance, plan, q));
    Overlap {
        node: instance.place_name(p),
        process: instance.process_name(p),
        start,
        end,
        other: instance.process_name(q),
        other_start,
        other_end,
        by: end
            .min(other_end)
            .saturating_sub(u64::from(start.max(other_start))),
    }
}

impl<'a> Described for Overlap<'a> {}

impl<'a> Serialize for Overlap<'a> {
    fn serialize<S: Serializer>(&self, out: &mut S) -> Result<(), S::Error> {
        write_members(
            &[
                ("node", Member::Text(self.node)),
                ("process", Member::Text(self.process)),
                ("start", Member::Number(u64::from(self.start))),
                ("end", Member::Number(self.end)),
                ("other", Member::Text(self.other)),
                ("other_start", Member::Number(u64::from(self.other_start))),
                ("other_end", Member::Number(self.other_end)),
                ("by", Member::Number(self.by)),
            ],
            out,
        )
    }
}

impl<'a> fmt::Display for Overlap<'a> {
    fn fmt<W: fmt::Write>(&self, f: &mut fmt::Formatter<W>) -> fmt::Result {
        let (process, other, node) = (self.process, self.other, self.node);
        let (start, end) = (self.start, self.end);
        let (other_start, other_end, by) = (self.other_start, self.other_end, self.by);
        tell(
            f,
            "{} and {} on {} overlap.\n  {} runs from {} to {}, and {} from {} to {}: {} together\n",
            &[
                Text(process),
                Text(other),
                Text(node),
                Text(process),
                Number(u64::from(start)),
                Number(end),
                Text(other),
                Number(u64::from(other_start)),
                Number(other_end),
                Ticks(by),
            ],
        )
    }
}

/// A link whose second process starts before its first has ended; in ticks.
#[derive(Clone, Copy)]
pub struct BrokenLink<'a> {
    /// The link's index, from 0.
    pub link: u64,
    pub before: &'a str,
    pub end: u64,
    pub after: &'a str,
    pub start: u32,
    /// The node of both.
    pub node: &'a str,
    pub by: u64,
}

/// Why link `l` is refused.
pub fn broken_link<'a>(instance: &'a Instance, plan: &Plan, l: usize) -> BrokenLink<'a>
    requires lengths { HasLengths instance.now plan.now }
    requires inside { l < length instance.now.links }
    requires wrong { start_of plan.now (link_at instance.now l).after < end_of instance.now plan.now (link_at instance.now l).before }
    ensures { IsBrokenLink instance.now plan.now l result }
{
    let link = instance.link_at(l);
    let (p, q) = (link.before as usize, link.after as usize);
    let (end, start) = (end_of(instance, plan, p), plan.starts.as_slice()[q]);
    BrokenLink {
        link: l as u64,
        before: instance.process_name(p),
        end,
        after: instance.process_name(q),
        start,
        node: instance.place_name(q),
        by: end.saturating_sub(u64::from(start)),
    }
}

impl<'a> Described for BrokenLink<'a> {}

impl<'a> Serialize for BrokenLink<'a> {
    fn serialize<S: Serializer>(&self, out: &mut S) -> Result<(), S::Error> {
        write_members(
            &[
                ("link", Member::Number(self.link)),
                ("before", Member::Text(self.before)),
                ("end", Member::Number(self.end)),
                ("after", Member::Text(self.after)),
                ("start", Member::Number(u64::from(self.start))),
                ("node", Member::Text(self.node)),
                ("by", Member::Number(self.by)),
            ],
            out,
        )
    }
}

impl<'a> fmt::Display for BrokenLink<'a> {
    fn fmt<W: fmt::Write>(&self, f: &mut fmt::Formatter<W>) -> fmt::Result {
        let (before, after, node, link) = (self.before, self.after, self.node, self.link);
        let (end, start, by) = (self.end, self.start, self.by);
        tell(
            f,
            "{} on {} waits for {} by link {}.\n  {} ends at {}, and {} starts at {}: {} too early\n",
            &[
                Text(after),
                Text(node),
                Text(before),
                Number(link),
                Text(before),
                Number(end),
                Text(after),
                Number(u64::from(start)),
                Ticks(by),
            ],
        )
    }
}
