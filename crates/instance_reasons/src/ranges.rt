//! Which number is outside its range, and by how much?

ghost use Rattle.std.specs.Prelude.{◌≡◌, ◌<◌};
ghost use Rattle.ttp_model.specs.Rules.{IsInRange};
ghost use Rattle.ttp_model.specs.Parts.{instance_of};
ghost use Rattle.instance_reasons.specs.Ranges.{IsOut, IsOutsideRange, Misses, cluster_outside, first_of, outside, outside_at, process_outside};

use crate::parts::{Times, bytes_of, times_of};
use crate::spots::{Spot, spot_at};
use instance_text::Key;
use sentences::Word::{Number, Text};
use sentences::{Member, tell, write_members};
use serde::{Described, Serialize, Serializer};
use std::fmt;
use ttp_model::{
    Cluster, MOST_BUS_TICKS, MOST_BYTES, MOST_CHANNELS, MOST_HEAD, MOST_PER_BYTE, MOST_TICKS,
    Parts, Place,
};

/// A number that is outside its range.
#[derive(Clone, Copy)]
pub struct Outside {
    /// What a text calls it.
    pub key: Key,
    pub value: u32,
    pub least: u32,
    pub most: u32,
}

/// A place where a number is outside its range, of several the first that a text states.
#[derive(Clone, Copy)]
pub struct OutsideRange<'a> {
    pub spot: Spot<'a>,
    pub number: Outside,
    pub by: u32,
}

/// Why a number at a place is refused.
pub fn outside_range(parts: &Parts, place: Place) -> OutsideRange<'_>
    requires { ¬ IsInRange (instance_of parts.now) place }
    ensures { IsOutsideRange (instance_of parts.now) place result }
{
    let number = outside_at(parts, place).unwrap();
    let by = missed(number);
    OutsideRange {
        spot: spot_at(parts, place),
        number,
        by,
    }
}

/// By how much a number is outside its range.
#[tactic(auto, using(crate::proofs::Missing::below, crate::proofs::Missing::past))]
fn missed(number: Outside) -> u32
    requires { IsOut number }
    ensures { (0 < result) × Misses number result }
{
    if number.value < number.least {
        number.least - number.value
    } else {
        number.value.saturating_sub(number.most)
    }
}

/// A number with its range, where it is outside of it.
fn judged(key: Key, value: u32, least: u32, most: u32) -> Option<Outside>
    ensures { result ≡ outside key value least most }
{
    if least <= value && value <= most {
        None
    } else {
        Some(Outside {
            key,
            value,
            least,
            most,
        })
    }
}

/// The first of two.
fn first_of(first: Option<Outside>, second: Option<Outside>) -> Option<Outside>
    ensures { result ≡ first_of first second }
{
    match first {
        Some(found) => Some(found),
        None => second,
    }
}

/// The first number of the cluster that is outside its range.
fn cluster_outside(cluster: &Cluster) -> Option<Outside>
    ensures { result ≡ cluster_outside cluster.now }
{
    let channels = judged(Key::Channels, cluster.channels, 1, MOST_CHANNELS);
    let horizon = judged(Key::Horizon, cluster.horizon, 1, MOST_TICKS);
    let copy_in = judged(Key::CopyIn, cluster.copy_in, 0, MOST_BUS_TICKS);
    let copy_out = judged(Key::CopyOut, cluster.copy_out, 0, MOST_BUS_TICKS);
    let per_byte = judged(Key::PerByte, cluster.per_byte, 1, MOST_PER_BYTE);
    let head = judged(Key::Head, cluster.head, 1, MOST_HEAD);
    let trail = judged(Key::Trail, cluster.trail, 0, MOST_BUS_TICKS);
    let lead = judged(Key::Lead, cluster.lead, 0, MOST_BUS_TICKS);
    let precision = judged(Key::Precision, cluster.precision, 0, MOST_BUS_TICKS);
    let times = first_of(copy_out, first_of(copy_in, first_of(horizon, channels)));
    let frame = first_of(trail, first_of(head, first_of(per_byte, times)));
    first_of(precision, first_of(lead, frame))
}

/// The first one of a process.
fn process_outside(times: Times) -> Option<Outside>
    ensures { result ≡ process_outside times.wcet times.release times.deadline }
{
    let deadline = judged(Key::Deadline, times.deadline, 1, MOST_TICKS);
    let release = judged(Key::Release, times.release, 0, MOST_TICKS);
    let wcet = judged(Key::Wcet, times.wcet, 1, MOST_TICKS);
    first_of(wcet, first_of(release, deadline))
}

/// The first one at a place.
fn outside_at(parts: &Parts, place: Place) -> Option<Outside>
    ensures { result ≡ outside_at (instance_of parts.now) place }
{
    match place {
        Place::AtCluster => cluster_outside(&parts.cluster),
        Place::AtProcess(p) => process_outside(times_of(parts, p)),
        Place::AtMessage(m) => judged(Key::Bytes, bytes_of(parts, m), 1, MOST_BYTES),
        Place::AtNode(_) => None,
        Place::AtLink(_) => None,
    }
}

impl<'a> Described for OutsideRange<'a> {}

impl<'a> Serialize for OutsideRange<'a> {
    fn serialize<S: Serializer>(&self, out: &mut S) -> Result<(), S::Error> {
        let Outside {
            key,
            value,
            least,
            most,
        } = self.number;
        write_members(
            &[
                ("spot", self.spot.member()),
                ("key", Member::Text(key.text())),
                ("value", Member::Number(u64::from(value))),
                ("least", Member::Number(u64::from(least))),
                ("most", Member::Number(u64::from(most))),
                ("by", Member::Number(u64::from(self.by))),
            ],
            out,
        )
    }
}

impl<'a> fmt::Display for OutsideRange<'a> {
    fn fmt<W: fmt::Write>(&self, f: &mut fmt::Formatter<W>) -> fmt::Result {
        let (spot, by) = (self.spot, self.by);
        let Outside {
            key,
            value,
            least,
            most,
        } = self.number;
        let side = if value < least { "little" } else { "much" };
        spot.tell_within(f)?;
        tell(
            f,
            "{} is {}, and from {} to {} may stand: {} too {}.\n",
            &[
                Text(key.text()),
                Number(u64::from(value)),
                Number(u64::from(least)),
                Number(u64::from(most)),
                Number(u64::from(by)),
                Text(side),
            ],
        )
    }
}
