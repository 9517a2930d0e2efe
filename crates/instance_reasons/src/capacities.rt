//! Why are the capacities of a node refused?

ghost use Rattle.std.specs.Prelude.{◌-◌, ◌<◌, ◌≤◌, length, slice_index};
ghost use Rattle.ttp_model.specs.Limits.{most_bytes};
ghost use Rattle.ttp_model.specs.Lists.{EachBelow, FindsFailure, IsFirstFailure};
ghost use Rattle.ttp_model.specs.Rules.{HasCapacityList, IsCapacityList};
ghost use Rattle.ttp_model.specs.Parts.{instance_of};
ghost use Rattle.instance_reasons.specs.Capacities.{IsCapacityFault, IsSmallAt, IsWrongCapacities, Rises};

use crate::parts::capacities_of;
use crate::spots::{Spot, spot_at};
use sentences::Word::Number;
use sentences::{Member, tell, write_members, write_members_and};
use serde::{Described, Serialize, Serializer};
use std::fmt;
use ttp_model::{MOST_BYTES, MOST_CAPACITIES, Parts, Place};

/// What is wrong with a list of capacities, in bytes.
#[derive(Clone, Copy)]
pub enum CapacityFault {
    /// When there is none.
    Empty,
    /// When there are more than there may be.
    TooMany {
        entries: u64,
        most: u64,
        by: u64,
    },
    /// When one isn't larger than the one before it, of several the first; by its place from 0.
    Falling {
        index: u64,
        before: u32,
        capacity: u32,
    },
    /// When one is larger than it may be, of several the first; by its place from 0.
    TooLarge {
        index: u64,
        capacity: u32,
        most: u32,
        by: u32,
    },
}

impl Described for CapacityFault {}

impl Serialize for CapacityFault {
    fn serialize<S: Serializer>(&self, out: &mut S) -> Result<(), S::Error> {
        match *self {
            CapacityFault::Empty => write_members(&[("case", Member::Text("empty"))], out),
            CapacityFault::TooMany { entries, most, by } => write_members(
                &[
                    ("case", Member::Text("too_many")),
                    ("entries", Member::Number(entries)),
                    ("most", Member::Number(most)),
                    ("by", Member::Number(by)),
                ],
                out,
            ),
            CapacityFault::Falling {
                index,
                before,
                capacity,
            } => write_members(
                &[
                    ("case", Member::Text("falling")),
                    ("index", Member::Number(index)),
                    ("before", Member::Number(u64::from(before))),
                    ("capacity", Member::Number(u64::from(capacity))),
                ],
                out,
            ),
            CapacityFault::TooLarge {
                index,
                capacity,
                most,
                by,
            } => write_members(
                &[
                    ("case", Member::Text("too_large")),
                    ("index", Member::Number(index)),
                    ("capacity", Member::Number(u64::from(capacity))),
                    ("most", Member::Number(u64::from(most))),
                    ("by", Member::Number(u64::from(by))),
                ],
                out,
            ),
        }
    }
}

/// A node whose capacities are not as they have to be.
#[derive(Clone, Copy)]
pub struct WrongCapacities<'a> {
    pub spot: Spot<'a>,
    pub fault: CapacityFault,
}

/// Why the capacities of node `n` are refused. Two passes over them.
pub fn wrong_capacities(parts: &Parts, n: u32) -> WrongCapacities<'_>
    requires { ¬ HasCapacityList (instance_of parts.now) n }
    ensures { IsWrongCapacities (instance_of parts.now) n result }
{
    WrongCapacities {
        spot: spot_at(parts, Place::AtNode(n)),
        fault: capacity_fault(capacities_of(parts, n)),
    }
}

/// What is wrong with these capacities.
fn capacity_fault(capacities: &[u32]) -> CapacityFault
    requires { ¬ IsCapacityList capacities.now }
    ensures { IsCapacityFault capacities.now result }
{
    let entries = capacities.len();
    if entries == 0 {
        return CapacityFault::Empty;
    }
    if MOST_CAPACITIES < entries {
        return CapacityFault::TooMany {
            entries: entries as u64,
            most: MOST_CAPACITIES as u64,
            by: (entries - MOST_CAPACITIES) as u64,
        };
    }
    match first_fall(capacities) {
        Some(k) => falling(capacities, k),
        None => too_large(capacities, first_large(capacities)),
    }
}

/// That the one at a place isn't larger than the one before it.
fn falling(capacities: &[u32], k: usize) -> CapacityFault
    requires first { IsFirstFailure (length capacities.now) (Rises capacities.now) k }
    requires some { 0 < k }
    requires falls { slice_index capacities.now k ≤ slice_index capacities.now (k - 1) }
    ensures { IsCapacityFault capacities.now result }
{
    CapacityFault::Falling {
        index: k as u64,
        before: capacities[k - 1],
        capacity: capacities[k],
    }
}

/// That the one at a place is too large.
fn too_large(capacities: &[u32], k: usize) -> CapacityFault
    requires first { IsFirstFailure (length capacities.now) (IsSmallAt capacities.now) k }
    requires large { most_bytes < slice_index capacities.now k }
    ensures { IsCapacityFault capacities.now result }
{
    CapacityFault::TooLarge {
        index: k as u64,
        capacity: capacities[k],
        most: MOST_BYTES,
        by: capacities[k] - MOST_BYTES,
    }
}

/// Where the first capacity stands that isn't larger than the one before it.
fn first_fall(capacities: &[u32]) -> Option<usize>
    ensures { FindsFailure (length capacities.now) (Rises capacities.now) result }
{
    for k in 0..capacities.len() {
        if 0 < k && capacities[k] <= capacities[k - 1] {
            return Some(k);
        }
    }
    None
}

/// Where the first stands that is too large.
fn first_large(capacities: &[u32]) -> usize
    requires { ¬ EachBelow (length capacities.now) (IsSmallAt capacities.now) }
    ensures { IsFirstFailure (length capacities.now) (IsSmallAt capacities.now) result }
{
    for k in 0..capacities.len() {
        if MOST_BYTES < capacities[k] {
            return k;
        }
    }
    unreachable!()
}

impl<'a> Described for WrongCapacities<'a> {}

impl<'a> Serialize for WrongCapacities<'a> {
    fn serialize<S: Serializer>(&self, out: &mut S) -> Result<(), S::Error> {
        let members = [("spot", self.spot.member())];
        write_members_and(&members, "fault", &self.fault, out)
    }
}

impl<'a> fmt::Display for WrongCapacities<'a> {
    fn fmt<W: fmt::Write>(&self, f: &mut fmt::Formatter<W>) -> fmt::Result {
        self.spot.tell_within(f)?;
        match self.fault {
            CapacityFault::Empty => f.write_str("there is no capacity.\n"),
            CapacityFault::TooMany { entries, most, by } => tell(
                f,
                "there are {} capacities, and at most {} may be there: {} too many.\n",
                &[Number(entries), Number(most), Number(by)],
            ),
            CapacityFault::Falling {
                before,
                capacity,
                ..
            } => tell(
                f,
                "{} stands behind {}, and each capacity has to be larger than the one before.\n",
                &[Number(u64::from(capacity)), Number(u64::from(before))],
            ),
            CapacityFault::TooLarge {
                capacity,
                most,
                by,
                ..
            } => tell(
                f,
                "the capacity is {}, and at most {} may stand: {} too much.\n",
                &[
                    Number(u64::from(capacity)),
                    Number(u64::from(most)),
                    Number(u64::from(by)),
                ],
            ),
        }
    }
}
