//! Why does an instance break a rule of the model?

ghost use Rattle.std.specs.Prelude.{◌≡◌, ◌≢◌, IfOk};
ghost use Rattle.ttp_model.specs.Refusals.{IsRefusal};
ghost use Rattle.ttp_model.specs.declared.error.ModelError.TheVariants as model;
ghost use Rattle.ttp_model.specs.Parts.{instance_of};
ghost use Rattle.instance_reasons.specs.Rules.{IsNoSuchIndex, IsRuleReason};

use crate::capacities::{WrongCapacities, wrong_capacities};
use crate::circles::{Circle, circle_of};
use crate::counts::{NoReceiver, WrongCount, no_receiver, wrong_count};
use crate::joins::{
    BothOfOne, ReceiverThere, ReceiverTwice, WrongLink, both_of_one, receiver_there,
    receiver_twice, wrong_link,
};
use crate::malformed::{MalformedName, malformed_name};
use crate::ranges::{OutsideRange, outside_range};
use crate::shared::{SharedName, shared_name};
use crate::spots::{Spot, spot_at};
use crate::times::{NoTime, ShortLead, ShortTrail, no_time, short_lead, short_trail};
use sentences::{write_kind, write_members};
use serde::{Described, Serialize, Serializer};
use std::alloc::{AllocError, Global};
use std::fmt;
use std::fmt::Display;
use ttp_model::{ModelError, Parts, Place};

/// What names an index that isn't there, as no text can.
#[derive(Clone, Copy)]
pub struct NoSuchIndex<'a> {
    pub spot: Spot<'a>,
}

/// Why a place is refused that names an index.
fn no_such_index(parts: &Parts, place: Place) -> NoSuchIndex<'_>
    ensures { IsNoSuchIndex (instance_of parts.now) place result }
{
    NoSuchIndex {
        spot: spot_at(parts, place),
    }
}

impl<'a> Described for NoSuchIndex<'a> {}

impl<'a> Serialize for NoSuchIndex<'a> {
    fn serialize<S: Serializer>(&self, out: &mut S) -> Result<(), S::Error> {
        write_members(&[("spot", self.spot.member())], out)
    }
}

impl<'a> fmt::Display for NoSuchIndex<'a> {
    fn fmt<W: fmt::Write>(&self, f: &mut fmt::Formatter<W>) -> fmt::Result {
        self.spot.tell_within(f)?;
        f.write_str("what it names isn't there.\n")
    }
}

/// What two things the rule compares that an instance breaks, with their names, and by how much it fails it.
#[derive(Drop)]
pub enum RuleReason<'a> {
    WrongCount(WrongCount),
    NoReceiver(NoReceiver<'a>),
    MalformedName(MalformedName<'a>),
    SharedName(SharedName<'a>),
    NoSuchIndex(NoSuchIndex<'a>),
    OutsideRange(OutsideRange<'a>),
    WrongCapacities(WrongCapacities<'a>),
    ReceiverThere(ReceiverThere<'a>),
    ShortLead(ShortLead),
    ShortTrail(ShortTrail),
    NoTime(NoTime<'a>),
    WrongLink(WrongLink<'a>),
    ReceiverTwice(ReceiverTwice<'a>),
    Circle(Circle<'a>),
    BothOfOne(BothOfOne<'a>),
}

/// Why parts are refused that break this rule first. Takes memory for a name that may stand, and for a circle.
pub fn rule_reason<'a>(
    alloc: Global,
    parts: &'a Parts,
    error: &ModelError,
) -> Result<RuleReason<'a>, AllocError>
    requires refusal { IsRefusal (instance_of parts.now) error.now }
    requires other { error.now ≢ model.OutOfMemory }
    ensures { IfOk result (IsRuleReason (instance_of parts.now) error.now) }
{
    Ok(match error {
        ModelError::Length(list) => RuleReason::WrongCount(wrong_count(parts, *list)),
        ModelError::NoReceiver(m) => RuleReason::NoReceiver(no_receiver(parts, *m)),
        ModelError::NameForm(at) => RuleReason::MalformedName(malformed_name(alloc, parts, *at)?),
        ModelError::NameRepeated(at) => RuleReason::SharedName(shared_name(parts, *at)),
        ModelError::NoSuchIndex(at) => RuleReason::NoSuchIndex(no_such_index(parts, *at)),
        ModelError::OutOfRange(at) => RuleReason::OutsideRange(outside_range(parts, *at)),
        ModelError::Capacities(n) => RuleReason::WrongCapacities(wrong_capacities(parts, *n)),
        ModelError::ReceiverOnSender(m) => RuleReason::ReceiverThere(receiver_there(parts, *m)),
        ModelError::ShortLead => RuleReason::ShortLead(short_lead(parts)),
        ModelError::ShortTrail => RuleReason::ShortTrail(short_trail(parts)),
        ModelError::Deadline(p) => RuleReason::NoTime(no_time(parts, *p)),
        ModelError::LinkAcross(l) => RuleReason::WrongLink(wrong_link(parts, *l)),
        ModelError::ReceiverTwice(m) => RuleReason::ReceiverTwice(receiver_twice(parts, *m)),
        ModelError::Cycle(processes) => {
            RuleReason::Circle(circle_of(alloc, parts, processes.as_slice())?)
        }
        ModelError::BothOfOne(m) => RuleReason::BothOfOne(both_of_one(parts, *m)),
        ModelError::OutOfMemory => unreachable!(),
    })
}

impl<'a> Described for RuleReason<'a> {}

impl<'a> Serialize for RuleReason<'a> {
    fn serialize<S: Serializer>(&self, out: &mut S) -> Result<(), S::Error> {
        match self {
            RuleReason::WrongCount(reason) => write_kind("wrong_count", reason, out),
            RuleReason::NoReceiver(reason) => write_kind("no_receiver", reason, out),
            RuleReason::MalformedName(reason) => write_kind("malformed_name", reason, out),
            RuleReason::SharedName(reason) => write_kind("shared_name", reason, out),
            RuleReason::NoSuchIndex(reason) => write_kind("no_such_index", reason, out),
            RuleReason::OutsideRange(reason) => write_kind("outside_range", reason, out),
            RuleReason::WrongCapacities(reason) => write_kind("wrong_capacities", reason, out),
            RuleReason::ReceiverThere(reason) => write_kind("receiver_there", reason, out),
            RuleReason::ShortLead(reason) => write_kind("short_lead", reason, out),
            RuleReason::ShortTrail(reason) => write_kind("short_trail", reason, out),
            RuleReason::NoTime(reason) => write_kind("no_time", reason, out),
            RuleReason::WrongLink(reason) => write_kind("wrong_link", reason, out),
            RuleReason::ReceiverTwice(reason) => write_kind("receiver_twice", reason, out),
            RuleReason::Circle(reason) => write_kind("circle", reason, out),
            RuleReason::BothOfOne(reason) => write_kind("both_of_one", reason, out),
        }
    }
}

impl<'a> fmt::Display for RuleReason<'a> {
    fn fmt<W: fmt::Write>(&self, f: &mut fmt::Formatter<W>) -> fmt::Result {
        match self {
            RuleReason::WrongCount(reason) => reason.fmt(f),
            RuleReason::NoReceiver(reason) => reason.fmt(f),
            RuleReason::MalformedName(reason) => reason.fmt(f),
            RuleReason::SharedName(reason) => reason.fmt(f),
            RuleReason::NoSuchIndex(reason) => reason.fmt(f),
            RuleReason::OutsideRange(reason) => reason.fmt(f),
            RuleReason::WrongCapacities(reason) => reason.fmt(f),
            RuleReason::ReceiverThere(reason) => reason.fmt(f),
            RuleReason::ShortLead(reason) => reason.fmt(f),
            RuleReason::ShortTrail(reason) => reason.fmt(f),
            RuleReason::NoTime(reason) => reason.fmt(f),
            RuleReason::WrongLink(reason) => reason.fmt(f),
            RuleReason::ReceiverTwice(reason) => reason.fmt(f),
            RuleReason::Circle(reason) => reason.fmt(f),
            RuleReason::BothOfOne(reason) => reason.fmt(f),
        }
    }
}
