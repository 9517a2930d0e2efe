//! Why does a plan break a rule?

ghost use Rattle.std.specs.Prelude.{IfOk};
ghost use Rattle.ttp_model.specs.Faults.{IsFirstFault};
ghost use Rattle.plan_reasons.specs.Reasons.{IsReasonOf};

use crate::frames::{Overfull, overfull_frame};
use crate::lists::{
    WrongCapacity, WrongLength, WrongPosition, wrong_capacity, wrong_length, wrong_position,
};
use crate::messages::{NotArrived, NotReady, WrongChannel, not_arrived, not_ready, wrong_channel};
use crate::processes::{
    BrokenLink, Overlap, TooEarly, TooLate, broken_link, overlap_of, too_early, too_late,
};
use sentences::write_kind;
use serde::{Described, Serialize, Serializer};
use std::alloc::Global;
use std::fmt;
use std::fmt::Display;
use ttp_model::{Instance, MemoryFault, Plan, PlanFault};

/// What two things the rule compares that a plan breaks, both numbers with their names, and by how much the plan fails it.
#[derive(Drop)]
pub enum PlanReason<'a> {
    WrongLength(WrongLength),
    WrongPosition(WrongPosition<'a>),
    WrongCapacity(WrongCapacity<'a>),
    TooEarly(TooEarly<'a>),
    TooLate(TooLate<'a>),
    Overlap(Overlap<'a>),
    BrokenLink(BrokenLink<'a>),
    NotReady(NotReady<'a>),
    NotArrived(NotArrived<'a>),
    Overfull(Overfull<'a>),
    WrongChannel(WrongChannel<'a>),
}

/// Why the first fault of a plan is one. Takes memory for the messages of a frame.
pub fn reason_of<'a>(
    alloc: Global,
    instance: &'a Instance,
    plan: &Plan,
    fault: PlanFault,
) -> Result<PlanReason<'a>, MemoryFault>
    requires { IsFirstFault instance.now plan.now fault }
    ensures { IfOk result (IsReasonOf instance.now plan.now fault) }
{
    let _nodes = instance.nodes();
    Ok(match fault {
        PlanFault::WrongLength(list) => {
            PlanReason::WrongLength(wrong_length(instance, plan, list))
        }
        PlanFault::WrongOrder(k) => {
            PlanReason::WrongPosition(wrong_position(instance, plan, k as usize))
        }
        PlanFault::WrongCapacity(n) => {
            PlanReason::WrongCapacity(wrong_capacity(instance, plan, n as usize))
        }
        PlanFault::TooEarly(p) => PlanReason::TooEarly(too_early(instance, plan, p as usize)),
        PlanFault::TooLate(p) => PlanReason::TooLate(too_late(instance, plan, p as usize)),
        PlanFault::Overlap(p, q) => {
            PlanReason::Overlap(overlap_of(instance, plan, p as usize, q as usize))
        }
        PlanFault::BrokenLink(l) => {
            PlanReason::BrokenLink(broken_link(instance, plan, l as usize))
        }
        PlanFault::NotReady(m) => PlanReason::NotReady(not_ready(instance, plan, m as usize)),
        PlanFault::NotArrived(m, q) => {
            PlanReason::NotArrived(not_arrived(instance, plan, m as usize, q as usize))
        }
        PlanFault::Overfull(n, r) => {
            PlanReason::Overfull(overfull_frame(alloc, instance, plan, n, r, None)?)
        }
        PlanFault::OverfullOn(n, r, c) => {
            PlanReason::Overfull(overfull_frame(alloc, instance, plan, n, r, Some(c))?)
        }
        PlanFault::WrongChannel(m) => {
            PlanReason::WrongChannel(wrong_channel(instance, plan, m as usize))
        }
    })
}

impl<'a> Described for PlanReason<'a> {}

impl<'a> Serialize for PlanReason<'a> {
    fn serialize<S: Serializer>(&self, out: &mut S) -> Result<(), S::Error> {
        match self {
            PlanReason::WrongLength(reason) => write_kind("wrong_length", reason, out),
            PlanReason::WrongPosition(reason) => write_kind("wrong_position", reason, out),
            PlanReason::WrongCapacity(reason) => write_kind("wrong_capacity", reason, out),
            PlanReason::TooEarly(reason) => write_kind("too_early", reason, out),
            PlanReason::TooLate(reason) => write_kind("too_late", reason, out),
            PlanReason::Overlap(reason) => write_kind("overlap", reason, out),
            PlanReason::BrokenLink(reason) => write_kind("broken_link", reason, out),
            PlanReason::NotReady(reason) => write_kind("not_ready", reason, out),
            PlanReason::NotArrived(reason) => write_kind("not_arrived", reason, out),
            PlanReason::Overfull(reason) => write_kind("overfull", reason, out),
            PlanReason::WrongChannel(reason) => write_kind("wrong_channel", reason, out),
        }
    }
}

impl<'a> fmt::Display for PlanReason<'a> {
    fn fmt<W: fmt::Write>(&self, f: &mut fmt::Formatter<W>) -> fmt::Result {
        match self {
            PlanReason::WrongLength(reason) => reason.fmt(f),
            PlanReason::WrongPosition(reason) => reason.fmt(f),
            PlanReason::WrongCapacity(reason) => reason.fmt(f),
            PlanReason::TooEarly(reason) => reason.fmt(f),
            PlanReason::TooLate(reason) => reason.fmt(f),
            PlanReason::Overlap(reason) => reason.fmt(f),
            PlanReason::BrokenLink(reason) => reason.fmt(f),
            PlanReason::NotReady(reason) => reason.fmt(f),
            PlanReason::NotArrived(reason) => reason.fmt(f),
            PlanReason::Overfull(reason) => reason.fmt(f),
            PlanReason::WrongChannel(reason) => reason.fmt(f),
        }
    }
}
