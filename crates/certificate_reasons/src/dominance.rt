//! What is said by the steps that leave out what a move makes better?

ghost use Rattle.std.specs.Prelude.{◌↔◌, ◌<◌, IsTrue, length};
ghost use Rattle.tt_infer.specs.Table.{IsDominance};
ghost use Rattle.certificate_reasons.specs.Dominance.{IsLate, IsMirror, IsSettled, IsSilent};

use crate::slots::start_least;
use sentences::Word::{Number, Text};
use sentences::tell;
use sought_plans::ready_by;
use std::fmt;
use tt_infer::Facts;
use ttp_model::Step;

/// What a move would make better; in ticks.
#[derive(Clone, Copy)]
pub enum DominanceReason<'a> {
    /// A process would start a tick earlier.
    Settled {
        process: &'a str,
        wcet: u32,
    },
    /// A message would be sent in an earlier round, whose slot begins at this tick or later.
    Late {
        message: &'a str,
        round: u32,
        node: &'a str,
        start: u64,
        ready: u64,
    },
    /// Silent twins would exchange their slots.
    Silent {
        node: &'a str,
        other: &'a str,
    },
    /// The channels of a slot would be exchanged.
    Mirror {
        message: &'a str,
    },
}

/// Whether a step is true of settled plans alone.
pub fn is_dominance(step: &Step) -> bool
    ensures { IsTrue result ↔ IsDominance step.now }
{
    match step {
        Step::EsRelease(_)
        | Step::EsLink(_)
        | Step::EsBefore(_, _)
        | Step::EsArrive(_, _)
        | Step::EsMessage(_, _)
        | Step::LoSend(_)
        | Step::LeOwn(_)
        | Step::LeLink(_)
        | Step::LeBefore(_, _)
        | Step::LeMessage(_, _)
        | Step::LeSend(_)
        | Step::HiArrive(_, _)
        | Step::OrdWindow(_, _)
        | Step::XWindow(_)
        | Step::XRound(_)
        | Step::XCycle(_)
        | Step::XLoad(..)
        | Step::XFrame(_)
        | Step::XFrames(..)
        | Step::XChannel(..) => false,
        Step::OrdTwin(_, _)
        | Step::UsSettled(_)
        | Step::XLate(_, _)
        | Step::XSilent(_, _)
        | Step::XMirror(_) => true,
    }
}

/// Process `p` would start a tick earlier.
pub fn settled<'a>(facts: &Facts<'a>, p: u32) -> DominanceReason<'a>
    requires { p < length facts.now.instance.processes }
    ensures { IsSettled facts.now.instance p result }
{
    let instance = facts.instance();
    DominanceReason::Settled {
        process: instance.process_name(p as usize),
        wcet: instance.process_at(p as usize).wcet,
    }
}

/// Message `m` would be sent in round `r`.
pub fn late<'a>(facts: &Facts<'a>, m: u32, r: u32) -> DominanceReason<'a>
    requires { m < length facts.now.instance.messages }
    ensures { IsLate facts.now.instance facts.now.choice facts.now.known m r result }
{
    let instance = facts.instance();
    DominanceReason::Late {
        message: instance.message_name(m as usize),
        round: r,
        node: instance.source_name(m as usize),
        start: start_least(facts, instance.source_of(m as usize), r),
        ready: ready_by(facts.known(), facts.instance(), m),
    }
}

/// Silent twins `u` and `v` would exchange their slots.
pub fn silent<'a>(facts: &Facts<'a>, u: u32, v: u32) -> DominanceReason<'a>
    ensures { IsSilent facts.now.instance u v result }
{
    let instance = facts.instance();
    DominanceReason::Silent {
        node: instance.node_name(u as usize),
        other: instance.node_name(v as usize),
    }
}

/// The channels of the slot of message `m` would be exchanged.
pub fn mirror<'a>(facts: &Facts<'a>, m: u32) -> DominanceReason<'a>
    ensures { IsMirror facts.now.instance m result }
{
    DominanceReason::Mirror {
        message: facts.instance().message_name(m as usize),
    }
}

impl<'a> fmt::Display for DominanceReason<'a> {
    fn fmt<W: fmt::Write>(&self, f: &mut fmt::Formatter<W>) -> fmt::Result {
        match *self {
            DominanceReason::Settled { process, wcet } => {
                tell(
                    f,
                    "{} takes {} and starts at once when all is over that it may wait for",
                    &[Text(process), Number(u64::from(wcet))],
                )
            }
            DominanceReason::Late {
                message,
                round,
                node,
                start,
                ready,
            } => {
                tell(
                    f,
                    "{} is sent behind round {}, whose slot of {} has room for it and begins at {} or later, when it is copied out by {}",
                    &[
                        Text(message),
                        Number(u64::from(round)),
                        Text(node),
                        Number(start),
                        Number(ready),
                    ],
                )
            }
            DominanceReason::Silent { node, other } => {
                tell(
                    f,
                    "{} and {} send nothing and may be exchanged, and {} has the earlier slot",
                    &[Text(node), Text(other), Text(other)],
                )
            }
            DominanceReason::Mirror { message } => {
                tell(
                    f,
                    "{} is the first of its slot on one channel alone, which is channel 1, and the channels may be exchanged",
                    &[Text(message)],
                )
            }
        }
    }
}
