//! Why does a process start at some tick or later?

ghost use Rattle.std.specs.Prelude.{◌<◌, length};
ghost use Rattle.certificate_reasons.specs.Starts.{IsArrivalStart, IsBehindStart, IsLinkStart, IsMessageStart, IsRelease, IsUnderWay};

use crate::slots::{dur_least, end_least};
use sentences::Word::{Number, Text};
use sentences::tell;
use sought_plans::least_end;
use std::fmt;
use std::fmt::Display;
use tt_infer::Facts;

/// How long a message is under way at least; in ticks.
#[derive(Clone, Copy)]
pub struct UnderWay<'a> {
    pub message: &'a str,
    pub copy_out: u32,
    /// The least duration of its node's slot.
    pub duration: u64,
    pub copy_in: u32,
}

/// Why a process starts at some tick or later; in ticks.
#[derive(Clone, Copy)]
pub enum EarliestStart<'a> {
    /// It is released then.
    Release {
        process: &'a str,
        release: u32,
    },
    /// It waits by a link for another one, which ends at this tick or later.
    Link {
        before: &'a str,
        end: u64,
        after: &'a str,
        link: u32,
    },
    /// It is known to run behind another one, which ends at this tick or later.
    Behind {
        before: &'a str,
        end: u64,
        after: &'a str,
    },
    /// It receives a message that is sent in this round or later, whose slot ends at this tick or later.
    Arrival {
        message: &'a str,
        round: u32,
        node: &'a str,
        end: u64,
        copy_in: u32,
    },
    /// It receives a message whose sender ends at this tick or later.
    Message {
        sender: &'a str,
        end: u64,
        transfer: UnderWay<'a>,
    },
}

/// Process `p` is released.
pub fn release<'a>(facts: &Facts<'a>, p: u32) -> EarliestStart<'a>
    requires { p < length facts.now.instance.processes }
    ensures { IsRelease facts.now.instance p result }
{
    let instance = facts.instance();
    EarliestStart::Release {
        process: instance.process_name(p as usize),
        release: instance.process_at(p as usize).release,
    }
}

/// The second process of link `l` waits for the first.
pub fn link_start<'a>(facts: &Facts<'a>, l: u32) -> EarliestStart<'a>
    requires { l < length facts.now.instance.links }
    ensures { IsLinkStart facts.now.instance facts.now.known l result }
{
    let instance = facts.instance();
    let link = instance.link_at(l as usize);
    EarliestStart::Link {
        before: instance.process_name(link.before as usize),
        end: least_end(facts.known(), facts.instance(), link.before),
        after: instance.process_name(link.after as usize),
        link: l,
    }
}

/// Process `q` is known to run behind `p`.
pub fn behind_start<'a>(facts: &Facts<'a>, p: u32, q: u32) -> EarliestStart<'a>
    requires first { p < length facts.now.instance.processes }
    requires second { q < length facts.now.instance.processes }
    ensures { IsBehindStart facts.now.instance facts.now.known p q result }
{
    let instance = facts.instance();
    EarliestStart::Behind {
        before: instance.process_name(p as usize),
        end: least_end(facts.known(), facts.instance(), p),
        after: instance.process_name(q as usize),
    }
}

/// Message `m` isn't sent before some round.
pub fn arrival_start<'a>(facts: &Facts<'a>, m: u32) -> EarliestStart<'a>
    requires { m < length facts.now.instance.messages }
    ensures { IsArrivalStart facts.now.instance facts.now.choice facts.now.known m result }
{
    let instance = facts.instance();
    let round = facts.lo(m);
    EarliestStart::Arrival {
        message: instance.message_name(m as usize),
        round,
        node: instance.source_name(m as usize),
        end: end_least(facts, instance.source_of(m as usize), round),
        copy_in: instance.cluster().copy_in,
    }
}

/// How long message `m` is under way at least.
pub fn under_way<'a>(facts: &Facts<'a>, m: u32) -> UnderWay<'a>
    requires { m < length facts.now.instance.messages }
    ensures { IsUnderWay facts.now.instance facts.now.choice m result }
{
    let instance = facts.instance();
    UnderWay {
        message: instance.message_name(m as usize),
        copy_out: instance.cluster().copy_out,
        duration: dur_least(facts, instance.source_of(m as usize)),
        copy_in: instance.cluster().copy_in,
    }
}

/// The sender of message `m` doesn't end before some tick.
pub fn message_start<'a>(facts: &Facts<'a>, m: u32) -> EarliestStart<'a>
    requires { m < length facts.now.instance.messages }
    ensures { IsMessageStart facts.now.instance facts.now.choice facts.now.known m result }
{
    let instance = facts.instance();
    EarliestStart::Message {
        sender: instance.sender_name(m as usize),
        end: least_end(
            facts.known(),
            facts.instance(),
            instance.message_at(m as usize).sender,
        ),
        transfer: under_way(facts, m),
    }
}

impl<'a> fmt::Display for UnderWay<'a> {
    fn fmt<W: fmt::Write>(&self, f: &mut fmt::Formatter<W>) -> fmt::Result {
        let (message, copy_out) = (self.message, self.copy_out);
        let (duration, copy_in) = (self.duration, self.copy_in);
        tell(
            f,
            "{} takes {} to copy out, {} or more on the bus and {} to copy in",
            &[
                Text(message),
                Number(u64::from(copy_out)),
                Number(duration),
                Number(u64::from(copy_in)),
            ],
        )
    }
}

impl<'a> fmt::Display for EarliestStart<'a> {
    fn fmt<W: fmt::Write>(&self, f: &mut fmt::Formatter<W>) -> fmt::Result {
        match *self {
            EarliestStart::Release { process, release } => {
                tell(
                    f,
                    "{} is released at {}",
                    &[Text(process), Number(u64::from(release))],
                )
            }
            EarliestStart::Link {
                before,
                end,
                after,
                link,
            } => {
                tell(
                    f,
                    "{} ends at {} or later and {} waits for it by link {}",
                    &[
                        Text(before),
                        Number(end),
                        Text(after),
                        Number(u64::from(link)),
                    ],
                )
            }
            EarliestStart::Behind { before, end, after } => {
                tell(
                    f,
                    "{} ends at {} or later and runs before {}",
                    &[Text(before), Number(end), Text(after)],
                )
            }
            EarliestStart::Arrival {
                message,
                round,
                node,
                end,
                copy_in,
            } => {
                tell(
                    f,
                    "{} is sent in round {} or later, where the slot of {} ends at {} or later, and copying in takes {}",
                    &[
                        Text(message),
                        Number(u64::from(round)),
                        Text(node),
                        Number(end),
                        Number(u64::from(copy_in)),
                    ],
                )
            }
            EarliestStart::Message {
                sender,
                end,
                transfer,
            } => {
                tell(
                    f,
                    "{} ends at {} or later and ",
                    &[Text(sender), Number(end)],
                )?;
                transfer.fmt(f)
            }
        }
    }
}
