//! Why does a process end at some tick or earlier?

ghost use Rattle.std.specs.Prelude.{◌<◌, length};
ghost use Rattle.certificate_reasons.specs.Ends.{IsBeforeEnd, IsLinkEnd, IsMessageEnd, IsOwnEnd, IsSendEnd};

use crate::slots::start_most;
use crate::starts::{UnderWay, under_way};
use sentences::Word::{Number, Text};
use sentences::tell;
use sought_plans::most_start;
use std::fmt;
use std::fmt::Display;
use tt_infer::Facts;

/// Why a process ends at some tick or earlier; in ticks.
#[derive(Clone, Copy)]
pub enum LatestEnd<'a> {
    /// It is due, and the delays of the plans that are sought are below the goal.
    Own {
        process: &'a str,
        deadline: u32,
        horizon: u32,
        goal: u32,
    },
    /// Another one, which starts at this tick or earlier, waits for it by a link.
    Link {
        after: &'a str,
        start: u32,
        before: &'a str,
        link: u32,
    },
    /// It is known to run before another one, which starts at this tick or earlier.
    Before {
        after: &'a str,
        start: u32,
        before: &'a str,
    },
    /// A receiver of its message starts at this tick or earlier.
    Message {
        receiver: &'a str,
        start: u32,
        transfer: UnderWay<'a>,
    },
    /// Its message is sent in this round or earlier, whose slot begins at this tick or earlier.
    Send {
        message: &'a str,
        round: u32,
        node: &'a str,
        start: u64,
        copy_out: u32,
    },
}

/// Process `p` is due, and no plan is sought that takes longer.
pub fn own_end<'a>(facts: &Facts<'a>, p: u32) -> LatestEnd<'a>
    requires { p < length facts.now.instance.processes }
    ensures { IsOwnEnd facts.now.instance facts.now.goal p result }
{
    let instance = facts.instance();
    LatestEnd::Own {
        process: instance.process_name(p as usize),
        deadline: instance.process_at(p as usize).deadline,
        horizon: instance.cluster().horizon,
        goal: facts.goal(),
    }
}

/// The second process of link `l` waits for the first.
pub fn link_end<'a>(facts: &Facts<'a>, l: u32) -> LatestEnd<'a>
    requires { l < length facts.now.instance.links }
    ensures { IsLinkEnd facts.now.instance facts.now.known l result }
{
    let instance = facts.instance();
    let link = instance.link_at(l as usize);
    LatestEnd::Link {
        after: instance.process_name(link.after as usize),
        start: most_start(facts.known(), facts.instance(), link.after),
        before: instance.process_name(link.before as usize),
        link: l,
    }
}

/// Process `p` is known to run before `q`.
pub fn before_end<'a>(facts: &Facts<'a>, p: u32, q: u32) -> LatestEnd<'a>
    requires first { p < length facts.now.instance.processes }
    requires second { q < length facts.now.instance.processes }
    ensures { IsBeforeEnd facts.now.instance facts.now.known p q result }
{
    let instance = facts.instance();
    LatestEnd::Before {
        after: instance.process_name(q as usize),
        start: most_start(facts.known(), facts.instance(), q),
        before: instance.process_name(p as usize),
    }
}

/// Receiver `q` of message `m` doesn't start behind some tick.
pub fn message_end<'a>(facts: &Facts<'a>, m: u32, q: u32) -> LatestEnd<'a>
    requires message { m < length facts.now.instance.messages }
    requires process { q < length facts.now.instance.processes }
    ensures { IsMessageEnd facts.now.instance facts.now.choice facts.now.known m q result }
{
    LatestEnd::Message {
        receiver: facts.instance().process_name(q as usize),
        start: most_start(facts.known(), facts.instance(), q),
        transfer: under_way(facts, m),
    }
}

/// Message `m` has no round later than some.
pub fn send_end<'a>(facts: &Facts<'a>, m: u32) -> LatestEnd<'a>
    requires { m < length facts.now.instance.messages }
    ensures { IsSendEnd facts.now.instance facts.now.choice facts.now.known m result }
{
    let instance = facts.instance();
    let round = facts.top(m).saturating_sub(1);
    LatestEnd::Send {
        message: instance.message_name(m as usize),
        round,
        node: instance.source_name(m as usize),
        start: start_most(facts, instance.source_of(m as usize), round),
        copy_out: instance.cluster().copy_out,
    }
}

impl<'a> fmt::Display for LatestEnd<'a> {
    fn fmt<W: fmt::Write>(&self, f: &mut fmt::Formatter<W>) -> fmt::Result {
        match *self {
            LatestEnd::Own {
                process,
                deadline,
                horizon,
                goal,
            } => {
                tell(
                    f,
                    "{} is due by {}, the horizon is {} and the delay is to be below {}",
                    &[
                        Text(process),
                        Number(u64::from(deadline)),
                        Number(u64::from(horizon)),
                        Number(u64::from(goal)),
                    ],
                )
            }
            LatestEnd::Link {
                after,
                start,
                before,
                link,
            } => {
                tell(
                    f,
                    "{} starts at {} or earlier and waits for {} by link {}",
                    &[
                        Text(after),
                        Number(u64::from(start)),
                        Text(before),
                        Number(u64::from(link)),
                    ],
                )
            }
            LatestEnd::Before {
                after,
                start,
                before,
            } => tell(
                f,
                "{} starts at {} or earlier and {} runs before it",
                &[Text(after), Number(u64::from(start)), Text(before)],
            ),
            LatestEnd::Message {
                receiver,
                start,
                transfer,
            } => {
                tell(
                    f,
                    "{} starts at {} or earlier and ",
                    &[Text(receiver), Number(u64::from(start))],
                )?;
                transfer.fmt(f)
            }
            LatestEnd::Send {
                message,
                round,
                node,
                start,
                copy_out,
            } => {
                tell(
                    f,
                    "{} is sent in round {} or earlier, where the slot of {} begins at {} or earlier, and copying out takes {}",
                    &[
                        Text(message),
                        Number(u64::from(round)),
                        Text(node),
                        Number(start),
                        Number(u64::from(copy_out)),
                    ],
                )
            }
        }
    }
}
