//! Why is a message sent in some round or later, or before one?

ghost use Rattle.std.specs.Prelude.{◌<◌, length};
ghost use Rattle.certificate_reasons.specs.Rounds.{IsArriveRound, IsSendRound};

use sentences::Word::{Number, Text};
use sentences::tell;
use sought_plans::least_ready;
use std::fmt;
use tt_infer::Facts;

/// Why a message is sent in some round or later, or before one; in ticks.
#[derive(Clone, Copy)]
pub enum RoundReason<'a> {
    /// It is copied out at this tick or later.
    Send {
        message: &'a str,
        ready: u64,
        node: &'a str,
    },
    /// Its receiver ends at this tick or earlier.
    Arrive {
        receiver: &'a str,
        wcet: u32,
        end: u32,
        message: &'a str,
        copy_in: u32,
    },
}

/// Message `m` is copied out so late.
pub fn send_round<'a>(facts: &Facts<'a>, m: u32) -> RoundReason<'a>
    requires { m < length facts.now.instance.messages }
    ensures { IsSendRound facts.now.instance facts.now.known m result }
{
    let instance = facts.instance();
    RoundReason::Send {
        message: instance.message_name(m as usize),
        ready: least_ready(facts.known(), facts.instance(), m),
        node: instance.source_name(m as usize),
    }
}

/// Receiver `q` of message `m` has to end so early.
pub fn arrive_round<'a>(facts: &Facts<'a>, m: u32, q: u32) -> RoundReason<'a>
    requires message { m < length facts.now.instance.messages }
    requires process { q < length facts.now.instance.processes }
    ensures { IsArriveRound facts.now.instance facts.now.known m q result }
{
    let instance = facts.instance();
    RoundReason::Arrive {
        receiver: instance.process_name(q as usize),
        wcet: instance.process_at(q as usize).wcet,
        end: facts.le(q),
        message: instance.message_name(m as usize),
        copy_in: instance.cluster().copy_in,
    }
}

impl<'a> fmt::Display for RoundReason<'a> {
    fn fmt<W: fmt::Write>(&self, f: &mut fmt::Formatter<W>) -> fmt::Result {
        match *self {
            RoundReason::Send {
                message,
                ready,
                node,
            } => {
                tell(
                    f,
                    "{} is copied out at {} or later and earlier slots of {} begin before that",
                    &[Text(message), Number(ready), Text(node)],
                )
            }
            RoundReason::Arrive {
                receiver,
                wcet,
                end,
                message,
                copy_in,
            } => {
                tell(
                    f,
                    "{} takes {} and ends at {} or earlier, and copying {} in takes {}",
                    &[
                        Text(receiver),
                        Number(u64::from(wcet)),
                        Number(u64::from(end)),
                        Text(message),
                        Number(u64::from(copy_in)),
                    ],
                )
            }
        }
    }
}
