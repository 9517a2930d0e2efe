//! Which move isn't known to make a plan better?

ghost use Rattle.std.specs.Prelude.{◌<◌, length};
ghost use Rattle.sought_plans.specs.Dominance.{CouldBeEarlier, IsMirrored, StandTurned};
ghost use Rattle.certificate_reasons.specs.MoveLacks.{IsNotEarlier, IsNotMirrored, IsNotTurned};

use crate::slots::{cap_least, start_least};
use sentences::Word::{Bytes, Number, Text, Ticks};
use sentences::tell;
use sought_plans::{bytes_in_frame, ready_by};
use std::fmt;
use tt_infer::Facts;

/// What keeps a move from being known to make a plan better; in ticks, bytes and rounds.
#[derive(Clone, Copy)]
pub enum MoveLack<'a> {
    /// The round isn't before the first one that is left to the message.
    NotBefore {
        message: &'a str,
        round: u32,
        least: u32,
    },
    /// The message may be copied out so much later than the slot of the round may begin.
    NotReady {
        message: &'a str,
        ready: u64,
        node: &'a str,
        round: u32,
        start: u64,
        by: u64,
    },
    /// What may be in the frame of the round with the message has so many bytes more than it may carry.
    NoRoom {
        message: &'a str,
        node: &'a str,
        round: u32,
        bytes: u64,
        most: u32,
        by: u64,
    },
    /// That they are silent twins, of which the other one, the later in the instance, has the earlier slot.
    NotTurned {
        node: &'a str,
        other: &'a str,
    },
    /// That the message is the first of its slot on one channel alone, and on channel 1.
    NotMirrored {
        message: &'a str,
    },
}

/// Message `m` couldn't be sent in round `r`. One pass over the messages.
#[tactic(auto, using(crate::proofs::Failing::too_full))]
pub fn not_earlier<'a>(facts: &Facts<'a>, m: u32, r: u32) -> MoveLack<'a>
    requires inside { m < length facts.now.instance.messages }
    requires lacks { ¬ CouldBeEarlier facts.now.instance facts.now.choice facts.now.known m r }
    ensures { IsNotEarlier facts.now.instance facts.now.choice facts.now.known m r result }
{
    let instance = facts.instance();
    let (message, n) = (
        instance.message_name(m as usize),
        instance.source_of(m as usize),
    );
    let least = facts.lo(m);
    if least <= r {
        return MoveLack::NotBefore {
            message,
            round: r,
            least,
        };
    }
    let (ready, start) = (
        ready_by(facts.known(), facts.instance(), m),
        start_least(facts, n, r),
    );
    let node = instance.source_name(m as usize);
    if start < ready {
        return MoveLack::NotReady {
            message,
            ready,
            node,
            round: r,
            start,
            by: ready.saturating_sub(start),
        };
    }
    let (bytes, most) = (
        bytes_in_frame(facts.known(), facts.instance(), m, r),
        cap_least(facts, n),
    );
    MoveLack::NoRoom {
        message,
        node,
        round: r,
        bytes,
        most,
        by: bytes.saturating_sub(u64::from(most)),
    }
}

/// Nodes `u` and `v` don't stand turned.
pub fn not_turned<'a>(facts: &Facts<'a>, u: u32, v: u32) -> MoveLack<'a>
    requires { ¬ StandTurned facts.now.instance facts.now.choice u v }
    ensures { IsNotTurned facts.now.instance facts.now.choice u v result }
{
    let instance = facts.instance();
    MoveLack::NotTurned {
        node: instance.node_name(u as usize),
        other: instance.node_name(v as usize),
    }
}

/// Message `m` doesn't lead a turned frame.
pub fn not_mirrored<'a>(facts: &Facts<'a>, m: u32) -> MoveLack<'a>
    requires { ¬ IsMirrored facts.now.instance facts.now.choice facts.now.known m }
    ensures { IsNotMirrored facts.now.instance facts.now.choice facts.now.known m result }
{
    MoveLack::NotMirrored {
        message: facts.instance().message_name(m as usize),
    }
}

impl<'a> fmt::Display for MoveLack<'a> {
    fn fmt<W: fmt::Write>(&self, f: &mut fmt::Formatter<W>) -> fmt::Result {
        match *self {
            MoveLack::NotBefore {
                message,
                round,
                least,
            } => {
                tell(
                    f,
                    "{} may be sent in round {}, and round {} isn't before that",
                    &[
                        Text(message),
                        Number(u64::from(least)),
                        Number(u64::from(round)),
                    ],
                )
            }
            MoveLack::NotReady {
                message,
                ready,
                node,
                round,
                start,
                by,
            } => {
                tell(
                    f,
                    "{} is copied out by {}, and {}'s slot of round {} begins at {} or later: {} too late",
                    &[
                        Text(message),
                        Number(ready),
                        Text(node),
                        Number(u64::from(round)),
                        Number(start),
                        Ticks(by),
                    ],
                )
            }
            MoveLack::NoRoom {
                message,
                node,
                round,
                bytes,
                most,
                by,
            } => {
                tell(
                    f,
                    "with {} {}'s frame of round {} may have {}, and carries {} or more: {} too many",
                    &[
                        Text(message),
                        Text(node),
                        Number(u64::from(round)),
                        Bytes(bytes),
                        Number(u64::from(most)),
                        Number(by),
                    ],
                )
            }
            MoveLack::NotTurned { node, other } => {
                tell(
                    f,
                    "{} and {} aren't silent twins of which {}, the later in the instance, has the earlier slot",
                    &[Text(node), Text(other), Text(other)],
                )
            }
            MoveLack::NotMirrored { message } => {
                tell(
                    f,
                    "{} isn't known to be the first of its slot on one channel alone, and on channel 1",
                    &[Text(message)],
                )
            }
        }
    }
}
