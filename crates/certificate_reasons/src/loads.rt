//! Why is no plan left, by what has to run or to be sent?

ghost use Rattle.std.specs.Prelude.{◌<◌, length};
ghost use Rattle.certificate_reasons.specs.Loads.{IsFrame, IsFrames, IsHalves, IsLoad};

use crate::slots::cap_most;
use sentences::Word::{Bytes, Count, Number, Text, Ticks};
use sentences::{Counted, tell};
use std::fmt;
use tt_infer::Facts;

/// Why no plan is left, by what has to run or to be sent; in ticks, bytes and rounds.
#[derive(Clone, Copy)]
pub enum LoadReason<'a> {
    /// What has to run on a node between two ticks takes longer than that.
    Load {
        node: &'a str,
        from: u32,
        until: u32,
        ticks: u32,
    },
    /// A message has more bytes than any frame of its node.
    Frame {
        message: &'a str,
        bytes: u32,
        node: &'a str,
        most: u32,
    },
    /// What a node has to send from one round on and before another has more bytes than its frames, on all channels.
    Frames {
        node: &'a str,
        from: u32,
        before: u32,
        frames: u32,
        most: u32,
        channels: u32,
    },
    /// The same on one of two channels.
    Halves {
        channel: u32,
        node: &'a str,
        from: u32,
        before: u32,
        room: u64,
    },
}

/// What has to run on node `n` takes longer than there is time from `a` to `b`.
pub fn load<'a>(facts: &Facts<'a>, n: u32, a: u32, b: u32) -> LoadReason<'a>
    requires { n < length facts.now.instance.nodes }
    ensures { IsLoad facts.now.instance n a b result }
{
    LoadReason::Load {
        node: facts.instance().node_name(n as usize),
        from: a,
        until: b,
        ticks: b.saturating_sub(a),
    }
}

/// Message `m` is longer than any frame.
pub fn frame<'a>(facts: &Facts<'a>, m: u32) -> LoadReason<'a>
    requires { m < length facts.now.instance.messages }
    ensures { IsFrame facts.now.instance facts.now.choice m result }
{
    let instance = facts.instance();
    LoadReason::Frame {
        message: instance.message_name(m as usize),
        bytes: instance.message_at(m as usize).bytes,
        node: instance.source_name(m as usize),
        most: cap_most(facts, instance.source_of(m as usize)),
    }
}

/// What node `n` has to send from round `a` on and before `b` is more than its frames carry, on all channels.
pub fn frames<'a>(facts: &Facts<'a>, n: u32, a: u32, b: u32) -> LoadReason<'a>
    requires { n < length facts.now.instance.nodes }
    ensures { IsFrames facts.now.instance facts.now.choice n a b result }
{
    let instance = facts.instance();
    LoadReason::Frames {
        node: instance.node_name(n as usize),
        from: a,
        before: b,
        frames: b.saturating_sub(a),
        most: cap_most(facts, n),
        channels: instance.cluster().channels,
    }
}

/// It is more than they carry on channel `k`.
pub fn halves<'a>(facts: &Facts<'a>, k: u32, n: u32, a: u32, b: u32) -> LoadReason<'a>
    requires { n < length facts.now.instance.nodes }
    ensures { IsHalves facts.now.instance facts.now.choice k n a b result }
{
    LoadReason::Halves {
        channel: k,
        node: facts.instance().node_name(n as usize),
        from: a,
        before: b,
        room: u64::from(b.saturating_sub(a)) * u64::from(cap_most(facts, n)),
    }
}

impl<'a> fmt::Display for LoadReason<'a> {
    fn fmt<W: fmt::Write>(&self, f: &mut fmt::Formatter<W>) -> fmt::Result {
        match *self {
            LoadReason::Load {
                node,
                from,
                until,
                ticks,
            } => {
                let these = these(ticks);
                tell(
                    f,
                    "what has to run on {} from {} to {} takes more than {} {}",
                    &[
                        Text(node),
                        Number(u64::from(from)),
                        Number(u64::from(until)),
                        Text(these),
                        Ticks(u64::from(ticks)),
                    ],
                )
            }
            LoadReason::Frame {
                message,
                bytes,
                node,
                most,
            } => {
                tell(
                    f,
                    "{} has {} and a frame of {} at most {}",
                    &[
                        Text(message),
                        Bytes(u64::from(bytes)),
                        Text(node),
                        Number(u64::from(most)),
                    ],
                )
            }
            LoadReason::Frames {
                node,
                from,
                before,
                frames,
                most,
                channels,
            } => {
                let frames = counted(frames, "frame", "frames");
                let (on, channels) = (on(channels), counted(channels, "channel", "channels"));
                write_span(f, node, from, before)?;
                tell(
                    f,
                    " has more bytes than {} of at most {} {} {}",
                    &[
                        Count(frames),
                        Number(u64::from(most)),
                        Text(on),
                        Count(channels),
                    ],
                )
            }
            LoadReason::Halves {
                channel,
                node,
                from,
                before,
                room,
            } => {
                write_span(f, node, from, before)?;
                tell(
                    f,
                    " on channel {} has more than the {} of its frames",
                    &[Number(u64::from(channel)), Bytes(room)],
                )
            }
        }
    }
}

/// Writes in which rounds a node sends what it has to.
pub fn write_span<W: fmt::Write>(
    f: &mut fmt::Formatter<W>,
    node: &str,
    from: u32,
    before: u32,
) -> fmt::Result {
    tell(
        f,
        "what {} has to send from round {} on and before round {}",
        &[
            Text(node),
            Number(u64::from(from)),
            Number(u64::from(before)),
        ],
    )
}

/// So many of something.
fn counted(number: u32, one: &'static str, many: &'static str) -> Counted {
    let number = u64::from(number);
    Counted { number, one, many }
}

/// What stands before so many.
fn these(count: u32) -> &'static str {
    if count == 1 { "this" } else { "these" }
}

/// What stands before so many channels.
fn on(count: u32) -> &'static str {
    if count == 1 { "on" } else { "on each of" }
}
