//! What is there room for?

ghost use Rattle.std.specs.Prelude.{◌≡◌, ◌*◌, ◌-◌, ◌<◌, length};
ghost use Rattle.ttp_model.specs.Instance.{message_at, source_of};
ghost use Rattle.tt_choice.specs.Extremes.{cap_most};
ghost use Rattle.sought_plans.specs.Premises.{AreOverfull, AreOverfullOn, IsOverloaded};
ghost use Rattle.certificate_reasons.specs.LoadLacks.{IsFrameRoom, IsFramesRoom, IsHalvesRoom, IsLoadRoom, IsTurned};

use crate::loads::write_span;
use crate::slots::cap_most;
use sentences::Word::{Bytes, Number, Text, Ticks};
use sentences::tell;
use sought_plans::{bytes_in_frames, bytes_on_channel};
use std::fmt;
use tt_infer::{Facts, load_of};

/// A span that ends before it begins, or what there is room for; in ticks, bytes and rounds.
#[derive(Clone, Copy)]
pub enum LoadLack<'a> {
    /// It ends so much earlier than it begins.
    Turned {
        from: u32,
        until: u32,
        by: u32,
    },
    /// What has to run on a node between two ticks takes no longer than that.
    Load {
        node: &'a str,
        from: u32,
        until: u32,
        load: u64,
        ticks: u32,
    },
    /// A message has no more bytes than some frame of its node.
    Frame {
        message: &'a str,
        bytes: u32,
        node: &'a str,
        most: u32,
    },
    /// What a node has to send from one round on and before another has no more bytes than its frames, on all channels.
    Frames {
        node: &'a str,
        from: u32,
        before: u32,
        bytes: u64,
        room: u64,
    },
    /// The same on one of two channels.
    Halves {
        channel: u32,
        node: &'a str,
        from: u32,
        before: u32,
        bytes: u64,
        room: u64,
    },
}

/// A span from `a` to `b` ends before it begins.
fn turned(a: u32, b: u32) -> LoadLack<'static>
    requires { b < a }
    ensures { IsTurned a b result }
{
    LoadLack::Turned {
        from: a,
        until: b,
        by: a.saturating_sub(b),
    }
}

/// What has to run on node `n` from `a` to `b` takes no longer. One pass over the processes.
#[tactic(auto, using(crate::proofs::Failing::load_fits))]
pub fn load_room<'a>(facts: &Facts<'a>, n: u32, a: u32, b: u32) -> LoadLack<'a>
    requires inside { n < length facts.now.instance.nodes }
    requires lacks { ¬ IsOverloaded facts.now.instance facts.now.known n a b }
    ensures { IsLoadRoom facts.now.instance facts.now.known n a b result }
{
    if b < a {
        return turned(a, b);
    }
    LoadLack::Load {
        node: facts.instance().node_name(n as usize),
        from: a,
        until: b,
        load: load_of(facts.known(), facts.instance(), n, a, b),
        ticks: b.saturating_sub(a),
    }
}

/// Message `m` fits into a frame.
#[tactic(auto, using(crate::proofs::Failing::at_least))]
pub fn frame_room<'a>(facts: &Facts<'a>, m: u32) -> LoadLack<'a>
    requires inside { m < length facts.now.instance.messages }
    requires lacks { ¬ (cap_most facts.now.instance facts.now.choice (source_of facts.now.instance m) < (message_at facts.now.instance m).bytes) }
    ensures { IsFrameRoom facts.now.instance facts.now.choice m result }
{
    let instance = facts.instance();
    LoadLack::Frame {
        message: instance.message_name(m as usize),
        bytes: instance.message_at(m as usize).bytes,
        node: instance.source_name(m as usize),
        most: cap_most(facts, instance.source_of(m as usize)),
    }
}

/// How many bytes the frames of node `n` from round `a` on and before `b` carry at most, on all channels.
fn room_in_frames(facts: &Facts, n: u32, a: u32, b: u32) -> u64
    requires { n < length facts.now.instance.nodes }
    ensures { result ≡ facts.now.instance.cluster.channels * ((b - a) * cap_most facts.now.instance facts.now.choice n) }
{
    let rounds = u64::from(b.saturating_sub(a));
    let capacity = u64::from(cap_most(facts, n));
    let channels = u64::from(facts.instance().cluster().channels);
    let frames = rounds * capacity;
    channels * frames
}

/// What node `n` has to send from round `a` on and before `b` fits into its frames, on all channels. One pass over the messages.
#[tactic(auto, using(crate::proofs::Failing::frames_fit))]
pub fn frames_room<'a>(facts: &Facts<'a>, n: u32, a: u32, b: u32) -> LoadLack<'a>
    requires inside { n < length facts.now.instance.nodes }
    requires lacks { ¬ AreOverfull facts.now.instance facts.now.choice facts.now.known n a b }
    ensures { IsFramesRoom facts.now.instance facts.now.choice facts.now.known n a b result }
{
    if b < a {
        return turned(a, b);
    }
    LoadLack::Frames {
        node: facts.instance().node_name(n as usize),
        from: a,
        before: b,
        bytes: bytes_in_frames(facts.known(), facts.setting(), n, a, b),
        room: room_in_frames(facts, n, a, b),
    }
}

/// It fits into them on channel `k`. One pass over the messages.
#[tactic(auto, using(crate::proofs::Failing::halves_fit))]
pub fn halves_room<'a>(facts: &Facts<'a>, k: u32, n: u32, a: u32, b: u32) -> LoadLack<'a>
    requires inside { n < length facts.now.instance.nodes }
    requires lacks { ¬ AreOverfullOn facts.now.instance facts.now.choice facts.now.known k n a b }
    ensures { IsHalvesRoom facts.now.instance facts.now.choice facts.now.known k n a b result }
{
    if b < a {
        return turned(a, b);
    }
    LoadLack::Halves {
        channel: k,
        node: facts.instance().node_name(n as usize),
        from: a,
        before: b,
        bytes: bytes_on_channel(facts.known(), facts.setting(), k, n, a, b),
        room: u64::from(b.saturating_sub(a)) * u64::from(cap_most(facts, n)),
    }
}

impl<'a> fmt::Display for LoadLack<'a> {
    fn fmt<W: fmt::Write>(&self, f: &mut fmt::Formatter<W>) -> fmt::Result {
        match *self {
            LoadLack::Turned { from, until, by } => {
                tell(
                    f,
                    "{} is before {}, by {}",
                    &[
                        Number(u64::from(until)),
                        Number(u64::from(from)),
                        Number(u64::from(by)),
                    ],
                )
            }
            LoadLack::Load {
                node,
                from,
                until,
                load,
                ticks,
            } => {
                tell(
                    f,
                    "what has to run on {} from {} to {} takes {}, which isn't more than {}",
                    &[
                        Text(node),
                        Number(u64::from(from)),
                        Number(u64::from(until)),
                        Ticks(load),
                        Number(u64::from(ticks)),
                    ],
                )
            }
            LoadLack::Frame {
                message,
                bytes,
                node,
                most,
            } => {
                tell(
                    f,
                    "{} has {}, and a frame of {} up to {}",
                    &[
                        Text(message),
                        Bytes(u64::from(bytes)),
                        Text(node),
                        Number(u64::from(most)),
                    ],
                )
            }
            LoadLack::Frames {
                node,
                from,
                before,
                bytes,
                room,
            } => {
                write_span(f, node, from, before)?;
                tell(
                    f,
                    " has {}, and its frames carry {}",
                    &[Bytes(bytes), Number(room)],
                )
            }
            LoadLack::Halves {
                channel,
                node,
                from,
                before,
                bytes,
                room,
            } => {
                write_span(f, node, from, before)?;
                tell(
                    f,
                    " on channel {} has {}, and its frames carry {} there",
                    &[Number(u64::from(channel)), Bytes(bytes), Number(room)],
                )
            }
        }
    }
}
