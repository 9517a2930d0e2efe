//! Why is a frame too full?

ghost use Rattle.std.specs.Prelude.{◌<◌, All, IfOk, length, slice_index};
ghost use Rattle.ttp_model.specs.Plans.{HasLengths, load_on};
ghost use Rattle.sentences.specs.Lists.{AreTold};
ghost use Rattle.plan_reasons.specs.Frames.{IsFrameMessage, IsOverfull, channel_number};

use plan_facts::{load_on, messages_on};
use sentences::Word::{Bytes, Number, Text};
use sentences::{Listed, Member, number_if_any, tell, write_members, write_members_and};
use serde::{Described, Serialize, Serializer};
use std::alloc::Global;
use std::fmt;
use std::fmt::Display;
use ttp_model::{Instance, MemoryFault, Plan};

/// A message with its bytes.
#[derive(Clone, Copy)]
pub struct FrameMessage<'a> {
    pub message: &'a str,
    pub bytes: u32,
}

impl<'a> Described for FrameMessage<'a> {}

impl<'a> Serialize for FrameMessage<'a> {
    fn serialize<S: Serializer>(&self, out: &mut S) -> Result<(), S::Error> {
        write_members(
            &[
                ("message", Member::Text(self.message)),
                ("bytes", Member::Number(u64::from(self.bytes))),
            ],
            out,
        )
    }
}

impl<'a> fmt::Display for FrameMessage<'a> {
    fn fmt<W: fmt::Write>(&self, f: &mut fmt::Formatter<W>) -> fmt::Result {
        let (message, bytes) = (self.message, self.bytes);
        tell(f, "{} {}", &[Text(message), Number(u64::from(bytes))])
    }
}

/// A frame whose messages exceed its capacity; in bytes.
#[derive(Drop)]
pub struct Overfull<'a> {
    pub node: &'a str,
    pub round: u32,
    /// The channel on which it is too full, where the cluster has two.
    pub channel: Option<u32>,
    pub capacity: u32,
    pub load: u64,
    pub by: u64,
    /// All messages of the frame there, in the instance's order.
    pub messages: Vec<FrameMessage<'a>>,
}

/// Why the frame of node `n` in round `r` is refused, on channel `c`, or in a cluster of one channel on that. Takes memory for its
/// messages; two passes over all.
pub fn overfull_frame<'a>(
    alloc: Global,
    instance: &'a Instance,
    plan: &Plan,
    n: u32,
    r: u32,
    channel: Option<u32>,
) -> Result<Overfull<'a>, MemoryFault>
    requires lengths { HasLengths instance.now plan.now }
    requires inside { n < length instance.now.nodes }
    requires wrong { slice_index plan.now.caps n < load_on instance.now plan.now n r (channel_number channel) }
    ensures { IfOk result (IsOverfull instance.now plan.now n r channel) }
{
    let c = channel.unwrap_or(0);
    let capacity = plan.caps.as_slice()[n as usize];
    let load = load_on(instance, plan, n, r, c);
    let messages = messages_on(alloc, instance, plan, n, r, c)?;
    Ok(Overfull {
        node: instance.node_name(n as usize),
        round: r,
        channel,
        capacity,
        load,
        by: load.saturating_sub(u64::from(capacity)),
        messages: with_bytes(alloc, instance, messages.as_slice())?,
    })
}

/// These messages with their bytes.
fn with_bytes<'a>(
    alloc: Global,
    instance: &'a Instance,
    messages: &[u32],
) -> Result<Vec<FrameMessage<'a>>, MemoryFault>
    requires { All (λ m. m < length instance.now.messages) messages.now }
    ensures { IfOk result (λ items. AreTold (IsFrameMessage instance.now) messages.now items.items) }
{
    let mut items = Vec::new(alloc);
    for m in messages {
        items.push(frame_message(instance, *m as usize))?;
    }
    Ok(items)
}

/// Message `m` with its bytes.
fn frame_message(instance: &Instance, m: usize) -> FrameMessage<'_>
    requires { m < length instance.now.messages }
    ensures { IsFrameMessage instance.now m result }
{
    FrameMessage {
        message: instance.message_name(m),
        bytes: instance.message_at(m).bytes,
    }
}

impl<'a> Described for Overfull<'a> {}

impl<'a> Serialize for Overfull<'a> {
    fn serialize<S: Serializer>(&self, out: &mut S) -> Result<(), S::Error> {
        let members = [
            ("node", Member::Text(self.node)),
            ("round", Member::Number(u64::from(self.round))),
            ("channel", number_if_any(self.channel)),
            ("capacity", Member::Number(u64::from(self.capacity))),
            ("load", Member::Number(self.load)),
            ("by", Member::Number(self.by)),
        ];
        write_members_and(&members, "messages", &self.messages, out)
    }
}

/// Tells a frame's capacity, and how much its messages have.
fn write_load<W: fmt::Write>(f: &mut fmt::Formatter<W>, capacity: u32, load: u64) -> fmt::Result {
    tell(
        f,
        ".\n  its capacity is {}; its messages have {}: ",
        &[Bytes(u64::from(capacity)), Number(load)],
    )
}

/// Tells how many bytes too many they have.
fn write_excess<W: fmt::Write>(f: &mut fmt::Formatter<W>, by: u64) -> fmt::Result {
    tell(f, "\n  {} too many\n", &[Bytes(by)])
}

impl<'a> fmt::Display for Overfull<'a> {
    fn fmt<W: fmt::Write>(&self, f: &mut fmt::Formatter<W>) -> fmt::Result {
        let (node, round) = (self.node, self.round);
        tell(
            f,
            "{}'s frame of round {} is too full",
            &[Text(node), Number(u64::from(round))],
        )?;
        if let Some(channel) = self.channel {
            write!(f, " on channel {channel}")?;
        }
        write_load(f, self.capacity, self.load)?;
        let messages = Listed {
            items: self.messages.as_slice(),
        };
        messages.fmt(f)?;
        write_excess(f, self.by)
    }
}
