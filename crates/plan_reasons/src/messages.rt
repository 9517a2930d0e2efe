//! Why is a message not ready, not there in time, or on another channel than it may be on?

ghost use Rattle.std.specs.Prelude.{◌<◌, length};
ghost use Rattle.ttp_model.specs.Lists.{EachBelow};
ghost use Rattle.ttp_model.specs.Plans.{EndsInTime, HasLengths, HasOwnChannel, sent_from, start_of};
ghost use Rattle.plan_facts.specs.Messages.{IsFirstInTime, arrival, ready_at};
ghost use Rattle.plan_reasons.specs.Slots.{CanBeLaid};
ghost use Rattle.plan_reasons.specs.Messages.{IsAllowed, IsNotArrived, IsNotReady, IsWrongChannel};

use plan_facts::{arrival, first_in_time, ready_at};
use sentences::Word::{Number, Text, Ticks};
use sentences::{Member, tell, write_members};
use serde::{Described, Serialize, Serializer};
use std::fmt;
use tt_layout::Layout;
use ttp_model::{BOTH_CHANNELS, Instance, Plan, end_of};

/// A message whose slot begins before it is copied out; in ticks.
#[derive(Clone, Copy)]
pub struct NotReady<'a> {
    pub message: &'a str,
    pub sender: &'a str,
    /// The sender's node.
    pub node: &'a str,
    /// When the sender ends.
    pub end: u64,
    pub copy_out: u32,
    pub ready: u64,
    pub round: u32,
    /// When its slot begins in that round.
    pub slot: u64,
    pub by: u64,
    /// The first round whose slot begins in time, and when it does.
    pub first_in_time: u32,
    pub first_slot: u64,
}

/// Why the round of message `m` is too early. Two passes over the slots of a round.
pub fn not_ready<'a>(instance: &'a Instance, plan: &Plan, m: usize) -> NotReady<'a>
    requires laid { CanBeLaid instance.now plan.now }
    requires in_time { EachBelow (length instance.now.processes) (EndsInTime instance.now plan.now) }
    requires inside { m < length instance.now.messages }
    requires wrong { sent_from instance.now plan.now m < ready_at instance.now plan.now m }
    ensures { IsNotReady instance.now plan.now m result }
{
    let layout = Layout::of(instance, plan.order.as_slice(), plan.caps.as_slice());
    let (sender, n) = (instance.message_at(m).sender, instance.source_of(m));
    let round = plan.rounds.as_slice()[m];
    let (ready, slot) = (ready_at(instance, plan, m), layout.slot_start(n, round));
    let first = first_round(instance, plan, m);
    NotReady {
        message: instance.message_name(m),
        sender: instance.process_name(sender as usize),
        node: instance.source_name(m),
        end: end_of(instance, plan, sender as usize),
        copy_out: instance.cluster().copy_out,
        ready,
        round,
        slot,
        by: ready.saturating_sub(slot),
        first_in_time: first,
        first_slot: layout.slot_start(n, first),
    }
}

/// The first round in which message `m` is ready, which a plan can name.
fn first_round(instance: &Instance, plan: &Plan, m: usize) -> u32
    requires laid { CanBeLaid instance.now plan.now }
    requires in_time { EachBelow (length instance.now.processes) (EndsInTime instance.now plan.now) }
    requires inside { m < length instance.now.messages }
    ensures { IsFirstInTime instance.now plan.now m result }
{
    let _nodes = instance.nodes();
    let layout = Layout::of(instance, plan.order.as_slice(), plan.caps.as_slice());
    let round = first_in_time(instance, plan, &layout, m);
    round as u32
}

impl<'a> Described for NotReady<'a> {}

impl<'a> Serialize for NotReady<'a> {
    fn serialize<S: Serializer>(&self, out: &mut S) -> Result<(), S::Error> {
        write_members(
            &[
                ("message", Member::Text(self.message)),
                ("sender", Member::Text(self.sender)),
                ("node", Member::Text(self.node)),
                ("end", Member::Number(self.end)),
                ("copy_out", Member::Number(u64::from(self.copy_out))),
                ("ready", Member::Number(self.ready)),
                ("round", Member::Number(u64::from(self.round))),
                ("slot", Member::Number(self.slot)),
                ("by", Member::Number(self.by)),
                (
                    "first_in_time",
                    Member::Number(u64::from(self.first_in_time)),
                ),
                ("first_slot", Member::Number(self.first_slot)),
            ],
            out,
        )
    }
}

impl<'a> fmt::Display for NotReady<'a> {
    fn fmt<W: fmt::Write>(&self, f: &mut fmt::Formatter<W>) -> fmt::Result {
        let (message, sender, node) = (self.message, self.sender, self.node);
        let (end, copy_out, ready) = (self.end, self.copy_out, self.ready);
        let (round, slot, by) = (self.round, self.slot, self.by);
        let (first, first_slot) = (self.first_in_time, self.first_slot);
        tell(
            f,
            "Message {} isn't ready when its slot begins.\n  its sender {} on {} ends at {}, and copying out takes {}: it is ready at {}\n",
            &[
                Text(message),
                Text(sender),
                Text(node),
                Number(end),
                Number(u64::from(copy_out)),
                Number(ready),
            ],
        )?;
        tell(
            f,
            "  {}'s slot of round {} begins at {}: {} too early\n  the first round in time is round {}, at {}\n",
            &[
                Text(node),
                Number(u64::from(round)),
                Number(slot),
                Ticks(by),
                Number(u64::from(first)),
                Number(first_slot),
            ],
        )
    }
}

/// A receiver that starts before a message is copied in; in ticks.
#[derive(Clone, Copy)]
pub struct NotArrived<'a> {
    pub message: &'a str,
    /// The node that sends it.
    pub source: &'a str,
    pub round: u32,
    /// When its slot ends in that round.
    pub slot_end: u64,
    pub copy_in: u32,
    pub there: u64,
    pub receiver: &'a str,
    /// The receiver's node.
    pub node: &'a str,
    pub start: u32,
    pub by: u64,
}

/// Why the start of process `q` is too early, which waits for message `m`. One pass over the slots of a round.
pub fn not_arrived<'a>(instance: &'a Instance, plan: &Plan, m: usize, q: usize) -> NotArrived<'a>
    requires laid { CanBeLaid instance.now plan.now }
    requires inside { m < length instance.now.messages }
    requires receiver { q < length instance.now.processes }
    requires wrong { start_of plan.now q < arrival instance.now plan.now m }
    ensures { IsNotArrived instance.now plan.now m q result }
{
    let layout = Layout::of(instance, plan.order.as_slice(), plan.caps.as_slice());
    let (round, start) = (plan.rounds.as_slice()[m], plan.starts.as_slice()[q]);
    let there = arrival(instance, plan, &layout, m);
    NotArrived {
        message: instance.message_name(m),
        source: instance.source_name(m),
        round,
        slot_end: layout.slot_end(instance.source_of(m), round),
        copy_in: instance.cluster().copy_in,
        there,
        receiver: instance.process_name(q),
        node: instance.place_name(q),
        start,
        by: there.saturating_sub(u64::from(start)),
    }
}

impl<'a> Described for NotArrived<'a> {}

impl<'a> Serialize for NotArrived<'a> {
    fn serialize<S: Serializer>(&self, out: &mut S) -> Result<(), S::Error> {
        write_members(
            &[
                ("message", Member::Text(self.message)),
                ("source", Member::Text(self.source)),
                ("round", Member::Number(u64::from(self.round))),
                ("slot_end", Member::Number(self.slot_end)),
                ("copy_in", Member::Number(u64::from(self.copy_in))),
                ("there", Member::Number(self.there)),
                ("receiver", Member::Text(self.receiver)),
                ("node", Member::Text(self.node)),
                ("start", Member::Number(u64::from(self.start))),
                ("by", Member::Number(self.by)),
            ],
            out,
        )
    }
}

impl<'a> fmt::Display for NotArrived<'a> {
    fn fmt<W: fmt::Write>(&self, f: &mut fmt::Formatter<W>) -> fmt::Result {
        let (message, source, round) = (self.message, self.source, self.round);
        let (slot_end, copy_in, there) = (self.slot_end, self.copy_in, self.there);
        let (receiver, node, start, by) = (self.receiver, self.node, self.start, self.by);
        tell(
            f,
            "{} starts before message {} is there.\n  {}'s slot of round {} ends at {}, and copying in takes {}: it is there at {}\n",
            &[
                Text(receiver),
                Text(message),
                Text(source),
                Number(u64::from(round)),
                Number(slot_end),
                Number(u64::from(copy_in)),
                Number(there),
            ],
        )?;
        tell(
            f,
            "  {} on {} starts at {}: {} too early\n",
            &[
                Text(receiver),
                Text(node),
                Number(u64::from(start)),
                Ticks(by),
            ],
        )
    }
}

/// The channels that a message may be on.
#[derive(Clone, Copy)]
pub enum AllowedChannels {
    /// The only one.
    Only,
    /// Both together.
    Both,
    /// One of two, or both.
    Any,
}

/// A message that is on another channel than it may be on.
#[derive(Clone, Copy)]
pub struct WrongChannel<'a> {
    pub message: &'a str,
    pub allowed: AllowedChannels,
    /// What stands in the plan: a channel from 0, or 2 for both.
    pub channel: u32,
}

/// Why the channel of message `m` is refused.
pub fn wrong_channel<'a>(instance: &'a Instance, plan: &Plan, m: usize) -> WrongChannel<'a>
    requires lengths { HasLengths instance.now plan.now }
    requires inside { m < length instance.now.messages }
    requires wrong { ¬ HasOwnChannel instance.now plan.now m }
    ensures { IsWrongChannel instance.now plan.now m result }
{
    WrongChannel {
        message: instance.message_name(m),
        allowed: allowed_channels(instance, m),
        channel: plan.channels.as_slice()[m],
    }
}

/// The channels that message `m` may be on.
fn allowed_channels(instance: &Instance, m: usize) -> AllowedChannels
    requires { m < length instance.now.messages }
    ensures { IsAllowed instance.now m result }
{
    if instance.cluster().channels == 1 {
        AllowedChannels::Only
    } else if instance.message_at(m).both {
        AllowedChannels::Both
    } else {
        AllowedChannels::Any
    }
}

impl AllowedChannels {
    /// What they are called as a value.
    fn name(self) -> &'static str {
        match self {
            AllowedChannels::Only => "only",
            AllowedChannels::Both => "both",
            AllowedChannels::Any => "any",
        }
    }

    /// What they are called in a sentence.
    fn words(self) -> &'static str {
        match self {
            AllowedChannels::Only => "channel 0, the only one",
            AllowedChannels::Both => "both channels",
            AllowedChannels::Any => "channel 0, channel 1 or both",
        }
    }
}

impl<'a> Described for WrongChannel<'a> {}

impl<'a> Serialize for WrongChannel<'a> {
    fn serialize<S: Serializer>(&self, out: &mut S) -> Result<(), S::Error> {
        write_members(
            &[
                ("message", Member::Text(self.message)),
                ("allowed", Member::Text(self.allowed.name())),
                ("channel", Member::Number(u64::from(self.channel))),
            ],
            out,
        )
    }
}

impl<'a> fmt::Display for WrongChannel<'a> {
    fn fmt<W: fmt::Write>(&self, f: &mut fmt::Formatter<W>) -> fmt::Result {
        let (message, allowed, channel) = (self.message, self.allowed.words(), self.channel);
        tell(
            f,
            "Message {} has to be on {}, and is on ",
            &[Text(message), Text(allowed)],
        )?;
        if channel == BOTH_CHANNELS {
            f.write_str("both channels.\n")
        } else {
            tell(f, "channel {}.\n", &[Number(u64::from(channel))])
        }
    }
}
