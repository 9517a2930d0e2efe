//! What that a step or a branch names isn't there?

ghost use Rattle.std.specs.Prelude.{◌≡◌, ◌<◌, length};
ghost use Rattle.ttp_model.specs.declared.error.Part.TheVariants as part;
ghost use Rattle.tt_choice.specs.Choice.{ArePair};
ghost use Rattle.sought_plans.specs.Premises.{GoesTo};
ghost use Rattle.tt_infer.specs.Table.{AreProcesses, HasHalf, IsLink, IsMessage, IsNode, IsProcess};
ghost use Rattle.certificate_reasons.specs.Absent.{IsHalfLacking, IsPairLacking, IsLackingPart, IsLackingProcess, IsPartLacking, IsReceiverLacking, first_absent, part_count};

use sentences::Word::{Count, Number, Text};
use sentences::{Counted, tell};
use std::fmt;
use std::fmt::Display;
use ttp_model::{Instance, Part, Ring};

/// A node, process, link or message that isn't there.
#[derive(Clone, Copy)]
pub struct NoPart {
    pub part: Part,
    /// Its index, from 0.
    pub index: u32,
    /// How many of them there are.
    pub count: u64,
}

/// What that a step names isn't there.
#[derive(Clone, Copy)]
pub enum Absent<'a> {
    Part(NoPart),
    /// They aren't two processes of one node.
    Pair { process: &'a str, other: &'a str },
    /// The process doesn't receive the message.
    Receiver { message: &'a str, process: &'a str },
    /// A cluster of so many channels has no half of a frame on this one.
    Half { channel: u32, channels: u32 },
}

/// How many of them there are.
fn part_count(instance: &Instance, part: Part) -> usize
    ensures { result ≡ part_count instance.now part }
{
    match part {
        Part::Nodes => instance.nodes().len(),
        Part::Processes => instance.processes().len(),
        Part::Links => instance.links().len(),
        Part::Messages => instance.messages().len(),
    }
}

/// The part of this index, which isn't there.
#[tactic(auto, using(crate::proofs::Failing::at_least))]
pub fn no_part(instance: &Instance, part: Part, index: u32) -> NoPart
    requires { ¬ (index < part_count instance.now part) }
    ensures { IsPartLacking instance.now part index result }
{
    NoPart {
        part,
        index,
        count: part_count(instance, part) as u64,
    }
}

/// A process that isn't there.
pub fn no_process<'a>(instance: &'a Instance, p: u32) -> Absent<'a>
    requires { ¬ IsProcess instance.now p }
    ensures { IsLackingPart instance.now part.Processes p result }
{
    Absent::Part(no_part(instance, Part::Processes, p))
}

/// A link that isn't there.
pub fn no_link<'a>(instance: &'a Instance, l: u32) -> Absent<'a>
    requires { ¬ IsLink instance.now l }
    ensures { IsLackingPart instance.now part.Links l result }
{
    Absent::Part(no_part(instance, Part::Links, l))
}

/// A message that isn't there.
pub fn no_message<'a>(instance: &'a Instance, m: u32) -> Absent<'a>
    requires { ¬ IsMessage instance.now m }
    ensures { IsLackingPart instance.now part.Messages m result }
{
    Absent::Part(no_part(instance, Part::Messages, m))
}

/// A node that isn't there.
pub fn no_node<'a>(instance: &'a Instance, n: u32) -> Absent<'a>
    requires { ¬ IsNode instance.now n }
    ensures { IsLackingPart instance.now part.Nodes n result }
{
    Absent::Part(no_part(instance, Part::Nodes, n))
}

/// Two processes that aren't a pair.
pub fn no_pair<'a>(instance: &'a Instance, p: u32, q: u32) -> Absent<'a>
    requires { ¬ ArePair instance.now p q }
    ensures { IsPairLacking instance.now p q result }
{
    let count = instance.processes().len();
    if p as usize >= count {
        return Absent::Part(no_part(instance, Part::Processes, p));
    }
    if q as usize >= count {
        return Absent::Part(no_part(instance, Part::Processes, q));
    }
    Absent::Pair {
        process: instance.process_name(p as usize),
        other: instance.process_name(q as usize),
    }
}

/// A message that doesn't go to a process.
pub fn no_receiver<'a>(instance: &'a Instance, m: u32, q: u32) -> Absent<'a>
    requires { ¬ GoesTo instance.now m q }
    ensures { IsReceiverLacking instance.now m q result }
{
    if m as usize >= instance.messages().len() {
        return Absent::Part(no_part(instance, Part::Messages, m));
    }
    if q as usize >= instance.processes().len() {
        return Absent::Part(no_part(instance, Part::Processes, q));
    }
    Absent::Receiver {
        message: instance.message_name(m as usize),
        process: instance.process_name(q as usize),
    }
}

/// A node without halves of frames on a channel.
pub fn no_half<'a>(instance: &'a Instance, n: u32, k: u32) -> Absent<'a>
    requires { ¬ HasHalf instance.now n k }
    ensures { IsHalfLacking instance.now n k result }
{
    if n as usize >= instance.nodes().len() {
        return Absent::Part(no_part(instance, Part::Nodes, n));
    }
    Absent::Half {
        channel: k,
        channels: instance.cluster().channels,
    }
}

/// The first of the processes of a circle that isn't there.
pub fn no_ring<'a>(instance: &'a Instance, ring: &Ring) -> Absent<'a>
    requires { ¬ AreProcesses instance.now ring.now }
    ensures { IsLackingProcess instance.now ring.now result }
{
    let processes = ring.as_slice();
    let count = instance.processes().len();
    for k in 0..processes.len() {
        if processes[k] as usize >= count {
            return Absent::Part(no_part(instance, Part::Processes, processes[k]));
        }
    }
    unreachable!()
}

/// The first of two nodes that isn't there.
pub fn no_nodes<'a>(instance: &'a Instance, u: u32, v: u32) -> Absent<'a>
    requires { ¬ (IsNode instance.now u × IsNode instance.now v) }
    ensures { IsLackingPart instance.now part.Nodes (first_absent (length instance.now.nodes) u v) result }
{
    if u as usize >= instance.nodes().len() {
        return Absent::Part(no_part(instance, Part::Nodes, u));
    }
    Absent::Part(no_part(instance, Part::Nodes, v))
}

/// What one of them is called.
fn noun(part: Part) -> &'static str {
    match part {
        Part::Nodes => "node",
        Part::Processes => "process",
        Part::Links => "link",
        Part::Messages => "message",
    }
}

impl fmt::Display for NoPart {
    fn fmt<W: fmt::Write>(&self, f: &mut fmt::Formatter<W>) -> fmt::Result {
        let (noun, index, count) = (noun(self.part), self.index, self.count);
        tell(
            f,
            "There is no {} {}: the instance has {}.",
            &[Text(noun), Number(u64::from(index)), Number(count)],
        )
    }
}

impl<'a> fmt::Display for Absent<'a> {
    fn fmt<W: fmt::Write>(&self, f: &mut fmt::Formatter<W>) -> fmt::Result {
        match *self {
            Absent::Part(lacking) => lacking.fmt(f),
            Absent::Pair { process, other } => {
                tell(
                    f,
                    "{} and {} aren't two processes of one node.",
                    &[Text(process), Text(other)],
                )
            }
            Absent::Receiver { message, process } => {
                tell(f, "{} doesn't receive {}.", &[Text(process), Text(message)])
            }
            Absent::Half { channel, channels } => {
                let channels = u64::from(channels);
                let counted = Counted {
                    number: channels,
                    one: "channel",
                    many: "channels",
                };
                tell(
                    f,
                    "No frame has a half on channel {}: the cluster has {}.",
                    &[Number(u64::from(channel)), Count(counted)],
                )
            }
        }
    }
}
