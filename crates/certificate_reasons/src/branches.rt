//! What is wrong with a branch?

ghost use Rattle.std.specs.Prelude.{◌≢◌, ◌<◌, length};
ghost use Rattle.tt_choice.specs.Branches.{IsOpen, children};
ghost use Rattle.tt_choice.specs.Choice.{Choice};
ghost use Rattle.certificate_reasons.specs.Branches.{IsCapacityCount, IsChildCount, IsClosedCap, IsClosedChan, IsClosedPair, IsClosedRounds, IsNotOpen};

use crate::absent::{NoPart, no_part};
use certificate::Branch;
use sentences::Word::{Count, Number, Text};
use sentences::{Counted, tell};
use std::fmt;
use ttp_model::{Instance, Kind, Part};

/// Why a branch isn't open.
#[derive(Clone, Copy)]
pub enum NotOpen<'a> {
    /// What it decides isn't there.
    Absent(NoPart),
    /// All nodes are placed above it.
    Placed,
    /// The capacity of the node is decided above it.
    Capacity { node: &'a str },
    /// The order of the processes is decided above it, or they aren't two of one node.
    Order { process: &'a str, other: &'a str },
    /// The round isn't from the first and before the last of those that are left to the message.
    Round { message: &'a str, round: u32 },
    /// The channel of the message is decided above it, or by the instance.
    Channel { message: &'a str },
}

/// So many children of a branch, which has to have another count.
#[derive(Clone, Copy)]
pub enum ChildCount<'a> {
    /// One for each node that isn't placed above it.
    Places {
        children: u32,
    },
    /// One for each of so many capacities of the node.
    Capacities {
        children: u32,
        node: &'a str,
        capacities: u64,
    },
}

/// Why a capacity can't be branched on.
fn closed_cap(instance: &Instance, n: u32) -> NotOpen<'_>
    ensures { IsClosedCap instance.now n result }
{
    if n as usize >= instance.nodes().len() {
        return NotOpen::Absent(no_part(instance, Part::Nodes, n));
    }
    NotOpen::Capacity {
        node: instance.node_name(n as usize),
    }
}

/// Why the order of two processes can't.
fn closed_pair(instance: &Instance, p: u32, q: u32) -> NotOpen<'_>
    ensures { IsClosedPair instance.now p q result }
{
    let count = instance.processes().len();
    if p as usize >= count {
        return NotOpen::Absent(no_part(instance, Part::Processes, p));
    }
    if q as usize >= count {
        return NotOpen::Absent(no_part(instance, Part::Processes, q));
    }
    NotOpen::Order {
        process: instance.process_name(p as usize),
        other: instance.process_name(q as usize),
    }
}

/// Why the rounds of a message can't.
fn closed_rounds(instance: &Instance, m: u32, round: u32) -> NotOpen<'_>
    ensures { IsClosedRounds instance.now m round result }
{
    if m as usize >= instance.messages().len() {
        return NotOpen::Absent(no_part(instance, Part::Messages, m));
    }
    NotOpen::Round {
        message: instance.message_name(m as usize),
        round,
    }
}

/// Why the channel of a message can't.
fn closed_chan(instance: &Instance, m: u32) -> NotOpen<'_>
    ensures { IsClosedChan instance.now m result }
{
    if m as usize >= instance.messages().len() {
        return NotOpen::Absent(no_part(instance, Part::Messages, m));
    }
    NotOpen::Channel {
        message: instance.message_name(m as usize),
    }
}

/// Why a branch of a kind isn't open.
pub fn not_open(instance: &Instance, kind: Kind) -> NotOpen<'_>
    ensures { IsNotOpen instance.now kind result }
{
    match kind {
        Kind::Place => NotOpen::Placed,
        Kind::Cap(n) => closed_cap(instance, n),
        Kind::Pair(p, q) => closed_pair(instance, p, q),
        Kind::Round(m, round) => closed_rounds(instance, m, round),
        Kind::Chan(m) => closed_chan(instance, m),
    }
}

/// Why a branch on a capacity has to have another count of children than this.
fn capacity_count(instance: &Instance, n: u32, children: u32) -> ChildCount<'_>
    requires { n < length instance.now.nodes }
    ensures { IsCapacityCount instance.now n children result }
{
    ChildCount::Capacities {
        children,
        node: instance.node_name(n as usize),
        capacities: instance.nodes()[n as usize].capacities.len() as u64,
    }
}

/// Why an open branch has to have another count of children.
pub fn child_count<'a>(instance: &'a Instance, branch: &Branch) -> ChildCount<'a>
    requires { (c : Choice) × IsOpen instance.now c branch.now.kind × (branch.now.children ≢ children instance.now c branch.now.kind) }
    ensures { IsChildCount instance.now branch.now.kind branch.now.children result }
{
    let children = branch.children;
    match branch.kind {
        Kind::Place => ChildCount::Places { children },
        Kind::Cap(n) => capacity_count(instance, n, children),
        Kind::Pair(_, _) | Kind::Round(_, _) | Kind::Chan(_) => unreachable!(),
    }
}

impl<'a> fmt::Display for NotOpen<'a> {
    fn fmt<W: fmt::Write>(&self, f: &mut fmt::Formatter<W>) -> fmt::Result {
        match *self {
            NotOpen::Absent(lacking) => writeln!(f, "{lacking}"),
            NotOpen::Placed => f.write_str("All nodes are placed above it.\n"),
            NotOpen::Capacity { node } => {
                tell(
                    f,
                    "The capacity of {} is decided above it.\n",
                    &[Text(node)],
                )
            }
            NotOpen::Order { process, other } => {
                tell(
                    f,
                    "The order of {} and {} is decided above it, or they aren't two processes of one node.\n",
                    &[Text(process), Text(other)],
                )
            }
            NotOpen::Round { message, round } => {
                tell(
                    f,
                    "Round {} isn't from the first and before the last of those that are left to {}.\n",
                    &[Number(u64::from(round)), Text(message)],
                )
            }
            NotOpen::Channel { message } => {
                tell(
                    f,
                    "The channel of {} is decided above it, or by the instance.\n",
                    &[Text(message)],
                )
            }
        }
    }
}

/// So many children.
fn counted(children: u32) -> Counted {
    Counted {
        number: u64::from(children),
        one: "child",
        many: "children",
    }
}

impl<'a> fmt::Display for ChildCount<'a> {
    fn fmt<W: fmt::Write>(&self, f: &mut fmt::Formatter<W>) -> fmt::Result {
        match *self {
            ChildCount::Places { children } => {
                tell(
                    f,
                    "It has {}, and has to have one for each node that isn't placed above it.\n",
                    &[Count(counted(children))],
                )
            }
            ChildCount::Capacities {
                children,
                node,
                capacities,
            } => {
                tell(
                    f,
                    "It has {}, and has to have one for each capacity of {}, which has {}.\n",
                    &[Count(counted(children)), Text(node), Number(capacities)],
                )
            }
        }
    }
}
