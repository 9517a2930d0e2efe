//! Why are links and messages refused that join what they must not join?

ghost use Rattle.std.specs.Prelude.{◌≡◌, ◌≢◌, ◌<◌, ◌↔◌, IsTrue, length, slice_index};
ghost use Rattle.ttp_model.specs.Instance.{node_of};
ghost use Rattle.ttp_model.specs.Lists.{EachBelow, IsFirstFailure};
ghost use Rattle.ttp_model.specs.Rules.{HasChannels, ReceivesOnce, SendsAway, StaysOnNode};
ghost use Rattle.ttp_model.specs.Parts.{instance_of};
ghost use Rattle.instance_reasons.specs.Joins.{IsBothOfOne, IsNewAt, IsReceiverThere, IsReceiverTwice, IsWrongLink};

use crate::parts::{
    link_at, message_name, node_of, place_name, process_name, receivers_of, sender_of,
};
use sentences::Word::{Number, Told};
use sentences::{Member, tell, write_members};
use serde::{Described, Serialize, Serializer};
use std::fmt;
use ttp_model::Parts;

/// A message to a receiver that is on its sender's node, of several the first.
#[derive(Clone, Copy)]
pub struct ReceiverThere<'a> {
    pub message: &'a str,
    pub sender: &'a str,
    pub receiver: &'a str,
    /// The node of both.
    pub node: &'a str,
}

/// Why a receiver of message `m` is refused.
pub fn receiver_there(parts: &Parts, m: u32) -> ReceiverThere<'_>
    requires { ¬ SendsAway (instance_of parts.now) m }
    ensures { IsReceiverThere (instance_of parts.now) m result }
{
    let sender = sender_of(parts, m);
    let receivers = receivers_of(parts, m);
    let node = node_of(parts, sender);
    let k = first_on(parts, receivers, node);
    ReceiverThere {
        message: message_name(parts, m),
        sender: process_name(parts, sender),
        receiver: process_name(parts, receivers[k]),
        node: place_name(parts, sender),
    }
}

/// Where the first of these processes stands that is on a node.
fn first_on(parts: &Parts, processes: &[u32], node: u32) -> usize
    requires { ¬ EachBelow (length processes.now) (λ k. node_of (instance_of parts.now) (slice_index processes.now k) ≢ node) }
    ensures { IsFirstFailure (length processes.now) (λ k. node_of (instance_of parts.now) (slice_index processes.now k) ≢ node) result }
{
    for k in 0..processes.len() {
        if node_of(parts, processes[k]) == node {
            return k;
        }
    }
    unreachable!()
}

impl<'a> Described for ReceiverThere<'a> {}

impl<'a> Serialize for ReceiverThere<'a> {
    fn serialize<S: Serializer>(&self, out: &mut S) -> Result<(), S::Error> {
        write_members(
            &[
                ("message", Member::Told(self.message)),
                ("sender", Member::Told(self.sender)),
                ("receiver", Member::Told(self.receiver)),
                ("node", Member::Told(self.node)),
            ],
            out,
        )
    }
}

impl<'a> fmt::Display for ReceiverThere<'a> {
    fn fmt<W: fmt::Write>(&self, f: &mut fmt::Formatter<W>) -> fmt::Result {
        let (message, node) = (self.message, self.node);
        let (sender, receiver) = (self.sender, self.receiver);
        tell(
            f,
            "Message {} goes from {} to {}, which are both on {}: no message is needed there.\n",
            &[Told(message), Told(sender), Told(receiver), Told(node)],
        )?;
        tell(
            f,
            "A link from {} to {} says that the second waits for the first.\n",
            &[Told(sender), Told(receiver)],
        )
    }
}

/// A link that isn't between two processes of one node.
#[derive(Clone, Copy)]
pub enum WrongLink<'a> {
    /// When it is from a process to itself.
    ToItself {
        link: u64,
        process: &'a str,
    },
    /// When it is between two nodes.
    Across {
        link: u64,
        before: &'a str,
        before_node: &'a str,
        after: &'a str,
        after_node: &'a str,
    },
}

/// Why link `l` is refused.
pub fn wrong_link(parts: &Parts, l: u32) -> WrongLink<'_>
    requires { ¬ StaysOnNode (instance_of parts.now) l }
    ensures { IsWrongLink (instance_of parts.now) l result }
{
    let ends = link_at(parts, l);
    let link = u64::from(l);
    if ends.before == ends.after {
        WrongLink::ToItself {
            link,
            process: process_name(parts, ends.before),
        }
    } else {
        WrongLink::Across {
            link,
            before: process_name(parts, ends.before),
            before_node: place_name(parts, ends.before),
            after: process_name(parts, ends.after),
            after_node: place_name(parts, ends.after),
        }
    }
}

impl<'a> Described for WrongLink<'a> {}

impl<'a> Serialize for WrongLink<'a> {
    fn serialize<S: Serializer>(&self, out: &mut S) -> Result<(), S::Error> {
        match *self {
            WrongLink::ToItself { link, process } => write_members(
                &[
                    ("case", Member::Text("to_itself")),
                    ("link", Member::Number(link)),
                    ("process", Member::Told(process)),
                ],
                out,
            ),
            WrongLink::Across {
                link,
                before,
                before_node,
                after,
                after_node,
            } => write_members(
                &[
                    ("case", Member::Text("across")),
                    ("link", Member::Number(link)),
                    ("before", Member::Told(before)),
                    ("before_node", Member::Told(before_node)),
                    ("after", Member::Told(after)),
                    ("after_node", Member::Told(after_node)),
                ],
                out,
            ),
        }
    }
}

impl<'a> fmt::Display for WrongLink<'a> {
    fn fmt<W: fmt::Write>(&self, f: &mut fmt::Formatter<W>) -> fmt::Result {
        match *self {
            WrongLink::ToItself { link, process } => {
                tell(
                    f,
                    "Link {} goes from {} to itself, and no process waits for itself.\n",
                    &[Number(link), Told(process)],
                )
            }
            WrongLink::Across {
                link,
                before,
                before_node,
                after,
                after_node,
            } => {
                tell(
                    f,
                    "Link {} goes from {} on {} to {} on {}, and a link stays on one node: a message goes from node to node.\n",
                    &[
                        Number(link),
                        Told(before),
                        Told(before_node),
                        Told(after),
                        Told(after_node),
                    ],
                )
            }
        }
    }
}

/// A message that names a receiver twice, of several the one whose second place is first.
#[derive(Clone, Copy)]
pub struct ReceiverTwice<'a> {
    pub message: &'a str,
    pub receiver: &'a str,
}

/// Why the receivers of message `m` are refused. A step for each two of them.
pub fn receiver_twice(parts: &Parts, m: u32) -> ReceiverTwice<'_>
    requires { ¬ ReceivesOnce (instance_of parts.now) m }
    ensures { IsReceiverTwice (instance_of parts.now) m result }
{
    let receivers = receivers_of(parts, m);
    let k = first_repeat(receivers);
    ReceiverTwice {
        message: message_name(parts, m),
        receiver: process_name(parts, receivers[k]),
    }
}

/// The first place of a number that stands before it too.
fn first_repeat(numbers: &[u32]) -> usize
    requires { ¬ EachBelow (length numbers.now) (IsNewAt numbers.now) }
    ensures { IsFirstFailure (length numbers.now) (IsNewAt numbers.now) result }
{
    for k in 0..numbers.len() {
        if !is_new_at(numbers, k) {
            return k;
        }
    }
    unreachable!()
}

/// Whether the number at a place stands at none before it.
fn is_new_at(numbers: &[u32], k: usize) -> bool
    requires { k < length numbers.now }
    ensures { IsTrue result ↔ IsNewAt numbers.now k }
{
    for j in 0..k {
        if numbers[j] == numbers[k] {
            return false;
        }
    }
    true
}

impl<'a> Described for ReceiverTwice<'a> {}

impl<'a> Serialize for ReceiverTwice<'a> {
    fn serialize<S: Serializer>(&self, out: &mut S) -> Result<(), S::Error> {
        write_members(
            &[
                ("message", Member::Told(self.message)),
                ("receiver", Member::Told(self.receiver)),
            ],
            out,
        )
    }
}

impl<'a> fmt::Display for ReceiverTwice<'a> {
    fn fmt<W: fmt::Write>(&self, f: &mut fmt::Formatter<W>) -> fmt::Result {
        let (message, receiver) = (self.message, self.receiver);
        tell(
            f,
            "Message {} names {} twice as a receiver.\n",
            &[Told(message), Told(receiver)],
        )
    }
}

/// A message that is to be on both channels of a cluster that has one.
#[derive(Clone, Copy)]
pub struct BothOfOne<'a> {
    pub message: &'a str,
}

/// Why message `m` is refused.
pub fn both_of_one(parts: &Parts, m: u32) -> BothOfOne<'_>
    requires { ¬ HasChannels (instance_of parts.now) m }
    ensures { IsBothOfOne (instance_of parts.now) m result }
{
    BothOfOne {
        message: message_name(parts, m),
    }
}

impl<'a> Described for BothOfOne<'a> {}

impl<'a> Serialize for BothOfOne<'a> {
    fn serialize<S: Serializer>(&self, out: &mut S) -> Result<(), S::Error> {
        write_members(&[("message", Member::Told(self.message))], out)
    }
}

impl<'a> fmt::Display for BothOfOne<'a> {
    fn fmt<W: fmt::Write>(&self, f: &mut fmt::Formatter<W>) -> fmt::Result {
        let message = self.message;
        tell(
            f,
            "Message {} is to be on both channels, and the cluster has one.\n",
            &[Told(message)],
        )
    }
}
