//! Why is a list of a wrong length, a position of the order or a capacity refused?

ghost use Rattle.std.specs.Prelude.{◌≡◌, ◌≢◌, ◌<◌, Contains, length, slice_index};
ghost use Rattle.ttp_model.specs.Instance.{node_at};
ghost use Rattle.ttp_model.specs.Plans.{HasCapacitiesLength, HasOrderLength, IsNewNode};
ghost use Rattle.plan_reasons.specs.Lists.{IsFirstPosition, IsWrongCapacity, IsWrongLength, IsWrongPosition, entries_of, owners_of};

use crate::differences::{Difference, difference_of};
use sentences::Word::{Count, Number, Text};
use sentences::{Counted, Member, tell, write_members, write_members_and};
use serde::{Described, Serialize, Serializer};
use std::fmt;
use ttp_model::{Instance, Plan, PlanPart};

/// A list that hasn't one entry for each node, process or message.
#[derive(Clone, Copy)]
pub struct WrongLength {
    pub list: PlanPart,
    /// How many entries it has.
    pub entries: u64,
    /// How many nodes, processes or messages there are.
    pub owners: u64,
    pub by: Difference,
}

/// Why a list's length is refused.
pub fn wrong_length(instance: &Instance, plan: &Plan, list: PlanPart) -> WrongLength
    requires { entries_of plan.now list ≢ owners_of instance.now list }
    ensures { IsWrongLength instance.now plan.now list result }
{
    let (entries, owners) = (entries_of(plan, list), owners_of(instance, list));
    WrongLength {
        list,
        entries,
        owners,
        by: difference_of(entries, owners),
    }
}

/// How many entries a list has.
fn entries_of(plan: &Plan, list: PlanPart) -> u64
    ensures { result ≡ entries_of plan.now list }
{
    match list {
        PlanPart::Order => plan.order.len() as u64,
        PlanPart::Capacities => plan.caps.len() as u64,
        PlanPart::Starts => plan.starts.len() as u64,
        PlanPart::Rounds => plan.rounds.len() as u64,
        PlanPart::Channels => plan.channels.len() as u64,
    }
}

/// How many it has to have.
fn owners_of(instance: &Instance, list: PlanPart) -> u64
    ensures { result ≡ owners_of instance.now list }
{
    match list {
        PlanPart::Order | PlanPart::Capacities => instance.nodes().len() as u64,
        PlanPart::Starts => instance.processes().len() as u64,
        PlanPart::Rounds | PlanPart::Channels => instance.messages().len() as u64,
    }
}

/// The words for one entry of a list and for more.
fn entry_words(list: PlanPart) -> (&'static str, &'static str) {
    match list {
        PlanPart::Order => ("position", "positions"),
        PlanPart::Capacities => ("capacity", "capacities"),
        PlanPart::Starts => ("start", "starts"),
        PlanPart::Rounds => ("round", "rounds"),
        PlanPart::Channels => ("channel", "channels"),
    }
}

/// The words for one of what has an entry there and for more.
fn owner_words(list: PlanPart) -> (&'static str, &'static str) {
    match list {
        PlanPart::Order | PlanPart::Capacities => ("node", "nodes"),
        PlanPart::Starts => ("process", "processes"),
        PlanPart::Rounds | PlanPart::Channels => ("message", "messages"),
    }
}

impl Described for WrongLength {}

impl Serialize for WrongLength {
    fn serialize<S: Serializer>(&self, out: &mut S) -> Result<(), S::Error> {
        write_members(
            &[
                ("list", Member::Text(entry_words(self.list).1)),
                ("entries", Member::Number(self.entries)),
                ("owners", Member::Number(self.owners)),
                ("by", self.by.member()),
            ],
            out,
        )
    }
}

impl fmt::Display for WrongLength {
    fn fmt<W: fmt::Write>(&self, f: &mut fmt::Formatter<W>) -> fmt::Result {
        let (one, many) = entry_words(self.list);
        let entries = Counted {
            number: self.entries,
            one,
            many,
        };
        let (one, many) = owner_words(self.list);
        let owners = Counted {
            number: self.owners,
            one,
            many,
        };
        let by = self.by;
        tell(
            f,
            "The plan has {} for {}.\n  {} {}\n",
            &[
                Count(entries),
                Count(owners),
                Number(by.by()),
                Text(by.side()),
            ],
        )
    }
}

/// A position of the order, from 0, whose node isn't a new one.
#[derive(Clone, Copy)]
pub enum WrongPosition<'a> {
    /// When its node stands before it, there for the first time.
    Again {
        position: u64,
        node: &'a str,
        first: u64,
    },
    /// When it is no node's number.
    NoNode {
        position: u64,
        number: u32,
        last: u64,
        by: u64,
    },
}

/// Why position `k` of the order is refused. One pass over the order.
#[tactic(auto, using(crate::proofs::Positions::stands_before))]
pub fn wrong_position<'a>(instance: &'a Instance, plan: &Plan, k: usize) -> WrongPosition<'a>
    requires length { HasOrderLength instance.now plan.now }
    requires inside { k < length instance.now.nodes }
    requires wrong { ¬ IsNewNode (length instance.now.nodes) plan.now.order k }
    ensures { IsWrongPosition instance.now plan.now k result }
{
    let position = k as u64;
    let order = plan.order.as_slice();
    let number = order[k];
    let count = instance.nodes().len() as u64;
    if u64::from(number) < count {
        WrongPosition::Again {
            position,
            node: instance.node_name(number as usize),
            first: first_position(order, k) as u64,
        }
    } else {
        let last = count.saturating_sub(1);
        WrongPosition::NoNode {
            position,
            number,
            last,
            by: u64::from(number).saturating_sub(last),
        }
    }
}

/// The first position with the node of this one.
fn first_position(order: &[u32], k: usize) -> usize
    requires { k < length order.now }
    ensures { IsFirstPosition order.now k result }
{
    for j in 0..k {
        if order[j] == order[k] {
            return j;
        }
    }
    k
}

impl<'a> Described for WrongPosition<'a> {}

impl<'a> Serialize for WrongPosition<'a> {
    fn serialize<S: Serializer>(&self, out: &mut S) -> Result<(), S::Error> {
        match *self {
            WrongPosition::Again {
                position,
                node,
                first,
            } => write_members(
                &[
                    ("case", Member::Text("again")),
                    ("position", Member::Number(position)),
                    ("node", Member::Text(node)),
                    ("first", Member::Number(first)),
                ],
                out,
            ),
            WrongPosition::NoNode {
                position,
                number,
                last,
                by,
            } => write_members(
                &[
                    ("case", Member::Text("no_node")),
                    ("position", Member::Number(position)),
                    ("number", Member::Number(u64::from(number))),
                    ("last", Member::Number(last)),
                    ("by", Member::Number(by)),
                ],
                out,
            ),
        }
    }
}

impl<'a> fmt::Display for WrongPosition<'a> {
    fn fmt<W: fmt::Write>(&self, f: &mut fmt::Formatter<W>) -> fmt::Result {
        match *self {
            WrongPosition::Again {
                position,
                node,
                first,
            } => {
                tell(
                    f,
                    "Position {} of the order is {} again.\n  it stands at position {} already\n",
                    &[Number(position), Text(node), Number(first)],
                )
            }
            WrongPosition::NoNode {
                position,
                number,
                last,
                by,
            } => {
                tell(
                    f,
                    "Position {} of the order is no node.\n  it is {}, and the last node is {}: {} too many\n",
                    &[
                        Number(position),
                        Number(u64::from(number)),
                        Number(last),
                        Number(by),
                    ],
                )
            }
        }
    }
}

/// A capacity, in bytes, that its node doesn't offer.
#[derive(Clone, Copy)]
pub struct WrongCapacity<'a> {
    pub node: &'a str,
    pub capacity: u32,
    pub offered: &'a [u32],
}

/// Why the capacity of node `n` is refused.
pub fn wrong_capacity<'a>(instance: &'a Instance, plan: &Plan, n: usize) -> WrongCapacity<'a>
    requires length { HasCapacitiesLength instance.now plan.now }
    requires inside { n < length instance.now.nodes }
    requires wrong { ¬ Contains (node_at instance.now n).capacities (slice_index plan.now.caps n) }
    ensures { IsWrongCapacity instance.now plan.now n result }
{
    WrongCapacity {
        node: instance.node_name(n),
        capacity: plan.caps.as_slice()[n],
        offered: instance.nodes()[n].capacities.as_slice(),
    }
}

impl<'a> Described for WrongCapacity<'a> {}

impl<'a> Serialize for WrongCapacity<'a> {
    fn serialize<S: Serializer>(&self, out: &mut S) -> Result<(), S::Error> {
        let members = [
            ("node", Member::Text(self.node)),
            ("capacity", Member::Number(u64::from(self.capacity))),
        ];
        write_members_and(&members, "offered", &self.offered, out)
    }
}

impl<'a> fmt::Display for WrongCapacity<'a> {
    fn fmt<W: fmt::Write>(&self, f: &mut fmt::Formatter<W>) -> fmt::Result {
        let (node, capacity) = (self.node, self.capacity);
        tell(
            f,
            "{}'s capacity is {}, and {} offers",
            &[Text(node), Number(u64::from(capacity)), Text(node)],
        )?;
        for option in self.offered {
            tell(f, " {}", &[Number(u64::from(*option))])?;
        }
        f.write_str(".\n")
    }
}
