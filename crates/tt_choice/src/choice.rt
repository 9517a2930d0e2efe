//! What of a plan is chosen so far?

ghost use Rattle.std.specs.Prelude.{◌≡◌, ◌-◌, ◌<◌, ◌≤◌, [], length, map, IfOk, OnOk};
ghost use Rattle.std.specs.List.{range_with_len};
ghost use Rattle.ttp_model.specs.declared.limits.TheConstants.{MOST_PROCESSES};
ghost use Rattle.ttp_model.specs.Plans.{IsValid};
ghost use Rattle.ttp_model.specs.declared.plan.Plan.{Plan};
ghost use Rattle.tt_choice.specs.Choice.{IsChoice, IsIn, bare, fixed_cap, fixed_channel, is_before, least_round, greatest_round, unordered_below, unordered_pairs};
ghost use Rattle.tt_choice.specs.Branches.{open_choice, root_channel, root_choice};

mod changes;
mod decisions;
mod extremes;
mod kinds;
mod questions;
mod trail;

pub use self::kinds::{decision_at, is_of_places};
use crate::precedence::Precedence;
use crate::reversal::Reversal;
use std::alloc::Global;
use std::marker::Model;
use ttp_model::{BOTH_CHANNELS, Instance, MemoryFault};

/// A set of plans: those whose slot order begins with given nodes, whose capacities are the ones
/// that are fixed, in which some processes of one node go before others, and whose messages are
/// sent in given ranges of rounds, on the channels that are fixed.
///
/// A choice is one of an instance, which each call that needs it is handed again.
#[derive(Drop)]
pub struct Choice {
    /// The first nodes of the slot order.
    prefix: Vec<u32>,
    /// The fixed capacity of each node in bytes, or none.
    fixed: Vec<Option<u32>>,
    /// Which processes go before which.
    before: Precedence,
    /// How many pairs of processes of one node are in neither order.
    unordered: u32,
    /// The least round of each message.
    lo: Vec<u32>,
    /// The greatest round of each message.
    hi: Vec<u32>,
    /// The fixed channel of each message, 2 for both, or none.
    channels: Vec<Option<u32>>,
    /// What takes the kept decisions back, the first first.
    kept: Vec<Reversal>,
}

impl Model for Choice {
    ghost use Rattle.tt_choice.specs.Choice.{Choice};

    ghost Value = { Choice };

    ghost view = { λ s. record {
      prefix = s.prefix.items;
      fixed = s.fixed.items;
      before = s.before;
      unordered = s.unordered;
      lo = s.lo.items;
      hi = s.hi.items;
      channels = s.channels.items;
      kept = s.kept.items;
    } };
}

impl Choice {
    /// The choice in which nothing is chosen, with rounds from 0 to one below the horizon. Each
    /// valid plan is in it. Takes time for each two processes.
    pub fn root(alloc: Global, instance: &Instance) -> Result<Self, MemoryFault>
        ensures value { IfOk result (λ c. c ≡ root_choice instance.now) }
        ensures choice { IfOk result (IsChoice instance.now) }
        ensures plans { IfOk result (λ c. (plan : Plan)
            → IsValid instance.now plan → IsIn instance.now c plan) }
    {
        let _nodes = instance.nodes();
        let choice = Self::open(alloc, instance)?;
        Ok(choice)
    }

    /// The parts of the choice in which nothing is chosen.
    fn open(alloc: Global, instance: &Instance) -> Result<Self, MemoryFault>
        ensures { IfOk result (λ c. c ≡ root_choice instance.now) }
    {
        let nodes = instance.nodes().len();
        let messages = instance.messages().len();
        let processes = instance.processes().len() as u32;
        Ok(Choice {
            prefix: Vec::new(alloc),
            fixed: vec![in alloc; None; nodes]?,
            before: Precedence::none(alloc, processes)?,
            unordered: pairs_of_one_node(instance),
            lo: vec![in alloc; 0u32; messages]?,
            hi: vec![in alloc; instance.cluster().horizon - 1; messages]?,
            channels: root_channels(alloc, instance)?,
            kept: Vec::new(alloc),
        })
    }

    /// The same in memory of its own, with no decision kept.
    pub fn copy(&self, alloc: Global) -> Result<Self, MemoryFault>
        ensures { IfOk result (λ c. c ≡ bare self.now) }
    {
        Ok(Choice {
            prefix: Vec::from_slice(alloc, self.prefix.as_slice())?,
            fixed: Vec::from_slice(alloc, self.fixed.as_slice())?,
            before: self.before.copy(alloc)?,
            unordered: self.unordered,
            lo: Vec::from_slice(alloc, self.lo.as_slice())?,
            hi: Vec::from_slice(alloc, self.hi.as_slice())?,
            channels: Vec::from_slice(alloc, self.channels.as_slice())?,
            kept: Vec::new(alloc),
        })
    }

    /// The same in memory of its own, with the decisions that are kept.
    pub fn whole_copy(&self, alloc: Global) -> Result<Self, MemoryFault>
        ensures { IfOk result (λ c. c ≡ self.now) }
    {
        let mut copy = self.copy(alloc)?;
        copy.kept = Vec::from_slice(alloc, self.kept.as_slice())?;
        Ok(copy)
    }

    /// The same in the same memory, with no decision kept. Takes no memory.
    pub fn bare(self) -> Self
        ensures { result ≡ bare self }
    {
        let mut choice = self;
        choice.kept.clear();
        choice
    }

    /// Becomes the same choice as another, in the memory that it has where that suffices, with no decision kept. After a
    /// refusal it is of use no more.
    pub fn set_to(&mut self, other: &Choice) -> Result<(), MemoryFault>
        requires { self.old.kept ≡ [] }
        ensures { OnOk result (self.new ≡ bare other.now) }
    {
        refill(&mut self.prefix, other.prefix.as_slice())?;
        refill(&mut self.fixed, other.fixed.as_slice())?;
        self.before.set_to(&other.before)?;
        self.unordered = other.unordered;
        refill(&mut self.lo, other.lo.as_slice())?;
        refill(&mut self.hi, other.hi.as_slice())?;
        refill(&mut self.channels, other.channels.as_slice())?;
        Ok(())
    }

    /// The nodes that are placed, in their order.
    pub fn prefix(&self) -> &[u32]
        ensures { result.now ≡ self.now.prefix }
    {
        self.prefix.as_slice()
    }

    /// The capacity in bytes that is fixed for node `n`, if one is.
    pub fn fixed_cap(&self, n: u32) -> Option<u32>
        requires { n < length self.now.fixed }
        ensures { result ≡ fixed_cap self.now n }
    {
        self.fixed[n as usize]
    }

    /// Whether process `p` is chosen to go before `q`. Looks at one test.
    pub fn is_before(&self, p: u32, q: u32) -> bool
        ensures { result ≡ is_before self.now p q }
    {
        self.before.goes_before(p, q)
    }

    /// All pairs of processes of which the first is chosen to go before the second.
    pub fn precedence(&self) -> &Precedence
        ensures { result.now ≡ self.now.before }
    {
        &self.before
    }

    /// The least round that message `m` may be sent in.
    pub fn lo(&self, m: u32) -> u32
        requires { m < length self.now.lo }
        ensures { result ≡ least_round self.now m }
    {
        self.lo[m as usize]
    }

    /// The greatest round that message `m` may be sent in.
    pub fn hi(&self, m: u32) -> u32
        requires { m < length self.now.hi }
        ensures { result ≡ greatest_round self.now m }
    {
        self.hi[m as usize]
    }

    /// The channel that is fixed for message `m`, 2 for both, if one is.
    pub fn channel(&self, m: u32) -> Option<u32>
        requires { m < length self.now.channels }
        ensures { result ≡ fixed_channel self.now m }
    {
        self.channels[m as usize]
    }
}

/// Puts these items in place of those that are there.
fn refill<T: Copy>(items: &mut Vec<T>, others: &[T]) -> Result<(), MemoryFault>
    ensures { OnOk result (items.new.items ≡ others.now) }
{
    items.clear();
    items.extend_from_slice(others)?;
    Ok(())
}

/// What is fixed of the channel of message `m` where nothing is chosen: the only one, or both where it
/// is to be on both.
fn root_channel(instance: &Instance, m: u32) -> Option<u32>
    requires { m < length instance.now.messages }
    ensures { result ≡ root_channel instance.now m }
{
    if instance.cluster().channels == 1 {
        Some(0)
    } else if instance.message_at(m as usize).both {
        Some(BOTH_CHANNELS)
    } else {
        None
    }
}

/// The same for each message.
fn root_channels(alloc: Global, instance: &Instance) -> Result<Vec<Option<u32>>, MemoryFault>
    ensures { IfOk result (λ channels. channels.items
        ≡ map (root_channel instance.now) (range_with_len 0 (length instance.now.messages))) }
{
    let count = instance.messages().len() as u32;
    let mut channels = Vec::with_capacity(alloc, count as usize)?;
    for m in 0..count {
        channels.push(root_channel(instance, m))?;
    }
    Ok(channels)
}

/// How many processes before `p` stand on its node.
fn earlier_on_node(instance: &Instance, p: u32) -> u32
    requires { p < length instance.now.processes }
    ensures count { result ≡ unordered_below instance.now (open_choice instance.now 0) p }
    ensures few { result ≤ MOST_PROCESSES }
{
    let _processes = instance.processes();
    let node = instance.node_of(p as usize);
    let mut earlier = 0;
    for q in 0..p {
        if instance.node_of(q as usize) == node {
            earlier += 1;
        }
    }
    earlier
}

/// How many pairs of processes stand on one node.
fn pairs_of_one_node(instance: &Instance) -> u32
    ensures { result ≡ unordered_pairs instance.now (open_choice instance.now 0) }
{
    let count = instance.processes().len() as u32;
    let mut pairs = 0;
    for p in 0..count {
        pairs += earlier_on_node(instance, p);
    }
    pairs
}
