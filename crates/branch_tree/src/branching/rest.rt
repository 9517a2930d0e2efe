//! What is left to choose where nothing conflicts?

ghost use Rattle.std.specs.Prelude.{◌≡◌, ℕ, ◌<◌, length, IfNone, IsSome};
ghost use Rattle.tt_choice.specs.Choice.{IsChoice, IsOrdered, fixed_cap, fixed_channel, least_round, greatest_round};
ghost use Rattle.branch_tree.specs.Branching.{Branches, MayBranch, OrderedBelow};

use crate::branching::rounds::halved;
use tt_choice::Choice;
use tt_infer::Facts;
use ttp_model::{Instance, Kind};

/// An open branch, or none where nothing is left to choose: an order of two processes, then a round,
/// then a node's place, then a capacity, then a channel.
pub fn rest(instance: &Instance, choice: &Choice, facts: &Facts) -> Option<Kind>
    requires of { IsChoice instance.now choice.now }
    requires facts { facts.now.instance ≡ instance.now }
    ensures { Branches instance.now choice.now result }
{
    let _messages = instance.messages();
    if let Some(kind) = unordered_pair(instance, choice, facts) {
        return Some(kind);
    }
    if let Some(kind) = open_range(instance, choice) {
        return Some(kind);
    }
    if choice.is_open(instance, &Kind::Place) {
        return Some(Kind::Place);
    }
    if let Some(kind) = free_cap(instance, choice) {
        return Some(kind);
    }
    free_channel(instance, choice)
}

/// The first two processes of one node in neither order.
fn unordered_pair(instance: &Instance, choice: &Choice, facts: &Facts) -> Option<Kind>
    requires of { IsChoice instance.now choice.now }
    requires facts { facts.now.instance ≡ instance.now }
    ensures some { MayBranch instance.now choice.now result }
    ensures none { IfNone result ((p q : ℕ) → q < p → p < length instance.now.processes
        → IsOrdered instance.now choice.now p q) }
{
    let count = instance.processes().len() as u32;
    for p in 0..count {
        if let Some(kind) = unordered_with(instance, choice, facts, p) {
            return Some(kind);
        }
    }
    None
}

/// Process `p` and the first one before it that it is in neither order with. The order of the plan
/// at hand comes last.
fn unordered_with(instance: &Instance, choice: &Choice, facts: &Facts, p: u32) -> Option<Kind>
    requires of { IsChoice instance.now choice.now }
    requires facts { facts.now.instance ≡ instance.now }
    requires process { p < length instance.now.processes }
    ensures some { MayBranch instance.now choice.now result }
    ensures none { IfNone result (OrderedBelow instance.now choice.now p p) }
{
    for q in 0..p {
        if choice.is_open(instance, &Kind::Pair(p, q)) {
            if facts.es(q) <= facts.es(p) {
                return Some(Kind::Pair(p, q));
            }
            return Some(Kind::Pair(q, p));
        }
    }
    None
}

/// The first message that several rounds are open to.
fn open_range(instance: &Instance, choice: &Choice) -> Option<Kind>
    requires { IsChoice instance.now choice.now }
    ensures some { MayBranch instance.now choice.now result }
    ensures none { IfNone result ((m : ℕ) → m < length instance.now.messages
        → least_round choice.now m ≡ greatest_round choice.now m) }
{
    let count = instance.messages().len() as u32;
    for m in 0..count {
        if choice.lo(m) < choice.hi(m) {
            return Some(halved(instance, choice, m));
        }
    }
    None
}

/// The first node whose capacity is free.
fn free_cap(instance: &Instance, choice: &Choice) -> Option<Kind>
    requires { IsChoice instance.now choice.now }
    ensures some { MayBranch instance.now choice.now result }
    ensures none { IfNone result ((n : ℕ) → n < length instance.now.nodes
        → IsSome (fixed_cap choice.now n)) }
{
    let count = instance.nodes().len() as u32;
    for n in 0..count {
        if choice.fixed_cap(n).is_none() {
            return Some(Kind::Cap(n));
        }
    }
    None
}

/// The first message whose channel is free.
fn free_channel(instance: &Instance, choice: &Choice) -> Option<Kind>
    requires { IsChoice instance.now choice.now }
    ensures some { MayBranch instance.now choice.now result }
    ensures none { IfNone result ((m : ℕ) → m < length instance.now.messages
        → IsSome (fixed_channel choice.now m)) }
{
    let count = instance.messages().len() as u32;
    for m in 0..count {
        if choice.channel(m).is_none() {
            return Some(Kind::Chan(m));
        }
    }
    None
}
