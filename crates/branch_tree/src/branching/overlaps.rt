//! Which processes of one node overlap in the plan at hand?

ghost use Rattle.std.specs.Prelude.{◌≡◌, ◌<◌, length};
ghost use Rattle.tt_choice.specs.Choice.{IsChoice};
ghost use Rattle.branch_tree.specs.Branching.{MayBranch, MayTake};

use crate::branching::candidate::{Candidate, tighter};
use std::alloc::Global;
use tt_choice::Choice;
use tt_infer::Facts;
use ttp_model::{Instance, Kind, MemoryFault};

/// The branch on the two processes of one node that overlap and have the least freedom, if any do.
/// Two passes over pairs.
pub fn tightest_pair(instance: &Instance, choice: &Choice, facts: &Facts) -> Option<Kind>
    requires of { IsChoice instance.now choice.now }
    requires facts { facts.now.instance ≡ instance.now }
    ensures { MayBranch instance.now choice.now result }
{
    let count = instance.processes().len() as u32;
    let mut tightest = None;
    for p in 0..count {
        tightest = tightest_with(instance, choice, facts, p, tightest);
    }
    match tightest {
        Some(candidate) => Some(candidate.kind),
        None => None,
    }
}

/// The one with the least freedom of the branch so far and those on process `p` and an earlier one.
fn tightest_with(
    instance: &Instance,
    choice: &Choice,
    facts: &Facts,
    p: u32,
    known: Option<Candidate>,
) -> Option<Candidate>
    requires of { IsChoice instance.now choice.now }
    requires facts { facts.now.instance ≡ instance.now }
    requires process { p < length instance.now.processes }
    requires known { MayTake instance.now choice.now known }
    ensures { MayTake instance.now choice.now result }
{
    let mut tightest = known;
    for q in 0..p {
        if let Some(candidate) = overlap(instance, choice, facts, q, p) {
            tightest = Some(tighter(tightest, candidate));
        }
    }
    tightest
}

/// The branches on two processes of one node that overlap, those with the least freedom first.
pub fn overlapping_pairs(
    alloc: Global,
    instance: &Instance,
    choice: &Choice,
    facts: &Facts,
) -> Result<Vec<Candidate>, MemoryFault>
    requires of { IsChoice instance.now choice.now }
    requires facts { facts.now.instance ≡ instance.now }
{
    let count = instance.processes().len() as u32;
    let mut pairs = Vec::new(alloc);
    for p in 0..count {
        add_overlaps(instance, choice, facts, p, &mut pairs)?;
    }
    pairs.sort_unstable_by_key(|pair| pair.freedom);
    Ok(pairs)
}

/// Adds the branches on process `p` and earlier ones that it overlaps with.
fn add_overlaps(
    instance: &Instance,
    choice: &Choice,
    facts: &Facts,
    p: u32,
    pairs: &mut Vec<Candidate>,
) -> Result<(), MemoryFault>
    requires of { IsChoice instance.now choice.now }
    requires facts { facts.now.instance ≡ instance.now }
    requires process { p < length instance.now.processes }
{
    for q in 0..p {
        add(overlap(instance, choice, facts, q, p), pairs)?;
    }
    Ok(())
}

/// Adds a branch, where there is one.
fn add(found: Option<Candidate>, pairs: &mut Vec<Candidate>) -> Result<(), MemoryFault> {
    if let Some(candidate) = found {
        pairs.push(candidate)?;
    }
    Ok(())
}

/// The branch on two processes, where they are in neither order and overlap. The order that leaves
/// more slack comes first: what shows that it has no plan may not need the order, and then the other one needn't be worked.
///
/// Their freedom is the product of both slacks: the square of the lesser biased slack of Smith and
/// Cheng (AAAI 1993).
fn overlap(instance: &Instance, choice: &Choice, facts: &Facts, p: u32, q: u32) -> Option<Candidate>
    requires of { IsChoice instance.now choice.now }
    requires facts { facts.now.instance ≡ instance.now }
    requires first { p < length instance.now.processes }
    requires second { q < length instance.now.processes }
    ensures { MayTake instance.now choice.now result }
{
    if instance.node_of(p as usize) != instance.node_of(q as usize) {
        return None;
    }
    if !runs_into(instance, facts, p, q) || !runs_into(instance, facts, q, p) {
        return None;
    }
    if !choice.is_open(instance, &Kind::Pair(p, q)) {
        return None;
    }
    let forwards = slack(instance, facts, p, q);
    let backwards = slack(instance, facts, q, p);
    let freedom = forwards.saturating_mul(backwards);
    let kind = if forwards < backwards {
        Kind::Pair(q, p)
    } else {
        Kind::Pair(p, q)
    };
    Some(Candidate { kind, freedom })
}

/// Whether process `p`, started as early as it can, still runs when `q` can start.
fn runs_into(instance: &Instance, facts: &Facts, p: u32, q: u32) -> bool
    requires facts { facts.now.instance ≡ instance.now }
    requires first { p < length instance.now.processes }
    requires second { q < length instance.now.processes }
{
    let wcet = instance.process_at(p as usize).wcet;
    u64::from(facts.es(q)) < u64::from(facts.es(p)) + u64::from(wcet)
}

/// One tick more than process `q` can wait behind `p`: 1 where it can't wait.
fn slack(instance: &Instance, facts: &Facts, p: u32, q: u32) -> u64
    requires facts { facts.now.instance ≡ instance.now }
    requires first { p < length instance.now.processes }
    requires second { q < length instance.now.processes }
{
    let both = u64::from(instance.process_at(p as usize).wcet)
        + u64::from(instance.process_at(q as usize).wcet);
    let soonest = u64::from(facts.es(p)) + both;
    u64::from(facts.le(q)).saturating_sub(soonest) + 1
}
