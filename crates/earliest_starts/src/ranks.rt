//! In which order can the processes of a node run, and where can they not?

ghost use Rattle.std.specs.Prelude.{◌≡◌, ℕ, ◌<◌, ◌≤◌, [], ◌∷◌, length, slice_index, IsTrue, IsFalse, IfOk, IfSome, IfNone};
ghost use Rattle.tt_choice.specs.Choice.{IsChoice, IsComplete, is_before};
ghost use Rattle.earliest_starts.specs.Clashes.{IsWaitingRing};
ghost use Rattle.earliest_starts.specs.Ranks.{rank, AreRanks, Rise, TurnsNoLink};

use std::alloc::Global;
use tt_choice::Choice;
use ttp_model::{Instance, Link, MemoryFault, Numbers};

/// A link whose second process is chosen to go before its first. One pass over the links.
pub fn turned_link(instance: &Instance, choice: &Choice) -> Option<Link>
    ensures found { IfSome result
        (λ link. IsWaitingRing instance.now choice.now (link.before ∷ link.after ∷ [])) }
    ensures none { IfNone result (TurnsNoLink instance.now choice.now) }
{
    for l in 0..instance.links().len() {
        let link = instance.link_at(l);
        if choice.is_before(link.after, link.before) {
            return Some(link);
        }
    }
    None
}

/// For each process how many are chosen to go before it. One pass over the pairs of processes.
pub fn ranks(alloc: Global, instance: &Instance, choice: &Choice) -> Result<Vec<u32>, MemoryFault>
    ensures { IfOk result (λ ranks. AreRanks instance.now choice.now ranks.items) }
{
    let count = instance.processes().len() as u32;
    let mut ranks = Vec::new(alloc);
    for p in 0..count {
        ranks.push(rank_of(instance, choice, p))?;
    }
    Ok(ranks)
}

/// How many processes are chosen to go before `p`.
fn rank_of(instance: &Instance, choice: &Choice, p: u32) -> u32
    ensures { result ≡ rank instance.now choice.now p }
{
    let count = instance.processes().len() as u32;
    let mut rank = 0;
    for q in 0..count {
        if choice.is_before(q, p) {
            rank += 1;
        }
    }
    rank
}

/// Two processes of which the first is chosen to go before the second and has no lower rank. One
/// pass over the pairs of processes.
pub fn disorder(instance: &Instance, choice: &Choice, ranks: &[u32]) -> Option<(u32, u32)>
    requires of { IsChoice instance.now choice.now }
    requires all { length ranks.now ≡ length instance.now.processes }
    ensures found { IfSome result (λ pair. IsTrue (is_before choice.now pair.0 pair.1)
        × (slice_index ranks.now pair.1 ≤ slice_index ranks.now pair.0)) }
    ensures none { IfNone result (Rise instance.now choice.now ranks.now) }
{
    let count = instance.processes().len() as u32;
    for p in 0..count {
        if let Some(q) = not_lower(instance, choice, ranks, p) {
            return Some((q, p));
        }
    }
    None
}

/// A process that is chosen to go before `p` and has no lower rank.
fn not_lower(instance: &Instance, choice: &Choice, ranks: &[u32], p: u32) -> Option<u32>
    requires all { length ranks.now ≡ length instance.now.processes }
    requires process { p < length instance.now.processes }
    ensures found { IfSome result (λ q. IsTrue (is_before choice.now q p)
        × (slice_index ranks.now p ≤ slice_index ranks.now q)) }
    ensures none { IfNone result ((q : ℕ) → q < length instance.now.processes
        → IsTrue (is_before choice.now q p) → slice_index ranks.now q < slice_index ranks.now p) }
{
    let count = instance.processes().len() as u32;
    for q in 0..count {
        if choice.is_before(q, p) && ranks[p as usize] <= ranks[q as usize] {
            return Some(q);
        }
    }
    None
}

/// Two or three processes of which each goes before the next and the last before the first. Of
/// two processes of which the first goes before the second and has no lower rank, some third goes
/// before the first alone, and so the second goes before it.
pub fn ring(
    alloc: Global,
    instance: &Instance,
    choice: &Choice,
    first: u32,
    second: u32,
) -> Result<Numbers, MemoryFault>
    requires of { IsChoice instance.now choice.now }
    requires complete { IsComplete instance.now choice.now }
    requires ahead { IsTrue (is_before choice.now first second) }
    requires rank { rank instance.now choice.now second ≤ rank instance.now choice.now first }
    ensures { IfOk result (IsWaitingRing instance.now choice.now) }
{
    let third = before_first_alone(instance, choice, first, second).unwrap();
    if third == second {
        let two = vec![in alloc; first, second]?;
        Ok(Numbers::new(two))
    } else {
        let three = vec![in alloc; second, third, first]?;
        Ok(Numbers::new(three))
    }
}

/// A process that is chosen to go before the first and not before the second.
fn before_first_alone(instance: &Instance, choice: &Choice, first: u32, second: u32) -> Option<u32>
    ensures found { IfSome result (λ r. IsTrue (is_before choice.now r first)
        × IsFalse (is_before choice.now r second)) }
    ensures none { IfNone result ((r : ℕ) → r < length instance.now.processes
        → IsTrue (is_before choice.now r first) → IsTrue (is_before choice.now r second)) }
{
    let count = instance.processes().len() as u32;
    for r in 0..count {
        if choice.is_before(r, first) && !choice.is_before(r, second) {
            return Some(r);
        }
    }
    None
}
