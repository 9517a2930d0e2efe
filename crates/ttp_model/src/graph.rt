//! Whether processes wait for each other.

ghost use Rattle.std.specs.Prelude.{◌≡◌, ◌+◌, ◌-◌, ◌++◌, All, take, drop, nat_lt, ◌<◌, ◌≤◌, ℕ, IfOk, IfSome, IfNone, IsSome, MatchOption, length, slice_index, Contains, None, Some, count_by, ◌==◌};
ghost use Rattle.std.specs.List.{IsFirstBest};
ghost use Rattle.ttp_model.specs.Lists.{HasNoRepeats};
ghost use Rattle.ttp_model.specs.Instance.{Instance};
ghost use Rattle.ttp_model.specs.Parts.{instance_of};
ghost use Rattle.ttp_model.specs.Graph.{HasLink, HasMessage, Leads, IsAcyclic, IsCycle, IsClosedWalk};
ghost use Rattle.ttp_model.specs.Turns.{PointsAhead, AreTurns, AreStuck};
ghost use Rattle.ttp_model.specs.Rules.{KeepsLimits, NamesWhatIsThere};
ghost use Rattle.ttp_model.specs.declared.error.Place.{Place};
ghost use Rattle.ttp_model.specs.declared.error.Place.TheVariants.{AtLink, AtMessage};

use crate::numbers::Numbers;
use crate::parts::Parts;
use std::alloc::{AllocError, Global};

/// A process without a turn that `p` leads to.
fn ahead_by_link(parts: &Parts, turns: &[u32], p: u32) -> Option<u32>
    requires indices { (l : ℕ) → NamesWhatIsThere (instance_of parts.now) (AtLink l) }
    requires turns { length turns.now ≡ length parts.now.processes.items }
    ensures found { IfSome result (λ q. PointsAhead (instance_of parts.now) turns.now p (Some q)) }
    ensures none { IfNone result ((q : ℕ) → HasLink (instance_of parts.now) p q → 0 < slice_index turns.now q) }
{
    for l in 0..parts.links.len() {
        let link = parts.links[l];
        if link.before == p && turns[link.after as usize] == 0 {
            return Some(link.after);
        }
    }
    None
}

/// The first receiver without a turn.
fn receiver_without_turn(receivers: &[u32], turns: &[u32]) -> Option<u32>
    requires { All (λ q. q < length turns.now) receivers.now }
    ensures found { IfSome result (λ q. Contains receivers.now q × (slice_index turns.now q ≡ 0)) }
    ensures none { IfNone result (All (λ q. 0 < slice_index turns.now q) receivers.now) }
{
    for q in receivers {
        if turns[*q as usize] == 0 {
            return Some(*q);
        }
    }
    None
}

/// A process without a turn to which `p` sends a message.
fn ahead_by_message(parts: &Parts, turns: &[u32], p: u32) -> Option<u32>
    requires indices { (m : ℕ) → NamesWhatIsThere (instance_of parts.now) (AtMessage m) }
    requires turns { length turns.now ≡ length parts.now.processes.items }
    ensures found { IfSome result (λ q. PointsAhead (instance_of parts.now) turns.now p (Some q)) }
    ensures none { IfNone result ((q : ℕ) → HasMessage (instance_of parts.now) p q → 0 < slice_index turns.now q) }
{
    for m in 0..parts.messages.len() {
        let message = &parts.messages[m];
        if message.sender == p {
            if let Some(q) = receiver_without_turn(message.receivers.as_slice(), turns) {
                return Some(q);
            }
        }
    }
    None
}

/// A process without a turn that `p` leads to.
fn ahead(parts: &Parts, turns: &[u32], p: u32) -> Option<u32>
    requires indices { (at : Place) → NamesWhatIsThere (instance_of parts.now) at }
    requires turns { length turns.now ≡ length parts.now.processes.items }
    ensures { PointsAhead (instance_of parts.now) turns.now p result }
{
    if let Some(q) = ahead_by_link(parts, turns, p) {
        return Some(q);
    }
    ahead_by_message(parts, turns, p)
}

/// A process that may have its turn next: it has none, and all that it leads to have one.
fn ready(parts: &Parts, turns: &[u32]) -> Option<usize>
    requires limits { KeepsLimits (instance_of parts.now) }
    requires indices { (at : Place) → NamesWhatIsThere (instance_of parts.now) at }
    requires turns { length turns.now ≡ length parts.now.processes.items }
    ensures found { IfSome result (λ p. (p < length turns.now) × (slice_index turns.now p ≡ 0)
        × PointsAhead (instance_of parts.now) turns.now p None) }
    ensures none { IfNone result (AreStuck (instance_of parts.now) turns.now) }
{
    for p in 0..turns.len() {
        if turns[p] == 0 && ahead(parts, turns, p as u32).is_none() {
            return Some(p);
        }
    }
    None
}

/// So many zeros.
fn zeros(alloc: Global, count: usize) -> Result<Vec<u32>, AllocError>
    ensures length { IfOk result (λ zeros. length zeros.items ≡ count) }
    ensures zeros { IfOk result (λ zeros. (p : ℕ) → slice_index zeros.items p ≡ 0) }
    ensures all { IfOk result (λ zeros. count_by (λ t. t == 0) zeros.items ≡ count) }
{
    let zeros = vec![in alloc; 0u32; count]?;
    Ok(zeros)
}

/// Gives turns as long as a process is ready.
fn turns(alloc: Global, parts: &Parts) -> Result<Vec<u32>, AllocError>
    requires limits { KeepsLimits (instance_of parts.now) }
    requires indices { (at : Place) → NamesWhatIsThere (instance_of parts.now) at }
    ensures length { IfOk result (λ turns. length turns.items ≡ length parts.now.processes.items) }
    ensures turns { IfOk result (λ turns. AreTurns (instance_of parts.now) turns.items) }
    ensures stuck { IfOk result (λ turns. AreStuck (instance_of parts.now) turns.items) }
{
    let count = parts.processes.len();
    let mut turns = zeros(alloc, count)?;
    let mut turn = 1u32;
    while let Some(p) = ready(parts, turns.as_slice()) {
        turns[p] = turn;
        turn += 1;
    }
    Ok(turns)
}

/// The process that a stuck process leads to, stuck as well.
fn next_stuck(parts: &Parts, turns: &[u32], p: u32) -> u32
    requires indices { (at : Place) → NamesWhatIsThere (instance_of parts.now) at }
    requires turns { length turns.now ≡ length parts.now.processes.items }
    requires inside { p < length turns.now }
    requires no_turn { slice_index turns.now p ≡ 0 }
    requires stuck { AreStuck (instance_of parts.now) turns.now }
    ensures leads { Leads (instance_of parts.now) p result }
    ensures no_turn { slice_index turns.now result ≡ 0 }
    ensures inside { result < length turns.now }
{
    ahead(parts, turns, p).unwrap()
}

/// A closed walk over different stuck processes.
fn walk_from(
    alloc: Global,
    parts: &Parts,
    turns: &[u32],
    start: u32,
) -> Result<Vec<u32>, AllocError>
    requires limits { KeepsLimits (instance_of parts.now) }
    requires indices { (at : Place) → NamesWhatIsThere (instance_of parts.now) at }
    requires turns { length turns.now ≡ length parts.now.processes.items }
    requires inside { start < length turns.now }
    requires no_turn { slice_index turns.now start ≡ 0 }
    requires stuck { AreStuck (instance_of parts.now) turns.now }
    ensures walk { IfOk result (λ ps. IsClosedWalk (instance_of parts.now) ps.items) }
    ensures once { IfOk result (λ ps. HasNoRepeats ps.items) }
{
    let mut places = zeros(alloc, turns.len())?;
    let mut path = Vec::new(alloc);
    let mut at = start;
    while places[at as usize] == 0 {
        path.push(at)?;
        places[at as usize] = path.len() as u32;
        at = next_stuck(parts, turns, at);
    }
    let first = (places[at as usize] - 1) as usize;
    let walk = Vec::from_slice(alloc, &path.as_slice()[first..])?;
    Ok(walk)
}

/// The place of the least number.
fn least_place(numbers: &[u32]) -> usize
    requires { 0 < length numbers.now }
    ensures { IsFirstBest nat_lt numbers.now (length numbers.now) result }
{
    let mut best = 0;
    for i in 1..numbers.len() {
        if numbers[i] < numbers[best] {
            best = i;
        }
    }
    best
}

/// The closed walk, told from this place on.
fn told_from(alloc: Global, walk: &[u32], place: usize) -> Result<Vec<u32>, AllocError>
    requires { place < length walk.now }
    ensures { IfOk result (λ ps. ps.items ≡ drop place walk.now ++ take place walk.now) }
{
    let mut told = Vec::from_slice(alloc, &walk[place..])?;
    told.extend_from_slice(&walk[..place])?;
    Ok(told)
}

/// The first process without a turn.
fn first_stuck(turns: &[u32]) -> Option<usize>
    ensures found { IfSome result (λ p. (p < length turns.now) × (slice_index turns.now p ≡ 0)) }
    ensures none { IfNone result ((p : ℕ) → p < length turns.now → 0 < slice_index turns.now p) }
{
    for p in 0..turns.len() {
        if turns[p] == 0 {
            return Some(p);
        }
    }
    None
}

/// A cycle of links and messages, if there is one.
pub fn cycle(alloc: Global, parts: &Parts) -> Result<Option<Numbers>, AllocError>
    requires limits { KeepsLimits (instance_of parts.now) }
    requires indices { (at : Place) → NamesWhatIsThere (instance_of parts.now) at }
    ensures { IfOk result (λ found. MatchOption found
        (IsAcyclic (instance_of parts.now))
        (λ ps. IsCycle (instance_of parts.now) ps)) }
{
    let turns = turns(alloc, parts)?;
    match first_stuck(turns.as_slice()) {
        None => Ok(None),
        Some(start) => {
            let walk = walk_from(alloc, parts, turns.as_slice(), start as u32)?;
            let place = least_place(walk.as_slice());
            let told = told_from(alloc, walk.as_slice(), place)?;
            Ok(Some(Numbers::new(told)))
        }
    }
}
