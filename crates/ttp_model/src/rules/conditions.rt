//! Which conditions between the parts of an instance are broken.

ghost use Rattle.std.specs.Prelude.{◌≢◌, ◌<◌, ◌↔◌, ℕ, All, IsTrue, length, slice_index_or};
ghost use Rattle.ttp_model.specs.Lists.{FindsFailure, HasNoRepeats};
ghost use Rattle.ttp_model.specs.Instance.{no_process};
ghost use Rattle.ttp_model.specs.Parts.{instance_of};
ghost use Rattle.ttp_model.specs.Rules.{KeepsLimits, NamesWhatIsThere, IsInRange, SendsAway, CanEndInTime, StaysOnNode, ReceivesOnce};
ghost use Rattle.ttp_model.specs.declared.error.Place.{Place};
ghost use Rattle.ttp_model.specs.declared.error.Place.TheVariants.{AtLink, AtMessage};

use crate::parts::{Parts, Process};

/// Whether no receiver is on the node.
fn are_away(receivers: &[u32], processes: &[Process], node: u32) -> bool
    requires { All (λ q. q < length processes.now) receivers.now }
    ensures { IsTrue result ↔ All (λ q. (slice_index_or processes.now q no_process).node ≢ node) receivers.now }
{
    for q in receivers {
        if processes[*q as usize].node == node {
            return false;
        }
    }
    true
}

/// The first message with a receiver on the sender's node.
pub fn receiver_on_sender(parts: &Parts) -> Option<u32>
    requires limits { KeepsLimits (instance_of parts.now) }
    requires indices { (m : ℕ) → NamesWhatIsThere (instance_of parts.now) (AtMessage m) }
    ensures { FindsFailure (length parts.now.messages.items) (SendsAway (instance_of parts.now)) result }
{
    for m in 0..parts.messages.len() {
        let message = &parts.messages[m];
        let node = parts.processes[message.sender as usize].node;
        if !are_away(message.receivers.as_slice(), &parts.processes, node) {
            return Some(m as u32);
        }
    }
    None
}

/// The first process that cannot meet its deadline.
pub fn late_process(parts: &Parts) -> Option<u32>
    requires limits { KeepsLimits (instance_of parts.now) }
    requires ranges { (at : Place) → IsInRange (instance_of parts.now) at }
    ensures { FindsFailure (length parts.now.processes.items) (CanEndInTime (instance_of parts.now)) result }
{
    for p in 0..parts.processes.len() {
        let process = &parts.processes[p];
        if u64::from(process.release) + u64::from(process.wcet) > u64::from(process.deadline) {
            return Some(p as u32);
        }
    }
    None
}

/// The first link that is not between two processes of one node.
pub fn link_across(parts: &Parts) -> Option<u32>
    requires limits { KeepsLimits (instance_of parts.now) }
    requires indices { (l : ℕ) → NamesWhatIsThere (instance_of parts.now) (AtLink l) }
    ensures { FindsFailure (length parts.now.links.items) (StaysOnNode (instance_of parts.now)) result }
{
    for l in 0..parts.links.len() {
        let link = parts.links[l];
        let before = parts.processes[link.before as usize].node;
        let after = parts.processes[link.after as usize].node;
        if link.before == link.after || before != after {
            return Some(l as u32);
        }
    }
    None
}

/// Whether no number stands twice.
fn has_no_repeats(numbers: &[u32]) -> bool
    ensures { IsTrue result ↔ HasNoRepeats numbers.now }
{
    for k in 0..numbers.len() {
        for j in 0..k {
            if numbers[j] == numbers[k] {
                return false;
            }
        }
    }
    true
}

/// The first message with a receiver that stands twice.
pub fn receiver_twice(parts: &Parts) -> Option<u32>
    requires { KeepsLimits (instance_of parts.now) }
    ensures { FindsFailure (length parts.now.messages.items) (ReceivesOnce (instance_of parts.now)) result }
{
    for m in 0..parts.messages.len() {
        if !has_no_repeats(parts.messages[m].receivers.as_slice()) {
            return Some(m as u32);
        }
    }
    None
}
