//! Which indices are of nothing that is there.

ghost use Rattle.std.specs.Prelude.{◌<◌, ◌↔◌, All, IsTrue, length};
ghost use Rattle.ttp_model.specs.Lists.{FindsFailure};
ghost use Rattle.ttp_model.specs.Instance.{node_of, link_at, message_at};
ghost use Rattle.ttp_model.specs.Parts.{instance_of};
ghost use Rattle.ttp_model.specs.Rules.{IsProcess, KeepsLimits, NamesWhatIsThere};
ghost use Rattle.ttp_model.specs.Searches.{FindsPlace};

use crate::error::Place;
use crate::parts::Parts;

/// The first process on a node that is not there.
fn misplaced_process(parts: &Parts) -> Option<u32>
    requires { KeepsLimits (instance_of parts.now) }
    ensures { FindsFailure (length parts.now.processes.items)
        (λ p. node_of (instance_of parts.now) p < length parts.now.nodes.items) result }
{
    for p in 0..parts.processes.len() {
        if parts.processes[p].node as usize >= parts.nodes.len() {
            return Some(p as u32);
        }
    }
    None
}

/// The first link of a process that is not there.
fn dangling_link(parts: &Parts) -> Option<u32>
    requires { KeepsLimits (instance_of parts.now) }
    ensures { FindsFailure (length parts.now.links.items)
        (λ l. IsProcess (instance_of parts.now) (link_at (instance_of parts.now) l).before
        × IsProcess (instance_of parts.now) (link_at (instance_of parts.now) l).after) result }
{
    let count = parts.processes.len();
    for l in 0..parts.links.len() {
        let link = parts.links[l];
        if link.before as usize >= count || link.after as usize >= count {
            return Some(l as u32);
        }
    }
    None
}

/// Whether each number is the index of one of so many processes.
fn are_processes(indices: &[u32], count: usize) -> bool
    ensures { IsTrue result ↔ All (λ q. q < count) indices.now }
{
    indices.iter().all(|q| (*q as usize) < count)
}

/// The first message from or to a process that is not there.
fn dangling_message(parts: &Parts) -> Option<u32>
    requires { KeepsLimits (instance_of parts.now) }
    ensures { FindsFailure (length parts.now.messages.items)
        (λ m. IsProcess (instance_of parts.now) (message_at (instance_of parts.now) m).sender
        × All (IsProcess (instance_of parts.now)) (message_at (instance_of parts.now) m).receivers) result }
{
    let count = parts.processes.len();
    for m in 0..parts.messages.len() {
        let message = &parts.messages[m];
        if message.sender as usize >= count || !are_processes(message.receivers.as_slice(), count) {
            return Some(m as u32);
        }
    }
    None
}

/// The first place with an index that is not there.
pub fn missing(parts: &Parts) -> Option<Place>
    requires { KeepsLimits (instance_of parts.now) }
    ensures { FindsPlace (NamesWhatIsThere (instance_of parts.now)) result }
{
    if let Some(p) = misplaced_process(parts) {
        return Some(Place::AtProcess(p));
    }
    if let Some(l) = dangling_link(parts) {
        return Some(Place::AtLink(l));
    }
    if let Some(m) = dangling_message(parts) {
        return Some(Place::AtMessage(m));
    }
    None
}
