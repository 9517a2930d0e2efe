//! What stands at an index of the parts of an instance that is refused, if anything does?

ghost use Rattle.std.specs.Prelude.{◌≡◌};
ghost use Rattle.ttp_model.specs.Instance.{link_at, message_at, node_at, node_of, process_at};
ghost use Rattle.ttp_model.specs.Names.{message_name, node_name, place_name, process_name};
ghost use Rattle.ttp_model.specs.Parts.{instance_of};
ghost use Rattle.instance_reasons.specs.Spots.{name_at};

use ttp_model::{Link, Parts, Place};

/// The name of a node, or an empty one where it isn't there.
pub fn node_name(parts: &Parts, n: u32) -> &str
    ensures { result.now ≡ node_name (instance_of parts.now) n }
{
    let n = n as usize;
    if n < parts.nodes.len() {
        parts.nodes[n].name.as_str()
    } else {
        ""
    }
}

/// The capacities of a node, in bytes, or none where it isn't there.
pub fn capacities_of(parts: &Parts, n: u32) -> &[u32]
    ensures { result.now ≡ (node_at (instance_of parts.now) n).capacities }
{
    let n = n as usize;
    if n < parts.nodes.len() {
        parts.nodes[n].capacities.as_slice()
    } else {
        &[]
    }
}

/// The name of a process, or an empty one where it isn't there.
pub fn process_name(parts: &Parts, p: u32) -> &str
    ensures { result.now ≡ process_name (instance_of parts.now) p }
{
    let p = p as usize;
    if p < parts.processes.len() {
        parts.processes[p].name.as_str()
    } else {
        ""
    }
}

/// The node of a process, in numbers: 0 where it isn't there.
pub fn node_of(parts: &Parts, p: u32) -> u32
    ensures { result ≡ node_of (instance_of parts.now) p }
{
    let p = p as usize;
    if p < parts.processes.len() {
        parts.processes[p].node
    } else {
        0
    }
}

/// The name of the node that a process is on.
pub fn place_name(parts: &Parts, p: u32) -> &str
    ensures { result.now ≡ place_name (instance_of parts.now) p }
{
    node_name(parts, node_of(parts, p))
}

/// The times of a process, in ticks.
#[derive(Clone, Copy)]
pub struct Times {
    pub wcet: u32,
    pub release: u32,
    pub deadline: u32,
}

/// Those of a process, or 0 where it isn't there.
pub fn times_of(parts: &Parts, p: u32) -> Times
    ensures wcet { result.wcet ≡ (process_at (instance_of parts.now) p).wcet }
    ensures release { result.release ≡ (process_at (instance_of parts.now) p).release }
    ensures deadline { result.deadline ≡ (process_at (instance_of parts.now) p).deadline }
{
    let p = p as usize;
    if p < parts.processes.len() {
        Times {
            wcet: parts.processes[p].wcet,
            release: parts.processes[p].release,
            deadline: parts.processes[p].deadline,
        }
    } else {
        Times {
            wcet: 0,
            release: 0,
            deadline: 0,
        }
    }
}

/// The ends of a link, or process 0 where it isn't there.
pub fn link_at(parts: &Parts, l: u32) -> Link
    ensures { result ≡ link_at (instance_of parts.now) l }
{
    let l = l as usize;
    if l < parts.links.len() {
        parts.links[l]
    } else {
        Link {
            before: 0,
            after: 0,
        }
    }
}

/// The name of a message, or an empty one where it isn't there.
pub fn message_name(parts: &Parts, m: u32) -> &str
    ensures { result.now ≡ message_name (instance_of parts.now) m }
{
    let m = m as usize;
    if m < parts.messages.len() {
        parts.messages[m].name.as_str()
    } else {
        ""
    }
}

/// The sender of a message, or process 0 where it isn't there.
pub fn sender_of(parts: &Parts, m: u32) -> u32
    ensures { result ≡ (message_at (instance_of parts.now) m).sender }
{
    let m = m as usize;
    if m < parts.messages.len() {
        parts.messages[m].sender
    } else {
        0
    }
}

/// The receivers of a message, or none where it isn't there.
pub fn receivers_of(parts: &Parts, m: u32) -> &[u32]
    ensures { result.now ≡ (message_at (instance_of parts.now) m).receivers }
{
    let m = m as usize;
    if m < parts.messages.len() {
        parts.messages[m].receivers.as_slice()
    } else {
        &[]
    }
}

/// The bytes of a message, or 0 where it isn't there.
pub fn bytes_of(parts: &Parts, m: u32) -> u32
    ensures { result ≡ (message_at (instance_of parts.now) m).bytes }
{
    let m = m as usize;
    if m < parts.messages.len() {
        parts.messages[m].bytes
    } else {
        0
    }
}

/// The name at a place, or an empty one where it has none.
pub fn name_at(parts: &Parts, place: Place) -> &str
    ensures { result.now ≡ name_at (instance_of parts.now) place }
{
    match place {
        Place::AtNode(n) => node_name(parts, n),
        Place::AtProcess(p) => process_name(parts, p),
        Place::AtMessage(m) => message_name(parts, m),
        Place::AtCluster | Place::AtLink(_) => "",
    }
}
