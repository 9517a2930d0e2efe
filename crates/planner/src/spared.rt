//! Which of the open leaves of a certificate needn't be worked?

use certificate::{Cert, Node};
use std::alloc::Global;
use ttp_model::{Instance, MemoryFault, has_flag};
use used_decisions::left_out;

/// A node that stays closed at this goal; none of a leaf that is open again.
fn closed(node: &Node, aim: u32) -> Option<&Node> {
    match node {
        Node::Branch(_) => Some(node),
        Node::Leaf(leaf) => { if leaf.goal < aim { None } else { Some(node) } }
    }
}

/// The flags of those nodes that are none.
fn flags_of_open(
    alloc: Global,
    nodes: &[Option<&Node>],
    flags: &[bool],
) -> Result<Vec<bool>, MemoryFault> {
    let mut open = Vec::new(alloc);
    for k in 0..nodes.len() {
        if nodes[k].is_none() {
            open.push(has_flag(flags, k))?;
        }
    }
    Ok(open)
}

/// A flag for each leaf of a certificate that is open again at a goal, in ticks: whether it needn't be worked, since beside it, or beside a branch above
/// it, a child is closed without the decision that leads there. No answer rests on it. One pass over the nodes.
pub fn spared_leaves(
    alloc: Global,
    instance: &Instance,
    cert: &Cert,
    aim: u32,
) -> Result<Vec<bool>, MemoryFault> {
    let mut nodes = Vec::new(alloc);
    for node in cert.nodes() {
        nodes.push(closed(node, aim))?;
    }
    let flags = left_out(alloc, instance, nodes.as_slice())?;
    flags_of_open(alloc, nodes.as_slice(), flags.as_slice())
}
