//! Which nodes go, and which subtrees that were left needn't be worked?

use crate::pass::what_stays;
use certificate::Node;
use std::alloc::Global;
use ttp_model::{Instance, MemoryFault};

/// A flag for each node of a tree in preorder, where a subtree that was left is none: whether it goes with a branch that nothing below one of its
/// children uses. One pass, as `without_unused` takes.
pub fn left_out(
    alloc: Global,
    instance: &Instance,
    nodes: &[Option<&Node>],
) -> Result<Vec<bool>, MemoryFault> {
    let staying = what_stays(alloc, instance, nodes)?;
    let mut flags = Vec::new(alloc);
    flags.reserve_exact(nodes.len())?;
    let mut next = 0;
    for k in 0..nodes.len() {
        if next == k {
            next = staying.next(k);
        }
        flags.push(next != k)?;
        if next == k {
            next = k + 1;
        }
    }
    Ok(flags)
}
