//! Which nodes stand at the places that stay?

ghost use Rattle.std.specs.Prelude.{◌≡◌, IfOk};

use crate::pass::Staying;
use certificate::Node;
use std::alloc::Global;
use ttp_model::{Leaf, MemoryFault, Steps};

/// The same leaf in memory of its own.
pub fn copy_of_leaf(alloc: Global, leaf: &Leaf) -> Result<Leaf, MemoryFault>
    ensures { IfOk result (λ copy. copy ≡ leaf.now) }
{
    let steps = leaf.steps.as_slice();
    let mut copies = Vec::new(alloc);
    copies.reserve_exact(steps.len())?;
    for step in steps {
        let copy = step.copied(alloc)?;
        copies.push(copy)?;
    }
    Ok(Leaf {
        goal: leaf.goal,
        steps: Steps::new(copies),
    })
}

fn copy_of(alloc: Global, node: &Node) -> Result<Node, MemoryFault>
    ensures { IfOk result (λ copy. copy ≡ node.now) }
{
    match node {
        Node::Branch(branch) => Ok(Node::Branch(*branch)),
        Node::Leaf(leaf) => Ok(Node::Leaf(copy_of_leaf(alloc, leaf)?)),
    }
}

/// Copies of the nodes that stay; none where a subtree stays that was left.
pub fn copies(
    alloc: Global,
    nodes: &[Option<&Node>],
    staying: &Staying,
) -> Result<Option<Vec<Node>>, MemoryFault> {
    let mut copies = Vec::new(alloc);
    copies.reserve_exact(staying.count)?;
    let mut k = 0;
    while k < nodes.len() {
        let next = staying.next(k);
        if next > k {
            k = next;
        } else {
            let Some(node) = nodes[k] else {
                return Ok(None);
            };
            let copy = copy_of(alloc, node)?;
            copies.push(copy)?;
            k += 1;
        }
    }
    Ok(Some(copies))
}
