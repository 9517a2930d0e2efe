//! Are nodes in preorder one tree that is low enough?

ghost use Rattle.std.specs.Prelude.{◌≡◌, ◌≤◌, ◌+◌, ◌∷◌, [], ℕ, max, IfOk, IfSome, IsTrue};
ghost use Rattle.certificate.specs.Limits.{most_branches_above};
ghost use Rattle.certificate.specs.Trees.{IsTree, trees_of};
ghost use Rattle.used_decisions.specs.Heights.{AreTaken};

use certificate::{MOST_BRANCHES_ABOVE, Node};
use std::alloc::Global;
use ttp_model::MemoryFault;

fn higher(a: usize, b: usize) -> usize
    ensures { result ≡ max a b }
{
    if a < b { b } else { a }
}

/// Takes so many heights off, the last first. The greatest of them, or none where there are too few.
fn take_off(heights: &mut Vec<usize>, count: u32) -> Option<usize>
    ensures { IfSome result (λ most. AreTaken count most heights.old.items heights.new.items) }
{
    let mut most = 0;
    for _k in 0..count {
        let height = heights.pop()?;
        most = higher(most, height);
    }
    Some(most)
}

/// Whether these nodes, each in front of those below it, are one tree in which each node has just its children, and few enough
/// branches above it. One pass from the last node on; takes memory for the trees that stand side by side there.
pub fn is_tree(alloc: Global, nodes: &[Node]) -> Result<bool, MemoryFault>
    ensures { IfOk result (λ is. IsTrue is → IsTree (trees_of nodes.now)) }
{
    let mut heights = Vec::new(alloc);
    let mut left = nodes.len();
    while left > 0 {
        left -= 1;
        match take_off(&mut heights, nodes[left].children()) {
            Some(most) if most <= MOST_BRANCHES_ABOVE => heights.push(most + 1)?,
            _ => return Ok(false),
        }
    }
    Ok(is_low(heights.as_slice()))
}

/// Whether there is one height, which a tree may have.
fn is_low(heights: &[usize]) -> bool
    ensures { IsTrue result → (height : ℕ) × (heights.now ≡ height ∷ []) × (height ≤ most_branches_above + 1) }
{
    match heights {
        [height] => *height <= MOST_BRANCHES_ABOVE + 1,
        _ => false,
    }
}
