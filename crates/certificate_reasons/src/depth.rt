//! How many branches stand one below another in a tree?

ghost use Rattle.std.specs.Prelude.{◌≡◌, IfOk, drop, reverse, take};
ghost use Rattle.certificate.specs.Trees.{levels, trees_of};
ghost use Rattle.certificate_reasons.specs.Heights.{highest};

use certificate::Node;
use std::alloc::{AllocError, Global};

/// Takes off so many heights, as far as there are any: the greatest of them, or 0.
fn take_highest(heights: &mut Vec<usize>, count: usize) -> usize
    ensures greatest { result ≡ highest (take count (reverse heights.old.items)) }
    ensures rest { reverse heights.new.items ≡ drop count (reverse heights.old.items) }
{
    let mut greatest = 0;
    for _k in 0..count {
        match heights.pop() {
            Some(height) => greatest = greatest.max(height),
            None => return greatest,
        }
    }
    greatest
}

/// How many nodes stand one below another at most, in the trees that have these nodes in preorder. Goes through them from
/// the last one, and keeps how many levels each tree has that stands beside the others so far.
pub fn levels(alloc: Global, nodes: &[Node]) -> Result<usize, AllocError>
    ensures { IfOk result (λ count. count ≡ levels (trees_of nodes.now)) }
{
    let mut heights = Vec::new(alloc);
    let mut left = nodes.len();
    while left > 0 {
        left -= 1;
        let below = take_highest(&mut heights, nodes[left].children() as usize);
        let height = below + 1;
        heights.push(height)?;
    }
    let count = heights.len();
    let all = take_highest(&mut heights, count);
    Ok(all)
}
