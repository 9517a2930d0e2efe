//! Which bound do the leaves of a tree reach?

ghost use Rattle.std.specs.Prelude.{◌≡◌, ◌≤◌, ◌⊎◌, ◌<◌, ℕ, length, slice_index_or, min};
ghost use Rattle.certificate.specs.declared.node.Node.{Node};
ghost use Rattle.side_by_side.specs.Bounds.{lower, lowest};

use certificate::Node;

/// The lesser of a bound and what this node reaches.
fn lower(low: u32, node: &Node) -> u32
    ensures { result ≡ lower low node.now }
{
    match node {
        Node::Leaf(leaf) => low.min(leaf.goal),
        Node::Branch(_) => low,
    }
}

/// The least of a bound and the goals of these nodes' leaves.
pub fn lowest(most: u32, nodes: &[Node]) -> u32
    ensures { result ≡ lowest most nodes.now }
{
    let mut low = most;
    for node in nodes {
        low = lower(low, node);
    }
    low
}
