//! How many branches stand among nodes?

ghost use Rattle.std.specs.Prelude.{◌≡◌, count_by};
ghost use Rattle.used_decisions.specs.Branches.{is_branch};

use certificate::Node;

fn is_branch(node: &Node) -> bool
    ensures { result ≡ is_branch node.now }
{
    match node {
        Node::Branch(_) => true,
        Node::Leaf(_) => false,
    }
}

/// How many of these nodes are branches. One pass.
pub fn branches_among(nodes: &[Node]) -> usize
    ensures { result ≡ count_by is_branch nodes.now }
{
    nodes.iter().filter(|node| is_branch(node)).count()
}
