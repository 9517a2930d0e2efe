//! What stands at one place of a certificate's tree?

ghost use Rattle.std.specs.Prelude.{◌≡◌};
ghost use Rattle.certificate.specs.Trees.{children};
ghost use Rattle.certificate.specs.Lines.{node_lines};

use crate::branch::Branch;
use ttp_model::Leaf;

/// A branch of a certificate's tree, or a leaf. Nodes, processes and messages are named by their
/// indices in the instance.
#[derive(Drop)]
pub enum Node {
    /// The children stand below it, in order.
    Branch(Branch),
    /// Nothing is left below the leaf's goal.
    Leaf(Leaf),
}

impl Node {
    /// How many children the node has.
    pub fn children(&self) -> u32
        ensures { result ≡ children self.now }
    {
        match self {
            Node::Branch(branch) => branch.children,
            Node::Leaf(_) => 0,
        }
    }

    /// How many lines of a text the node takes: its own, and one for each of its steps.
    pub fn lines(&self) -> u64
        ensures { result ≡ node_lines self.now }
    {
        match self {
            Node::Branch(_) => 1,
            Node::Leaf(leaf) => 1 + leaf.steps.as_slice().len() as u64,
        }
    }
}
