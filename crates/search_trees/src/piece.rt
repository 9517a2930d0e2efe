//! What became of a node of the tree?

use crate::name::Name;
use certificate::Node;

/// A node of the tree that was worked: its name, and the branch whose children stand below it, or
/// the leaf that closes it.
#[derive(Drop)]
pub struct Piece {
    pub name: Name,
    pub node: Node,
}
