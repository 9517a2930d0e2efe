//! The certificate of a tree that is given as pieces.

ghost use Rattle.std.specs.Prelude.{◌≡◌, ◌≢◌, ◌↔◌, IsTrue, IfOk, OnOk, IfErr, MatchBool, map};
ghost use Rattle.certificate.specs.Trees.{Trees, IsTree, trees_of};
ghost use Rattle.certificate.specs.Versions.{version_of_nodes, version_of_tree};
ghost use Rattle.search_trees.specs.declared.fault.GatherFault.TheVariants.{OutOfMemory};
ghost use Rattle.search_trees.specs.Trees.{IsTreeOf};
ghost use Rattle.search_trees.specs.Gathering.{AreShallow, HasGoal, HasLowLeaf, HasTreeNames, HaveGoals, IsFirstGatherFault, IsGathered};
ghost use Rattle.search_trees.specs.Order.{IsSorted, IsSound};

use crate::Piece;
use crate::fault::GatherFault;
use crate::names::{has_doubled_name, has_stray_name, lacks_name, sort_by_name};
use certificate::{Cert, Node, Version};
use std::alloc::Global;
use ttp_model::MemoryFault;

/// Whether a leaf's goal is at least the bound; a branch has none.
fn has_goal(node: &Node, low: u32) -> bool
    ensures { IsTrue result ↔ HasGoal low node.now }
{
    match node {
        Node::Branch(_) => true,
        Node::Leaf(leaf) => low <= leaf.goal,
    }
}

/// Whether a leaf's goal is below the bound.
fn has_low_leaf(pieces: &[Piece], low: u32) -> bool
    ensures { MatchBool result (HasLowLeaf low pieces.now) (HaveGoals low pieces.now) }
{
    for piece in pieces {
        if !has_goal(&piece.node, low) {
            return true;
        }
    }
    false
}

/// Whether pieces, in the order of their names, are a tree without low leaves.
fn judge(alloc: Global, pieces: &[Piece], low: u32) -> Result<(), GatherFault>
    requires { IsSorted pieces.now }
    ensures ok { OnOk result (IsSound low pieces.now) }
    ensures err { IfErr result (IsFirstGatherFault low pieces.now) }
{
    if has_doubled_name(pieces) {
        return Err(GatherFault::DoubledName);
    }
    if lacks_name(alloc, pieces)? {
        return Err(GatherFault::MissingName);
    }
    if has_stray_name(alloc, pieces)? {
        return Err(GatherFault::StrayName);
    }
    if has_low_leaf(pieces, low) {
        return Err(GatherFault::LowGoal);
    }
    Ok(())
}

/// The nodes of pieces, in their order, in a list that may have room for them, and in no more room than they take.
fn nodes_of(room: Vec<Node>, pieces: Vec<Piece>) -> Result<Vec<Node>, MemoryFault>
    ensures { IfOk result (λ nodes. nodes.items ≡ map (λ piece. piece.node) pieces.items) }
{
    let mut nodes = room;
    nodes.clear();
    nodes.reserve_exact(pieces.len())?;
    for piece in pieces {
        let Piece { node, .. } = piece;
        nodes.push(node)?;
    }
    nodes.shrink_to_fit();
    Ok(nodes)
}

/// The certificate of the tree whose nodes in preorder are those of the pieces, in their order, in the first version that has
/// all its lines.
fn certified(room: Vec<Node>, pieces: Vec<Piece>, low: u32) -> Result<Cert, GatherFault>
    requires { IsTree (trees_of (map (λ piece. piece.node) pieces.items)) }
    ensures ok { IfOk result
        (λ cert. cert ≡ record {
          version = version_of_nodes (map (λ piece. piece.node) pieces.items);
          low = low;
          tree = trees_of (map (λ piece. piece.node) pieces.items);
        }) }
    ensures err { IfErr result (λ fault. fault ≡ OutOfMemory) }
{
    let nodes = nodes_of(room, pieces)?;
    let version = Version::of_nodes(nodes.as_slice());
    Ok(Cert::new(version, low, nodes))
}

/// The certificate of this bound, in ticks, whose tree is that of the pieces, which may stand in any
/// order: the answer exactly where they are a tree and no leaf's goal is below the bound. Else the first
/// fault. Its version is the first where that allows all lines of the tree, and else the second. Names have at most as many
/// indices as a certificate has branches above a node.
///
/// Sorts the pieces and looks each name up twice. The nodes are moved, and memory is taken for their
/// list alone and for one name at a time.
pub fn gather(alloc: Global, pieces: Vec<Piece>, low: u32) -> Result<Cert, GatherFault>
    requires { AreShallow pieces.items }
    ensures ok { IfOk result (λ cert. IsGathered low pieces.items cert) }
    ensures err { IfErr result (IsFirstGatherFault low pieces.items) }
    // The certificate of a tree without low leaves, unless memory is refused.
    ensures only { (tree : Trees) → IsTreeOf pieces.items tree → HaveGoals low pieces.items
        → result ≢ Err OutOfMemory → result ≡ Ok (record { version = version_of_tree tree; low = low; tree = tree }) }
{
    let mut pieces = pieces;
    sort_by_name(&mut pieces);
    match judge(alloc, pieces.as_slice(), low) {
        Ok(()) => certified(Vec::new(alloc), pieces, low),
        Err(fault) => Err(fault),
    }
}

/// The certificate of this bound of pieces that are known to be a whole tree, with no leaf's goal below the bound, so that
/// nothing of it is looked for again. Its nodes take the room of a list, where that is enough; what is in the list goes.
///
/// Sorts the pieces, and takes no memory but for the nodes.
pub fn gather_whole(room: Vec<Node>, pieces: Vec<Piece>, low: u32) -> Result<Cert, GatherFault>
    requires shallow { AreShallow pieces.items }
    requires names { HasTreeNames pieces.items }
    requires goals { HaveGoals low pieces.items }
    ensures ok { IfOk result (IsGathered low pieces.items) }
    ensures err { IfErr result (λ fault. fault ≡ OutOfMemory) }
{
    let mut pieces = pieces;
    sort_by_name(&mut pieces);
    certified(room, pieces, low)
}
