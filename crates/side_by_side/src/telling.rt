//! Which nodes stand there, and how is told what is wrong with one?

ghost use Rattle.std.specs.Prelude.{◌≡◌, ◌<◌, ◌≤◌, length, Option};
ghost use Rattle.ttp_model.specs.declared.step.Leaf.{Leaf};
ghost use Rattle.ttp_model.specs.Instance.{Instance};
ghost use Rattle.tt_choice.specs.Choice.{Choice};
ghost use Rattle.certificate.specs.declared.branch.Branch.{Branch};
ghost use Rattle.certificate.specs.Lines.{line_of};
ghost use Rattle.tree_check.specs.Faults.{told_line};
ghost use Rattle.side_by_side.specs.Faults.{IsJoinFault, TellsOwn};
ghost use Rattle.side_by_side.specs.Found.{goal_of};
ghost use Rattle.side_by_side.specs.Joining.{HasBranch, HasLeaf, IsSpot};

use crate::fault::JoinFault;
use crate::frame::NodePlace;
use certificate::{Branch, Cert, Node};
use tree_check::CertFault;
use ttp_model::Leaf;

/// The leaf that stands there.
pub fn leaf_at(certs: &[Cert], spot: NodePlace) -> &Leaf
    requires { (leaf : Leaf) × HasLeaf certs.now spot leaf }
    ensures { (leaf : Leaf) → HasLeaf certs.now spot leaf → result.now ≡ leaf }
{
    match &certs[spot.certificate].nodes()[spot.node] {
        Node::Leaf(leaf) => leaf,
        Node::Branch(_) => unreachable!(),
    }
}

/// The branch that stands there.
pub fn branch_at(certs: &[Cert], spot: NodePlace) -> Branch
    requires { (branch : Branch) × HasBranch certs.now spot branch }
    ensures { (branch : Branch) → HasBranch certs.now spot branch → result ≡ branch }
{
    match &certs[spot.certificate].nodes()[spot.node] {
        Node::Branch(branch) => *branch,
        Node::Leaf(_) => unreachable!(),
    }
}

/// The goal of the leaf from above, if there is one.
pub fn goal_of(certs: &[Cert], above: Option<NodePlace>) -> Option<u32>
    requires { (leaf : Option Leaf) × IsSpot certs.now above leaf }
    ensures { (leaf : Option Leaf) → IsSpot certs.now above leaf → result ≡ goal_of leaf }
{
    match above {
        Some(spot) => Some(leaf_at(certs, spot).goal),
        None => None,
    }
}

/// The line of the node at this place, from 0, as it is told.
fn line_at(nodes: &[Node], place: usize) -> u64
    requires { place ≤ length nodes.now }
    ensures { result ≡ told_line (line_of nodes.now place) }
{
    let mut line = 3u64;
    for k in 0..place {
        line = line.saturating_add(nodes[k].lines());
    }
    line
}

/// What is wrong with the node at this place of a certificate, of which this is told by itself.
pub fn told(certs: &[Cert], certificate: usize, place: usize, fault: CertFault) -> JoinFault
    requires { (i : Instance) × (c : Choice) × TellsOwn i certs.now certificate place c fault }
    ensures { (i : Instance) (c : Choice) → TellsOwn i certs.now certificate place c fault → IsJoinFault i certs.now result }
{
    match fault {
        CertFault::At { line, fault } => JoinFault::At {
            certificate,
            line: line_at(certs[certificate].nodes(), place).saturating_add(line),
            fault,
        },
        CertFault::OutOfMemory => JoinFault::OutOfMemory,
        CertFault::LowTooGreat => unreachable!(),
    }
}
