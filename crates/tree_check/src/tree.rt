//! Does a certificate prove its bound?

ghost use Rattle.std.specs.Prelude.{◌≡◌, ◌≢◌, ◌+◌, ◌++◌, ◌∷◌, [], List, IfErr, IfOk, OnOk, Ok, Err};
ghost use Rattle.ttp_model.specs.Delays.{HasNoPlan, IsLowerBound};
ghost use Rattle.tt_choice.specs.Choice.{Choice, bare};
ghost use Rattle.tt_choice.specs.Branches.{root_choice};
ghost use Rattle.tree_check.specs.declared.fault.CertFault.TheVariants.{OutOfMemory};
ghost use Rattle.tree_check.specs.Proofs.{AreProofs, Proves, Suits, choices_below};
ghost use Rattle.tree_check.specs.Faults.{IsJudged};
ghost use Rattle.tree_check.specs.Turns.{IsWalk};
ghost use Rattle.tree_check.specs.Seen.{TellsFirst, TellsNode};

use crate::fault::CertFault;
use crate::leaf::judge_leaf;
use crate::walk::Walk;
use certificate::{Cert, Node};
use std::alloc::Global;
use tt_infer::Facts;
use ttp_model::Instance;

/// The bound of a certificate that proves it, in ticks: no plan of the instance has a smaller delay,
/// whoever made the certificate, and none is valid where the bound is past the horizon. Else the
/// first fault: a bound that is too great, then what is first wrong in the tree, each node in front
/// of those below it.
///
/// Takes memory for one path of the tree, with the choices beside it as decisions, and for the facts of one leaf. A pass over
/// the nodes, a copy of a choice for each leaf, and each step once.
pub fn check(alloc: Global, instance: &Instance, cert: &Cert) -> Result<u32, CertFault>
    ensures answer { IsJudged instance.now cert.now result }
    ensures only { Proves instance.now cert.now → result ≢ Err OutOfMemory → result ≡ Ok cert.now.low }
    ensures bound { IfOk result (λ low. IsLowerBound instance.now low) }
    ensures none { IfOk result
        (λ low. low ≡ instance.now.cluster.horizon + 1 → HasNoPlan instance.now) }
{
    if cert.low() > instance.past_horizon() {
        return Err(CertFault::LowTooGreat);
    }
    match go_through(alloc, instance, cert) {
        Ok(()) => Ok(cert.low()),
        Err(fault) => Err(fault),
    }
}

/// Judges a node that stands on this line, at the walk's choice, a leaf in the room of facts. The choices that it leads to are
/// next: none below a leaf.
fn judge<'a>(
    alloc: Global,
    instance: &'a Instance,
    low: u32,
    walk: &mut Walk,
    room: Facts<'a>,
    node: &Node,
    line: u64,
) -> Result<Facts<'a>, CertFault>
    requires walk { (left : List Choice) × IsWalk instance.now walk.old left }
    requires room { room.instance ≡ instance.now }
    ensures room { IfOk result (λ facts. facts.instance ≡ instance.now) }
    ensures suits { OnOk result (Suits instance.now low (bare walk.old.choice) node.now) }
    ensures below { OnOk result ((left : List Choice) → IsWalk instance.now walk.old left
        → IsWalk instance.now walk.new (choices_below instance.now (bare walk.old.choice) node.now ++ left)) }
    ensures err { IfErr result (TellsNode instance.now low (bare walk.old.choice) node.now line) }
{
    match node {
        Node::Branch(branch) => {
            walk.branch(alloc, instance, branch, line)?;
            Ok(room)
        }
        Node::Leaf(leaf) => {
            let steps = leaf.steps.as_slice();
            judge_leaf(room, low, walk.choice(), leaf.goal, steps, line)
        }
    }
}

/// Goes through the nodes of the tree.
fn go_through(alloc: Global, instance: &Instance, cert: &Cert) -> Result<(), CertFault>
    ensures ok { OnOk result
        (AreProofs instance.now cert.now.low (root_choice instance.now ∷ []) cert.now.tree) }
    ensures err { IfErr result (TellsFirst instance.now cert.now.low cert.now.tree) }
{
    let nodes = cert.nodes();
    let low = cert.low();
    let mut walk = Walk::new(alloc, instance)?;
    let mut room = Facts::new(alloc, instance, walk.choice(), low)?;
    let mut line = 3u64;
    for k in 0..nodes.len() {
        let node = &nodes[k];
        walk.go_on(alloc, instance)?;
        room = judge(alloc, instance, low, &mut walk, room, node, line)?;
        line = line.saturating_add(node.lines());
    }
    Ok(())
}
