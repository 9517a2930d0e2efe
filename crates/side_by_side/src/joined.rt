//! Which certificate do several of one instance make together?

ghost use Rattle.std.specs.Prelude.{◌≡◌, ◌<◌, ◌≤◌, ℕ, IfErr, IfOk, length};
ghost use Rattle.ttp_model.specs.Delays.{IsLowerBound};
ghost use Rattle.certificate.specs.Trees.{IsTree, trees_of};
ghost use Rattle.certificate.specs.Versions.{answer_version, Allows};
ghost use Rattle.side_by_side.specs.declared.fault.JoinFault.TheVariants.{OutOfMemory};
ghost use Rattle.side_by_side.specs.Bounds.{IsGreatestBound, IsRight};
ghost use Rattle.side_by_side.specs.Faults.{IsJoinFault};
ghost use Rattle.side_by_side.specs.Found.{side_at};
ghost use Rattle.side_by_side.specs.Joined.{IsJoinedTree, own_trees};

use crate::fault::JoinFault;
use crate::joining::Joining;
use crate::low::lowest;
use crate::side::Side;
use certificate::{Cert, Node, Version};
use std::alloc::Global;
use ttp_model::{Instance, MemoryFault};

/// In front of each certificate's first node.
fn starts(alloc: Global, certs: &[Cert]) -> Result<Vec<Side>, MemoryFault>
    ensures count { IfOk result (λ sides. length sides.items ≡ length certs.now) }
    ensures trees { IfOk result (λ _. (k : ℕ) → k < length certs.now → IsTree (own_trees certs.now k)) }
    ensures each { IfOk result (λ sides. (k : ℕ) → k < length certs.now → side_at sides.items k ≡ record { passed = 0; level = 0 }) }
{
    let mut sides = Vec::new(alloc);
    for k in 0..certs.len() {
        let _nodes = certs[k].nodes();
        sides.push(Side {
            passed: 0,
            level: 0,
        })?;
    }
    Ok(sides)
}

/// The certificate that certificates of one instance, at least one, make together: at each place the branch of the one with the
/// greatest stated bound, of those that have a branch there, and where there is none the best leaf. What goes into its tree is judged
/// where it stands; what doesn't isn't judged, and no bound that is stated is believed. Its bound, in ticks, is the greatest that its
/// tree proves, at most one past the horizon; its version that of the certificates that answer for the instance.
///
/// A fault is the first that is met. Takes memory for one path of the tree, the numbers of the certificates, and the joined tree; each
/// step that goes into it is taken once, and again wherever its leaf stands below other branches.
pub fn join_all(alloc: Global, instance: &Instance, certs: &[Cert]) -> Result<Cert, JoinFault>
    requires { 0 < length certs.now }
    ensures tree { IfOk result (λ cert. IsJoinedTree instance.now certs.now cert.tree) }
    ensures low { IfOk result (λ cert. IsGreatestBound instance.now cert.tree cert.low) }
    ensures version { IfOk result (λ cert. cert.version ≡ answer_version instance.now) }
    ensures allowed { IfOk result (λ cert. Allows cert.version cert.tree) }
    ensures bound { IfOk result (λ cert. IsLowerBound instance.now cert.low) }
    ensures fault { IfErr result (IsJoinFault instance.now certs.now) }
{
    let nodes = joined_nodes(alloc, instance, certs)?;
    let low = lowest(instance.past_horizon(), nodes.as_slice());
    Ok(Cert::new(Version::of_answers(instance), low, nodes))
}

/// The nodes of their joined tree.
fn joined_nodes(alloc: Global, instance: &Instance, certs: &[Cert]) -> Result<Vec<Node>, JoinFault>
    requires { 0 < length certs.now }
    ensures tree { IfOk result (λ nodes. IsTree (trees_of nodes.items)) }
    ensures joined { IfOk result (λ nodes. IsJoinedTree instance.now certs.now (trees_of nodes.items)) }
    ensures right { IfOk result (λ nodes. IsRight instance.now (trees_of nodes.items)) }
    ensures fault { IfErr result (IsJoinFault instance.now certs.now) }
{
    let sides = starts(alloc, certs)?;
    let mut joining = Joining::new(alloc, instance, certs, sides)?;
    joining.places(alloc)?;
    Ok(joining.into_nodes())
}
