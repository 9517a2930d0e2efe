//! How does an answer's bound not fall below that of the certificate from which the search went on?

ghost use Rattle.std.specs.Prelude.{◌≡◌, ◌≤◌, ◌⊎◌, ◌∷◌, [], IfOk};
ghost use Rattle.certificate.specs.Versions.{answer_version};
ghost use Rattle.tree_check.specs.Proofs.{Proves};
ghost use Rattle.side_by_side.specs.Bounds.{IsGreatestBound};
ghost use Rattle.side_by_side.specs.Joined.{IsJoinedTree};
ghost use Rattle.planner.specs.Answers.{best_of, cert_of, IsCalledOff};
ghost use Rattle.planner.specs.Onward.{IsProved, IsRaised};

use crate::end_tree::ended;
use certificate::{Cert, Node};
use search_workers::{Outcome, SolveFault};
use side_by_side::join_all;
use std::alloc::Global;
use ttp_model::{Instance, MemoryFault};
use used_decisions::copy_of_leaf;

fn copy_of(alloc: Global, node: &Node) -> Result<Node, MemoryFault>
    ensures { IfOk result (λ copy. copy ≡ node.now) }
{
    match node {
        Node::Branch(branch) => Ok(Node::Branch(*branch)),
        Node::Leaf(leaf) => Ok(Node::Leaf(copy_of_leaf(alloc, leaf)?)),
    }
}

/// The same certificate in memory of its own.
fn copied(alloc: Global, cert: &Cert) -> Result<Cert, MemoryFault>
    ensures { IfOk result (λ copy. copy ≡ cert.now) }
{
    let nodes = cert.nodes();
    let mut copies = Vec::new(alloc);
    copies.reserve_exact(nodes.len())?;
    for node in nodes {
        let copy = copy_of(alloc, node)?;
        copies.push(copy)?;
    }
    Ok(Cert::new(cert.version(), cert.low(), copies))
}

/// The certificate that both make together.
fn joined(alloc: Global, instance: &Instance, own: Cert, cert: &Cert) -> Result<Cert, MemoryFault>
    ensures tree { IfOk result (λ joined. IsJoinedTree instance.now (own ∷ cert.now ∷ []) joined.tree) }
    ensures bound { IfOk result (λ joined. IsGreatestBound instance.now joined.tree joined.low) }
    ensures version { IfOk result (λ joined. joined.version ≡ answer_version instance.now) }
{
    let given = copied(alloc, cert)?;
    let certs = vec![in alloc; own, given]?;
    match join_all(alloc, instance, certs.as_slice()) {
        Ok(joined) => Ok(joined),
        // Both are right, so that nothing else is told of them.
        Err(_) => Err(MemoryFault),
    }
}

/// The answer of a search that went on from a certificate, or, where its bound is below the certificate's, of both trees joined.
pub fn raised(
    alloc: Global,
    instance: &Instance,
    gap: u32,
    cert: &Cert,
    outcome: Outcome,
) -> Result<Outcome, SolveFault>
    requires own { IsProved instance.now outcome }
    requires proves { Proves instance.now cert.now }
    ensures told { IfOk result (λ answer. (answer ≡ outcome) ⊎ IsRaised instance.now gap cert.now outcome answer) }
    ensures proved { IfOk result (IsProved instance.now) }
    ensures no_lower { IfOk result (λ answer. cert.now.low ≤ (cert_of answer).low) }
    ensures best { IfOk result (λ answer. best_of answer ≡ best_of outcome) }
    ensures called_off { IfOk result (λ answer. IsCalledOff answer → IsCalledOff outcome) }
{
    let _nodes = instance.nodes();
    match outcome {
        Outcome::Optimal {
            plan,
            delay,
            cert: own,
        } => Ok(Outcome::Optimal {
            plan,
            delay,
            cert: own,
        }),
        Outcome::Infeasible { cert: own } => Ok(Outcome::Infeasible { cert: own }),
        Outcome::Stopped {
            why,
            low,
            best,
            cert: own,
        } => {
            if low < cert.low() {
                let both = joined(alloc, instance, own, cert)?;
                Ok(ended(instance, gap, why, best, both))
            } else {
                Ok(Outcome::Stopped {
                    why,
                    low,
                    best,
                    cert: own,
                })
            }
        }
    }
}
