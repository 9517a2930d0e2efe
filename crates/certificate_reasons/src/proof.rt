//! How does a certificate prove its bound?

ghost use Rattle.std.specs.Prelude.{IfOk};
ghost use Rattle.tt_choice.specs.Branches.{root_choice};
ghost use Rattle.tt_infer.specs.Leaves.{ClosesLeaf};
ghost use Rattle.tree_check.specs.Proofs.{Proves};
ghost use Rattle.certificate_reasons.specs.Leaves.{IsLeafReason};
ghost use Rattle.certificate_reasons.specs.Proofs.{IsProof, IsProofReason, IsTreeProof};

use crate::leaves::{LeafReason, leaf_reason};
use crate::sizes::{TreeSize, tree_size};
use crate::whole::read_whole;
use certificate::{Cert, Node};
use std::alloc::Global;
use std::fmt;
use std::fmt::Display;
use tt_choice::Choice;
use ttp_model::{Instance, Leaf, MemoryFault};

/// How a certificate proves its bound.
#[derive(Drop)]
pub enum ProofReason<'a> {
    /// By one leaf alone.
    Leaf(LeafReason<'a>),
    /// By a tree with branches.
    Tree(TreeSize),
}

/// How a leaf closes the choice of all plans.
fn root_leaf_reason<'a>(
    alloc: Global,
    instance: &'a Instance,
    leaf: &Leaf,
) -> Result<LeafReason<'a>, MemoryFault>
    requires { ClosesLeaf instance.now (root_choice instance.now) leaf.now }
    ensures { IfOk result (IsLeafReason instance.now (root_choice instance.now) leaf.now) }
{
    let choice = Choice::root(alloc, instance)?;
    leaf_reason(alloc, instance, &choice, leaf)
}

/// How a certificate that is read proves its bound.
fn tree_proof<'a>(
    alloc: Global,
    instance: &'a Instance,
    cert: &Cert,
) -> Result<ProofReason<'a>, MemoryFault>
    requires { Proves instance.now cert.now }
    ensures { IfOk result (IsTreeProof instance.now cert.now.tree) }
{
    let nodes = cert.nodes();
    match &nodes[0] {
        Node::Leaf(leaf) => Ok(ProofReason::Leaf(root_leaf_reason(alloc, instance, leaf)?)),
        Node::Branch(_) => Ok(ProofReason::Tree(tree_size(alloc, cert)?)),
    }
}

/// How the certificate of a text proves its bound: of one leaf alone what each step says, and of a tree how large it is. Takes memory for
/// the certificate, and for what is known at the leaf and told of it, or a number for each leaf of the tree.
pub fn proof_reason<'a>(
    alloc: Global,
    instance: &'a Instance,
    certificate: &[u8],
) -> Result<ProofReason<'a>, MemoryFault>
    requires { IsProof instance.now certificate.now }
    ensures { IfOk result (IsProofReason instance.now certificate.now) }
{
    let cert = read_whole(alloc, certificate)?;
    let reason = tree_proof(alloc, instance, &cert)?;
    drop(cert);
    Ok(reason)
}

impl<'a> fmt::Display for ProofReason<'a> {
    fn fmt<W: fmt::Write>(&self, f: &mut fmt::Formatter<W>) -> fmt::Result {
        match self {
            ProofReason::Leaf(reason) => reason.fmt(f),
            ProofReason::Tree(size) => size.fmt(f),
        }
    }
}
