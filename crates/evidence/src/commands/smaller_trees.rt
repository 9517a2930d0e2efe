//! What does a certificate prove that was made smaller?

ghost use Rattle.std.specs.Prelude.{◌≡◌, ◌≤◌, IfOk, IfSome};
ghost use Rattle.tree_check.specs.Proofs.{Proves};

use certificate::{Cert, Node, Version};
use std::alloc::Global;
use ttp_model::{Instance, MemoryFault};
use used_decisions::{Standing, accepted, branches_among, proof_of, without_unused};

/// The bound, in ticks, of nodes that were accepted and then made fewer: the one that was asked for.
pub fn bound_is_the_one_asked_for(
    alloc: Global,
    instance: &Instance,
    version: Version,
    low: u32,
    nodes: Vec<Node>,
) -> Result<Option<u32>, MemoryFault>
    ensures { IfOk result (λ found. IfSome found (λ bound. bound ≡ low)) }
{
    let Some(cert) = accepted(alloc, instance, version, low, nodes)? else {
        return Ok(None);
    };
    Ok(Some(without_unused(alloc, instance, cert).low()))
}

/// A certificate that is given for what a search made is a proof.
pub fn tree_that_is_given_is_a_proof(
    alloc: Global,
    instance: &Instance,
    version: Version,
    low: u32,
    standing: Vec<Standing>,
    most: usize,
) -> Result<Option<Cert>, MemoryFault>
    ensures { IfOk result (λ found. IfSome found (Proves instance.now)) }
{
    proof_of(alloc, instance, version, low, standing, most)
}

/// How many branches it has: as few as were asked for.
pub fn branches_are_few_enough(
    alloc: Global,
    instance: &Instance,
    version: Version,
    low: u32,
    standing: Vec<Standing>,
    most: usize,
) -> Result<Option<usize>, MemoryFault>
    ensures { IfOk result (λ found. IfSome found (λ count. count ≤ most)) }
{
    let Some(cert) = proof_of(alloc, instance, version, low, standing, most)? else {
        return Ok(None);
    };
    Ok(Some(branches_among(cert.nodes())))
}
