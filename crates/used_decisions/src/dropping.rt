//! Which smaller tree proves the same bound?

ghost use Rattle.std.specs.Prelude.{◌≡◌, ◌≤◌, IfOk, IfSome};
ghost use Rattle.certificate.specs.Trees.{preorder};
ghost use Rattle.tree_check.specs.Proofs.{Proves};
ghost use Rattle.used_decisions.specs.Branches.{branches};

use crate::branches::branches_among;
use crate::copies::copies;
use crate::heights::is_tree;
use crate::pass::what_stays;
use crate::standing::{Standing, sort_by_name};
use certificate::{Cert, Node, Version};
use std::alloc::Global;
use tree_check::check;
use ttp_model::{Instance, MemoryFault};

/// A certificate of this version and of a bound, in ticks, with these nodes in preorder, where they are a tree that proves it.
pub fn accepted(
    alloc: Global,
    instance: &Instance,
    version: Version,
    low: u32,
    nodes: Vec<Node>,
) -> Result<Option<Cert>, MemoryFault>
    ensures proves { IfOk result (λ found. IfSome found (Proves instance.now)) }
    ensures version { IfOk result (λ found. IfSome found (λ cert. cert.version ≡ version)) }
    ensures low { IfOk result (λ found. IfSome found (λ cert. cert.low ≡ low)) }
    ensures nodes { IfOk result (λ found. IfSome found (λ cert. preorder cert.tree ≡ nodes.items)) }
{
    if !is_tree(alloc, nodes.as_slice())? {
        return Ok(None);
    }
    let cert = Cert::new(version, low, nodes);
    match check(alloc, instance, &cert) {
        Ok(_) => Ok(Some(cert)),
        Err(_) => Ok(None),
    }
}

/// A certificate of this version and of a bound with at most so many branches, where what is left of a tree in preorder proves it.
fn left_of(
    alloc: Global,
    instance: &Instance,
    version: Version,
    low: u32,
    nodes: &[Option<&Node>],
    most: usize,
) -> Result<Option<Cert>, MemoryFault>
    ensures proves { IfOk result (λ found. IfSome found (Proves instance.now)) }
    ensures low { IfOk result (λ found. IfSome found (λ cert. cert.low ≡ low)) }
    ensures version { IfOk result (λ found. IfSome found (λ cert. cert.version ≡ version)) }
    ensures few { IfOk result (λ found. IfSome found (λ cert. branches cert.tree ≤ most)) }
{
    let staying = what_stays(alloc, instance, nodes)?;
    let Some(left) = copies(alloc, nodes, &staying)? else {
        return Ok(None);
    };
    if branches_among(left.as_slice()) > most {
        return Ok(None);
    }
    accepted(alloc, instance, version, low, left)
}

/// The nodes of a tree: none of its subtrees was left.
fn all_of(alloc: Global, nodes: &[Node]) -> Result<Vec<Option<&Node>>, MemoryFault> {
    let mut all = Vec::with_capacity(alloc, nodes.len())?;
    for node in nodes {
        all.push(Some(node))?;
    }
    Ok(all)
}

/// The nodes that stand one after another, or none where a subtree was left.
fn nodes_of<'a>(
    alloc: Global,
    standing: &[Standing<'a>],
) -> Result<Vec<Option<&'a Node>>, MemoryFault> {
    let mut nodes = Vec::with_capacity(alloc, standing.len())?;
    for one in standing {
        nodes.push(one.node)?;
    }
    Ok(nodes)
}

/// A certificate of the same version and bound with no more branches, where the pass finds one that proves it.
fn smaller(alloc: Global, instance: &Instance, cert: &Cert) -> Result<Option<Cert>, MemoryFault>
    ensures proves { IfOk result (λ found. IfSome found (Proves instance.now)) }
    ensures version { IfOk result (λ found. IfSome found (λ other. other.version ≡ cert.now.version)) }
    ensures low { IfOk result (λ found. IfSome found (λ other. other.low ≡ cert.now.low)) }
    ensures fewer { IfOk result (λ found. IfSome found (λ other. branches other.tree ≤ branches cert.now.tree)) }
{
    let nodes = cert.nodes();
    let all = all_of(alloc, nodes)?;
    left_of(
        alloc,
        instance,
        cert.version(),
        cert.low(),
        all.as_slice(),
        branches_among(nodes),
    )
}

/// A certificate of the same version and bound, without branches that nothing below one of their children uses: that child stands in the
/// branch's place. The same certificate where memory is refused, or where the check doesn't accept what is left.
///
/// One pass over the nodes, and a check of what is left. Takes memory for a place of each node, for the sets of branches that
/// those of one path use, for copies of the nodes that stay, and for the check.
pub fn without_unused(alloc: Global, instance: &Instance, cert: Cert) -> Cert
    requires { Proves instance.now cert }
    ensures proves { Proves instance.now result }
    ensures version { result.version ≡ cert.version }
    ensures low { result.low ≡ cert.low }
    ensures fewer { branches result.tree ≤ branches cert.tree }
{
    match smaller(alloc, instance, &cert) {
        Ok(Some(smaller)) => smaller,
        Ok(None) | Err(_) => cert,
    }
}

/// A certificate of this version and of a bound, in ticks, without branches that nothing below one of their children uses, of a tree that a search
/// made, where the subtrees that it left aren't needed: none where one of them is, where more than `most` branches are left, or
/// where the check doesn't accept what is left. The nodes may stand in any order.
///
/// Sorts them by their names; for the rest the same as `without_unused`.
pub fn proof_of(
    alloc: Global,
    instance: &Instance,
    version: Version,
    low: u32,
    standing: Vec<Standing>,
    most: usize,
) -> Result<Option<Cert>, MemoryFault>
    ensures proves { IfOk result (λ found. IfSome found (Proves instance.now)) }
    ensures version { IfOk result (λ found. IfSome found (λ cert. cert.version ≡ version)) }
    ensures low { IfOk result (λ found. IfSome found (λ cert. cert.low ≡ low)) }
    ensures few { IfOk result (λ found. IfSome found (λ cert. branches cert.tree ≤ most)) }
{
    let mut standing = standing;
    sort_by_name(&mut standing)?;
    let nodes = nodes_of(alloc, standing.as_slice())?;
    drop(standing);
    left_of(alloc, instance, version, low, nodes.as_slice(), most)
}
