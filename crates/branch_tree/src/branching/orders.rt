//! Which two processes have an order in which no plan is left?

ghost use Rattle.std.specs.Prelude.{◌≡◌, IfOk, IsTrue};
ghost use Rattle.tt_choice.specs.Branches.{IsUnorderedPair};
ghost use Rattle.branch_tree.specs.Branching.{MayBranch};

use crate::branching::overlaps::overlapping_pairs;
use crate::tries::Tries;
use search_trees::Propagator;
use std::alloc::Global;
use ttp_model::{Instance, Kind, MOST_NODES, MemoryFault};

/// How many pairs are tried on each node: a guess.
const TRIED: u32 = 16;

/// The branch on two processes in one of whose orders no plan is left: the first that is found among the tightest pairs of
/// each node, of which the order with less slack is tried, where one of them can run at other times than when it was tried
/// last. The order without plans comes last.
pub fn closing_pair(
    alloc: Global,
    instance: &Instance,
    reached: &mut Propagator,
    tries: &mut Tries,
) -> Result<Option<Kind>, MemoryFault>
    requires { reached.old.instance ≡ instance.now }
    ensures same { reached.new ≡ reached.old }
    ensures branch { IfOk result (MayBranch instance.now reached.old.current.facts.choice) }
{
    let facts = reached.facts();
    let pairs = overlapping_pairs(alloc, instance, facts.choice(), facts)?;
    let mut tried = [0u32; MOST_NODES];
    for pair in pairs.as_slice() {
        // No other kind comes of pairs that overlap.
        if let Kind::Pair(q, p) = pair.kind {
            if is_one_more(instance, &mut tried, p)
                && tries.is_new(alloc, reached.facts(), p, q)?
                && closes(alloc, instance, reached, p, q)?
            {
                return Ok(Some(Kind::Pair(q, p)));
            }
        }
    }
    Ok(None)
}

/// Whether few pairs were tried on the node of process `p` so far. Counts one more.
fn is_one_more(instance: &Instance, tried: &mut [u32], p: u32) -> bool {
    if (p as usize) >= instance.processes().len() {
        return false;
    }
    let node = instance.node_of(p as usize) as usize;
    if node >= tried.len() || tried[node] >= TRIED {
        return false;
    }
    tried[node] += 1;
    true
}

/// Whether two processes are in neither order, and no plan is left where `p` goes before `q`.
fn closes(
    alloc: Global,
    instance: &Instance,
    reached: &mut Propagator,
    p: u32,
    q: u32,
) -> Result<bool, MemoryFault>
    requires { reached.old.instance ≡ instance.now }
    ensures same { reached.new ≡ reached.old }
    ensures is_open { IfOk result (λ closes.
        IsTrue closes → IsUnorderedPair instance.now reached.old.current.facts.choice q p) }
{
    let facts = reached.facts();
    if !facts.choice().is_open(instance, &Kind::Pair(p, q)) {
        return Ok(false);
    }
    let supposition = reached.suppose(alloc, p, q)?;
    let closed = supposition.facts().closed();
    reached.release(supposition);
    Ok(closed)
}
