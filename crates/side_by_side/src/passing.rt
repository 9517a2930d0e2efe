//! Who goes on below a branch, and how far is each certificate passed behind a place?

ghost use Rattle.std.specs.Prelude.{◌≡◌, ◌↔◌, ◌<◌, ◌≤◌, ◌-◌, ◌^◌, ◌++◌, ℕ, List, IfOk, IsTrue, drop, length, slice_index_or, false};
ghost use Rattle.certificate.specs.declared.branch.Branch.{Branch};
ghost use Rattle.certificate.specs.declared.node.Node.{Node};
ghost use Rattle.certificate.specs.declared.head.Head.TheVariants as head;
ghost use Rattle.certificate.specs.Trees.{Trees, AreTrees, preorder};
ghost use Rattle.side_by_side.specs.Joined.{certificate_at};
ghost use Rattle.side_by_side.specs.Found.{side_at, top_of};
ghost use Rattle.side_by_side.specs.Passing.{ArePassed, BeginsWithTree, GoesOn, IsPassed, MayBePassed, flag_at};

use crate::side::{Side, top_of};
use certificate::{Branch, Cert, Head, Node};
use std::alloc::Global;
use ttp_model::{Kind, MemoryFault};

fn is_kind(a: Kind, b: Kind) -> bool
    ensures { IsTrue result ↔ (a ≡ b) }
{
    a == b
}

fn is_same(a: Branch, b: Branch) -> bool
    ensures { IsTrue result ↔ (a ≡ b) }
{
    is_kind(a.kind, b.kind) && a.children == b.children
}

/// Whether a line is that of the branch that leads, if one does.
fn goes_on(top: Option<Head>, leads: Option<Branch>) -> bool
    ensures { IsTrue result ↔ GoesOn leads top }
{
    let Some(Head::OfBranch(own)) = top else {
        return false;
    };
    match leads {
        Some(branch) => is_same(own, branch),
        None => false,
    }
}

/// Which certificates go on below the branch that leads, if one does.
pub fn followers(
    alloc: Global,
    certs: &[Cert],
    sides: &[Side],
    depth: usize,
    leads: Option<Branch>,
) -> Result<Vec<bool>, MemoryFault>
    requires { length sides.now ≡ length certs.now }
    ensures count { IfOk result (λ flags. length flags.items ≡ length certs.now) }
    ensures each { IfOk result (λ flags. (k : ℕ) → k < length certs.now → IsTrue (flag_at flags.items k)
        ↔ GoesOn leads (top_of (preorder (certificate_at certs.now k).tree) (side_at sides.now k) depth)) }
{
    let mut flags = Vec::new(alloc);
    for k in 0..certs.len() {
        let top = top_of(certs[k].nodes(), sides[k], depth);
        flags.push(goes_on(top, leads))?;
    }
    Ok(flags)
}

/// How many nodes are passed behind the tree whose first node is the next one.
fn behind_tree(nodes: &[Node], passed: usize) -> usize
    requires { BeginsWithTree (drop passed nodes.now) }
    ensures { (tree : Trees) (more : List Node) → AreTrees 1 tree → drop passed nodes.now ≡ preorder tree ++ more
        → drop result nodes.now ≡ more }
{
    let _count = nodes.len();
    let mut due = 1usize;
    let mut at = passed;
    'nodes: while due > 0 {
        let children = nodes[at].children() as usize;
        due = due - 1 + children;
        at += 1;
    }
    at
}

/// How far a certificate is passed behind a place below so many branches: below its branch, where it goes on, and else behind its tree.
fn passed(nodes: &[Node], side: Side, depth: usize, goes_on: bool) -> Side
    requires depth { depth < 2 ^ 64 - 1 }
    requires tree { MayBePassed nodes.now side depth }
    ensures { IsPassed nodes.now depth goes_on side result }
{
    if side.level < depth {
        return side;
    }
    if goes_on {
        return Side {
            passed: side.passed + 1,
            level: depth + 1,
        };
    }
    Side {
        passed: behind_tree(nodes, side.passed),
        level: depth,
    }
}

/// Passes what each certificate has at a place below so many branches.
pub fn pass_all(certs: &[Cert], sides: &mut [Side], depth: usize, flags: &[bool])
    requires sides { length sides.old ≡ length certs.now }
    requires flags { length flags.now ≡ length certs.now }
    requires depth { depth < 2 ^ 64 - 1 }
    requires may { (k : ℕ) → k < length certs.now
        → MayBePassed (preorder (certificate_at certs.now k).tree) (side_at sides.old k) depth }
    ensures { ArePassed certs.now depth flags.now sides.old sides.new }
{
    for k in 0..certs.len() {
        sides[k] = passed(certs[k].nodes(), sides[k], depth, flags[k]);
    }
}
