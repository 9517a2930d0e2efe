//! How large is a certificate's tree?

ghost use Rattle.std.specs.Prelude.{◌≡◌, IfOk};
ghost use Rattle.certificate.specs.Words.{branch_words};
ghost use Rattle.certificate_reasons.specs.Sizes.{IsTreeSize, has_keyword, keyword, nodes_with, step_count, told_steps};

use crate::depth::levels;
use certificate::{Branch, Cert, Node};
use sentences::Word::{Count, Number};
use sentences::{Counted, tell};
use std::alloc::Global;
use std::fmt;
use ttp_model::{Kind, MemoryFault};

/// How many branches of each kind a tree has, how many leaves and steps, and how many branches stand one above another.
#[derive(Clone, Copy)]
pub struct TreeSize {
    pub place: u64,
    pub cap: u64,
    pub pair: u64,
    pub round: u64,
    pub chan: u64,
    pub leaves: u64,
    /// A number past the greatest one of 64 bits is told as that.
    pub steps: u64,
    /// How many branches stand above a leaf, at most.
    pub above: u64,
}

/// The keyword of a branch's line.
fn branch_keyword(branch: &Branch) -> &'static str
    ensures { result.now ≡ (branch_words branch.now.kind branch.now.children).0 }
{
    match branch.kind {
        Kind::Place => "place",
        Kind::Cap(_) => "cap",
        Kind::Pair(_, _) => "pair",
        Kind::Round(_, _) => "round",
        Kind::Chan(_) => "chan",
    }
}

/// The keyword of a node's line.
fn keyword(node: &Node) -> &'static str
    ensures { result.now ≡ keyword node.now }
{
    match node {
        Node::Branch(branch) => branch_keyword(branch),
        Node::Leaf(_) => "leaf",
    }
}

/// Whether a node's line has this keyword.
fn has_keyword(node: &Node, word: &str) -> bool
    ensures { result ≡ has_keyword word.now node.now }
{
    keyword(node).as_bytes() == word.as_bytes()
}

/// How many nodes have a line with this keyword.
fn nodes_with(nodes: &[Node], word: &str) -> usize
    ensures { result ≡ nodes_with word.now nodes.now }
{
    nodes.iter().filter(|node| has_keyword(node, word)).count()
}

/// How many steps a node has.
fn step_count(node: &Node) -> usize
    ensures { result ≡ step_count node.now }
{
    match node {
        Node::Branch(_) => 0,
        Node::Leaf(leaf) => leaf.steps.as_slice().len(),
    }
}

/// How many steps all of them have.
fn steps_in(nodes: &[Node]) -> u64
    ensures { result ≡ told_steps nodes.now }
{
    let mut count = 0u64;
    for node in nodes {
        count = count.saturating_add(step_count(node) as u64);
    }
    count
}

/// How large a certificate's tree is. Seven passes over its nodes, and memory for a number for each leaf.
pub fn tree_size(alloc: Global, cert: &Cert) -> Result<TreeSize, MemoryFault>
    ensures { IfOk result (IsTreeSize cert.now.tree) }
{
    let nodes = cert.nodes();
    let levels = levels(alloc, nodes)?;
    Ok(TreeSize {
        place: nodes_with(nodes, "place") as u64,
        cap: nodes_with(nodes, "cap") as u64,
        pair: nodes_with(nodes, "pair") as u64,
        round: nodes_with(nodes, "round") as u64,
        chan: nodes_with(nodes, "chan") as u64,
        leaves: nodes_with(nodes, "leaf") as u64,
        steps: steps_in(nodes),
        above: levels.saturating_sub(1) as u64,
    })
}

/// So many of something.
fn counted(number: u64, one: &'static str, many: &'static str) -> Counted {
    Counted { number, one, many }
}

impl fmt::Display for TreeSize {
    fn fmt<W: fmt::Write>(&self, f: &mut fmt::Formatter<W>) -> fmt::Result {
        let (cap, pair, round, chan) = (self.cap, self.pair, self.round, self.chan);
        let place = counted(self.place, "branch", "branches");
        let leaves = counted(self.leaves, "leaf", "leaves");
        let steps = counted(self.steps, "step", "steps");
        let above = counted(self.above, "branch", "branches");
        tell(
            f,
            "Its tree has {} of place, {} of cap, {} of pair, {} of round and {} of chan, {} with {}, and at most {} above a leaf.\n",
            &[
                Count(place),
                Number(cap),
                Number(pair),
                Number(round),
                Number(chan),
                Count(leaves),
                Count(steps),
                Count(above),
            ],
        )
    }
}
