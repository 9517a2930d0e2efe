//! What does a certificate have at a place, and which of several counts?

ghost use Rattle.std.specs.Prelude.{◌≡◌, ◌<◌, length};
ghost use Rattle.certificate.specs.Words.{head_of};
ghost use Rattle.certificate.specs.Trees.{preorder};
ghost use Rattle.side_by_side.specs.Found.{IsFound, better, exceeds, number_at, number_of, side_at, top_of};

use certificate::{Cert, Head, Node};

/// How far a certificate is passed: how many of its nodes, and below how many of the joined tree's branches it goes on.
#[derive(Clone, Copy)]
pub struct Side {
    pub passed: usize,
    pub level: usize,
}

/// Which lines are compared: those of leaves, by their goals, or those of branches, by what their certificates state.
#[derive(Clone, Copy)]
pub enum Compared {
    Goals,
    Bounds,
}

/// The best number so far, and the certificate that has it.
#[derive(Clone, Copy)]
pub struct Best {
    pub number: Option<usize>,
    pub most: Option<u32>,
}

/// What the line of a node says.
fn head_of(node: &Node) -> Head
    ensures { result ≡ head_of node.now }
{
    match node {
        Node::Branch(branch) => Head::OfBranch(*branch),
        Node::Leaf(leaf) => Head::OfLeaf(leaf.goal, leaf.steps.as_slice().len() as u32),
    }
}

/// The line of what stands on top at a place below so many branches, where these nodes have any there.
pub fn top_of(nodes: &[Node], side: Side, depth: usize) -> Option<Head>
    ensures { result ≡ top_of nodes.now side depth }
{
    if side.level < depth {
        return None;
    }
    if side.passed < nodes.len() {
        Some(head_of(&nodes[side.passed]))
    } else {
        None
    }
}

/// How far the certificate of this number is passed.
fn side_of(sides: &[Side], k: usize) -> Side
    requires { k < length sides.now }
    ensures { result ≡ side_at sides.now k }
{
    sides[k]
}

/// How many nodes of the certificate of this number are passed.
pub fn passed_of(sides: &[Side], k: usize) -> usize
    requires { k < length sides.now }
    ensures { result ≡ (side_at sides.now k).passed }
{
    let side = &sides[k];
    side.passed
}

/// What is compared of a line, in a certificate that states this bound.
fn number_of(wanted: Compared, low: u32, top: Option<Head>) -> Option<u32>
    ensures { result ≡ number_of wanted low top }
{
    match top {
        Some(Head::OfLeaf(goal, _)) => match wanted {
            Compared::Goals => Some(goal),
            Compared::Bounds => None,
        },
        Some(Head::OfBranch(_)) => match wanted {
            Compared::Goals => None,
            Compared::Bounds => Some(low),
        },
        None => None,
    }
}

/// Whether a number is greater than one, if there is one.
fn exceeds(number: u32, most: Option<u32>) -> bool
    ensures { result ≡ exceeds number most }
{
    match most {
        Some(most) => most < number,
        None => true,
    }
}

/// The better of what was best so far and what another certificate has.
fn better(best: Best, k: usize, own: Option<u32>) -> Best
    ensures { result ≡ better best k own }
{
    match own {
        Some(number) => {
            if exceeds(number, best.most) {
                Best {
                    number: Some(k),
                    most: Some(number),
                }
            } else {
                best
            }
        }
        None => best,
    }
}

/// Which certificate has the greatest number at a place below so many branches, if one has a greater one than there is above: the first
/// of these.
pub fn first_greatest(
    certs: &[Cert],
    sides: &[Side],
    depth: usize,
    wanted: Compared,
    above: Option<u32>,
) -> Option<usize>
    requires { length sides.now ≡ length certs.now }
    ensures { IsFound (length certs.now) (number_at certs.now sides.now depth wanted) above result }
{
    let mut best = Best {
        number: None,
        most: above,
    };
    for k in 0..certs.len() {
        let cert = &certs[k];
        let top = top_of(cert.nodes(), side_of(sides, k), depth);
        let own = number_of(wanted, cert.low(), top);
        best = better(best, k, own);
    }
    best.number
}
