//! Which nodes does a certificate have once some of the constraints are left out?

use certificate::{Branch, Cert, Node};
use instance_variants::{Constraints, Flags};
use std::alloc::{AllocError, Global};
use ttp_model::{Kind, Leaf, MemoryFault, Step, Steps};

/// Where the links and messages stand that are kept by some constraints, once fewer are: nowhere where they are left out. Nothing rests on it.
#[derive(Drop)]
struct Renumbering<'a> {
    kept: &'a Constraints,
    fewer: &'a Constraints,
    links: Vec<Option<u32>>,
    messages: Vec<Option<u32>>,
}

/// Of each that is kept its place among those that still are.
fn new_places(alloc: Global, kept: &Flags, fewer: &Flags) -> Result<Vec<Option<u32>>, AllocError> {
    let mut places = Vec::new(alloc);
    let mut next = 0u32;
    for place in 0..kept.len() {
        if !kept.has(place) {
            continue;
        }
        if fewer.has(place) {
            places.push(Some(next))?;
            next = next.saturating_add(1);
        } else {
            places.push(None)?;
        }
    }
    Ok(places)
}

fn place_of(places: &[Option<u32>], index: u32) -> Option<u32> {
    match places.get(index as usize) {
        Some(place) => *place,
        None => None,
    }
}

/// Whether a flag is set that still is, or wasn't.
fn stays(kept: &Flags, fewer: &Flags, place: u32) -> bool {
    let place = place as usize;
    !kept.has(place) || fewer.has(place)
}

impl<'a> Renumbering<'a> {
    fn link(&self, l: u32) -> Option<u32> {
        place_of(self.links.as_slice(), l)
    }

    fn message(&self, m: u32) -> Option<u32> {
        place_of(self.messages.as_slice(), m)
    }

    /// A step by these places: none where it speaks of what is left out.
    fn step(&self, alloc: Global, step: &Step) -> Result<Option<Step>, MemoryFault> {
        match step {
            Step::EsLink(l) => Ok(self.link(*l).map(|l| Step::EsLink(l))),
            Step::LeLink(l) => Ok(self.link(*l).map(|l| Step::LeLink(l))),
            Step::EsArrive(m, q) => Ok(self.message(*m).map(|m| Step::EsArrive(m, *q))),
            Step::EsMessage(m, q) => Ok(self.message(*m).map(|m| Step::EsMessage(m, *q))),
            Step::LoSend(m) => Ok(self.message(*m).map(|m| Step::LoSend(m))),
            Step::LeMessage(m, q) => Ok(self.message(*m).map(|m| Step::LeMessage(m, *q))),
            Step::LeSend(m) => Ok(self.message(*m).map(|m| Step::LeSend(m))),
            Step::HiArrive(m, q) => Ok(self.message(*m).map(|m| Step::HiArrive(m, *q))),
            Step::XRound(m) => Ok(self.message(*m).map(|m| Step::XRound(m))),
            Step::XFrame(m) => Ok(self.message(*m).map(|m| Step::XFrame(m))),
            Step::XLate(m, r) => Ok(self.message(*m).map(|m| Step::XLate(m, *r))),
            Step::XMirror(m) => Ok(self.message(*m).map(|m| Step::XMirror(m))),
            Step::EsRelease(p) if !stays(&self.kept.releases, &self.fewer.releases, *p) => Ok(None),
            Step::LeOwn(p) if !stays(&self.kept.deadlines, &self.fewer.deadlines, *p) => Ok(None),
            Step::EsRelease(_)
            | Step::EsBefore(_, _)
            | Step::LeOwn(_)
            | Step::LeBefore(_, _)
            | Step::OrdWindow(_, _)
            | Step::OrdTwin(_, _)
            | Step::UsSettled(_)
            | Step::XWindow(_)
            | Step::XCycle(_)
            | Step::XLoad(_, _, _)
            | Step::XFrames(_, _, _)
            | Step::XChannel(_, _, _, _)
            | Step::XSilent(_, _) => Ok(Some(step.copied(alloc)?)),
        }
    }

    /// All steps of a leaf by these places.
    fn steps(&self, alloc: Global, steps: &[Step]) -> Result<Option<Steps>, MemoryFault> {
        let mut all = Vec::new(alloc);
        for step in steps {
            let Some(step) = self.step(alloc, step)? else {
                return Ok(None);
            };
            all.push(step)?;
        }
        if all.len() > u32::MAX as usize {
            return Ok(None);
        }
        Ok(Some(Steps::new(all)))
    }

    fn kind(&self, kind: Kind) -> Option<Kind> {
        match kind {
            Kind::Round(m, r) => self.message(m).map(|m| Kind::Round(m, r)),
            Kind::Chan(m) => self.message(m).map(|m| Kind::Chan(m)),
            Kind::Place | Kind::Cap(_) | Kind::Pair(_, _) => Some(kind),
        }
    }

    /// A node by these places, for a bound: a leaf's goal isn't below it.
    fn node(&self, alloc: Global, low: u32, node: &Node) -> Result<Option<Node>, MemoryFault> {
        match node {
            Node::Branch(branch) => {
                let kind = self.kind(branch.kind);
                Ok(kind.map(|kind| Node::Branch(Branch::new(kind, branch.children))))
            }
            Node::Leaf(leaf) => {
                let goal = leaf.goal.max(low);
                let steps = self.steps(alloc, leaf.steps.as_slice())?;
                Ok(steps.map(|steps| Node::Leaf(Leaf { goal, steps })))
            }
        }
    }
}

/// The nodes of a certificate for an instance by some constraints, once fewer of them are kept, for a bound: none where it speaks of one that
/// isn't.
pub fn renumbered(
    alloc: Global,
    kept: &Constraints,
    fewer: &Constraints,
    low: u32,
    cert: &Cert,
) -> Result<Option<Vec<Node>>, MemoryFault> {
    let renumbering = Renumbering {
        kept,
        fewer,
        links: new_places(alloc, &kept.links, &fewer.links)?,
        messages: new_places(alloc, &kept.messages, &fewer.messages)?,
    };
    let mut nodes = Vec::new(alloc);
    for node in cert.nodes() {
        let Some(node) = renumbering.node(alloc, low, node)? else {
            return Ok(None);
        };
        nodes.push(node)?;
    }
    Ok(Some(nodes))
}
