//! Of which constraints does a certificate speak?

use certificate::{Cert, Node};
use instance_variants::{Constraint, Constraints, Flags};
use std::alloc::{AllocError, Global};
use ttp_model::{Instance, Kind, Leaf, MemoryFault, Step, has_flag, put_flag};

/// Of which constraints of an instance the branches and steps of a certificate speak, by flags. Nothing rests on it.
#[derive(Drop)]
pub struct Mentions {
    horizon: bool,
    deadlines: Vec<bool>,
    releases: Vec<bool>,
    links: Vec<bool>,
    messages: Vec<bool>,
}

/// The instance of a certificate: one by some of its constraints alone, with where the links and messages stand that are kept.
#[derive(Drop)]
struct Site<'a> {
    instance: &'a Instance,
    kept: &'a Constraints,
    links: &'a [usize],
    messages: &'a [usize],
}

/// The places that are kept, in their order.
fn places(alloc: Global, flags: &Flags) -> Result<Vec<usize>, AllocError> {
    let mut places = Vec::new(alloc);
    for place in 0..flags.len() {
        if flags.has(place) {
            places.push(place)?;
        }
    }
    Ok(places)
}

/// So many flags, none of which is set.
fn unset(alloc: Global, count: usize) -> Result<Vec<bool>, AllocError> {
    let mut flags = Vec::new(alloc);
    flags.resize(count, false)?;
    Ok(flags)
}

/// Sets the flag of what has this index among those that are kept.
fn set_kept(flags: &mut [bool], places: &[usize], index: u32) {
    let index = index as usize;
    if index < places.len() {
        put_flag(flags, places[index], true);
    }
}

impl Mentions {
    /// None at first.
    fn none(alloc: Global, instance: &Instance) -> Result<Self, AllocError> {
        Ok(Mentions {
            horizon: false,
            deadlines: unset(alloc, instance.processes().len())?,
            releases: unset(alloc, instance.processes().len())?,
            links: unset(alloc, instance.links().len())?,
            messages: unset(alloc, instance.messages().len())?,
        })
    }

    /// Those of a certificate of the instance by the constraints that are kept.
    pub fn by(
        alloc: Global,
        instance: &Instance,
        kept: &Constraints,
        cert: &Cert,
    ) -> Result<Self, MemoryFault> {
        let links = places(alloc, &kept.links)?;
        let messages = places(alloc, &kept.messages)?;
        let site = Site {
            instance,
            kept,
            links: links.as_slice(),
            messages: messages.as_slice(),
        };
        let mut named = Mentions::none(alloc, instance)?;
        for node in cert.nodes() {
            named.add_node(&site, node);
        }
        Ok(named)
    }

    /// Whether it speaks of one: of a message also where that is to be on both channels.
    pub fn has(&self, constraint: Constraint) -> bool {
        match constraint {
            Constraint::Horizon => self.horizon,
            Constraint::Deadline(p) => has_flag(&self.deadlines, p),
            Constraint::Release(p) => has_flag(&self.releases, p),
            Constraint::Link(l) => has_flag(&self.links, l),
            Constraint::Message(m) => has_flag(&self.messages, m),
            Constraint::Both(m) => has_flag(&self.messages, m),
        }
    }

    fn add_node(&mut self, site: &Site<'_>, node: &Node) {
        match node {
            Node::Branch(branch) => self.add_kind(site, branch.kind),
            Node::Leaf(leaf) => self.add_leaf(site, leaf),
        }
    }

    fn add_kind(&mut self, site: &Site<'_>, kind: Kind) {
        match kind {
            Kind::Round(m, _) | Kind::Chan(m) => set_kept(&mut self.messages, site.messages, m),
            Kind::Place | Kind::Cap(_) | Kind::Pair(_, _) => {}
        }
    }

    /// A leaf that speaks of no deadline rests on the horizon.
    fn add_leaf(&mut self, site: &Site<'_>, leaf: &Leaf) {
        let mut has_deadline = false;
        for step in leaf.steps.as_slice() {
            if self.add_step(site, step) {
                has_deadline = true;
            }
        }
        if !has_deadline {
            self.horizon = true;
        }
    }

    /// Adds what a step names, and says whether that is a deadline.
    fn add_step(&mut self, site: &Site<'_>, step: &Step) -> bool {
        match step {
            Step::EsRelease(p) => {
                put_flag(&mut self.releases, *p as usize, true);
            }
            Step::LeOwn(p) => {
                put_flag(&mut self.deadlines, *p as usize, true);
                return site.kept.deadlines.has(*p as usize);
            }
            Step::EsLink(l) | Step::LeLink(l) => set_kept(&mut self.links, site.links, *l),
            Step::EsArrive(m, _)
            | Step::EsMessage(m, _)
            | Step::LoSend(m)
            | Step::LeMessage(m, _)
            | Step::LeSend(m)
            | Step::HiArrive(m, _)
            | Step::XRound(m)
            | Step::XFrame(m)
            | Step::XLate(m, _)
            | Step::XMirror(m) => set_kept(&mut self.messages, site.messages, *m),
            Step::XFrames(n, _, _) | Step::XChannel(_, n, _, _) => self.add_frames(site, *n),
            Step::EsBefore(_, _)
            | Step::LeBefore(_, _)
            | Step::OrdWindow(_, _)
            | Step::OrdTwin(_, _)
            | Step::UsSettled(_)
            | Step::XWindow(_)
            | Step::XCycle(_)
            | Step::XLoad(_, _, _)
            | Step::XSilent(_, _) => {}
        }
        false
    }

    /// All messages of a node may be in its frames.
    fn add_frames(&mut self, site: &Site<'_>, n: u32) {
        for m in site.instance.messages_of(n) {
            put_flag(&mut self.messages, *m as usize, true);
        }
    }
}
