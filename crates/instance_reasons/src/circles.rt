//! Why are processes refused that wait for each other?

ghost use Rattle.std.specs.Prelude.{◌≡◌, ◌<◌, ◌↔◌, IfOk, IsTrue, MatchOption, length};
ghost use Rattle.ttp_model.specs.Graph.{HasLink, HasMessage, IsClosedWalk, Leads};
ghost use Rattle.ttp_model.specs.Names.{message_name};
ghost use Rattle.ttp_model.specs.Parts.{instance_of};
ghost use Rattle.instance_reasons.specs.Circles.{IsCircle, IsCircleStep, IsFirstLink, IsFirstMessage, IsJoin, MessageLeads, before_at};

use crate::parts::process_name;
use sentences::Word::{Number, Told};
use sentences::{MOST_ITEMS, Member, tell, write_members, write_members_and};
use serde::{Described, Serialize, Serializer};
use std::alloc::{AllocError, Global};
use std::fmt;
use std::fmt::Display;
use ttp_model::Parts;

/// By what a process waits for another one.
#[derive(Clone, Copy)]
pub enum Join<'a> {
    /// The first link between them, by its index from 0.
    Link(u64),
    /// The first message, where there is no link.
    Message(&'a str),
}

impl<'a> Join<'a> {
    /// As a member of an object.
    fn member(self) -> Member<'a> {
        match self {
            Join::Link(link) => Member::NumberOf("link", link),
            Join::Message(message) => Member::ToldOf("message", message),
        }
    }
}

/// A process with the one that it waits for.
#[derive(Clone, Copy)]
pub struct CircleStep<'a> {
    pub process: &'a str,
    pub other: &'a str,
    pub by: Join<'a>,
}

/// Processes of which each waits for the one before it, and the first for the last.
#[derive(Drop)]
pub struct Circle<'a> {
    pub steps: Vec<CircleStep<'a>>,
}

/// Why these processes are refused. Takes memory for them; a pass over links and messages for each.
pub fn circle_of<'a>(
    alloc: Global,
    parts: &'a Parts,
    processes: &[u32],
) -> Result<Circle<'a>, AllocError>
    requires { IsClosedWalk (instance_of parts.now) processes.now }
    ensures { IfOk result (IsCircle (instance_of parts.now) processes.now) }
{
    let mut steps = Vec::new(alloc);
    for k in 0..processes.len() {
        steps.push(circle_step(parts, processes, k))?;
    }
    Ok(Circle { steps })
}

/// What process waits for which at a place of a circle.
fn circle_step<'a>(parts: &'a Parts, processes: &[u32], k: usize) -> CircleStep<'a>
    requires walk { IsClosedWalk (instance_of parts.now) processes.now }
    requires inside { k < length processes.now }
    ensures { IsCircleStep (instance_of parts.now) processes.now k result }
{
    let p = before_at(processes, k);
    let q = processes[k];
    CircleStep {
        process: process_name(parts, q),
        other: process_name(parts, p),
        by: join_of(parts, p, q),
    }
}

/// The process in front of the k-th of a circle, and the last in front of the first.
fn before_at(processes: &[u32], k: usize) -> u32
    requires { k < length processes.now }
    ensures { result ≡ before_at processes.now k }
{
    if k == 0 {
        processes[processes.len() - 1]
    } else {
        processes[k - 1]
    }
}

/// By what process `q` waits for process `p`.
fn join_of(parts: &Parts, p: u32, q: u32) -> Join<'_>
    requires { Leads (instance_of parts.now) p q }
    ensures { IsJoin (instance_of parts.now) p q result }
{
    match first_link(parts, p, q) {
        Some(l) => Join::Link(l as u64),
        None => {
            let m = first_message(parts, p, q);
            Join::Message(name_of(parts, m))
        }
    }
}

/// The name of message `m`.
fn name_of(parts: &Parts, m: usize) -> &str
    requires { m < length (instance_of parts.now).messages }
    ensures { result.now ≡ message_name (instance_of parts.now) m }
{
    parts.messages[m].name.as_str()
}

/// The first link from one process to the other.
fn first_link(parts: &Parts, p: u32, q: u32) -> Option<usize>
    ensures { MatchOption result (¬ HasLink (instance_of parts.now) p q) (IsFirstLink (instance_of parts.now) p q) }
{
    for l in 0..parts.links.len() {
        let link = parts.links[l];
        if link.before == p && link.after == q {
            return Some(l);
        }
    }
    None
}

/// The first message.
fn first_message(parts: &Parts, p: u32, q: u32) -> usize
    requires { HasMessage (instance_of parts.now) p q }
    ensures { IsFirstMessage (instance_of parts.now) p q result }
{
    for m in 0..parts.messages.len() {
        if message_leads(parts, p, q, m) {
            return m;
        }
    }
    unreachable!()
}

/// Whether message `m` leads from one process to the other.
fn message_leads(parts: &Parts, p: u32, q: u32, m: usize) -> bool
    requires { m < length (instance_of parts.now).messages }
    ensures { IsTrue result ↔ MessageLeads (instance_of parts.now) p q m }
{
    let message = &parts.messages[m];
    message.sender == p && message.receivers.contains(q)
}

impl<'a> Described for CircleStep<'a> {}

impl<'a> Serialize for CircleStep<'a> {
    fn serialize<S: Serializer>(&self, out: &mut S) -> Result<(), S::Error> {
        write_members(
            &[
                ("process", Member::Told(self.process)),
                ("other", Member::Told(self.other)),
                ("by", self.by.member()),
            ],
            out,
        )
    }
}

impl<'a> fmt::Display for CircleStep<'a> {
    fn fmt<W: fmt::Write>(&self, f: &mut fmt::Formatter<W>) -> fmt::Result {
        tell(f, "  {}, for {}", &[Told(self.process), Told(self.other)])?;
        match self.by {
            Join::Link(link) => tell(f, " by link {}\n", &[Number(link)]),
            Join::Message(message) => tell(f, " by message {}\n", &[Told(message)]),
        }
    }
}

impl<'a> Described for Circle<'a> {}

impl<'a> Serialize for Circle<'a> {
    fn serialize<S: Serializer>(&self, out: &mut S) -> Result<(), S::Error> {
        write_members_and(&[], "steps", &self.steps, out)
    }
}

impl<'a> fmt::Display for Circle<'a> {
    fn fmt<W: fmt::Write>(&self, f: &mut fmt::Formatter<W>) -> fmt::Result {
        f.write_str("Each of these waits for the one before it, and the first for the last:\n")?;
        let steps = self.steps.as_slice();
        let count = steps.len();
        for k in 0..count.min(MOST_ITEMS) {
            steps[k].fmt(f)?;
        }
        if MOST_ITEMS < count {
            let more = count - MOST_ITEMS;
            tell(f, "  and {} more\n", &[Number(more as u64)])?;
        }
        Ok(())
    }
}
