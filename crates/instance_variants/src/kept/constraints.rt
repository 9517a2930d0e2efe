//! Which constraints are kept of an instance?

ghost use Rattle.std.specs.Prelude.{◌≡◌, ◌++◌, IfOk, OnOk, map};
ghost use Rattle.instance_variants.specs.Constraints.{all_of, has_deadline, has_release, is_on_both, listed, listed_of, of_kind, without, without_all};

use super::flags::Flags;
use std::alloc::{AllocError, Global};
use ttp_model::{Instance, MOST_TICKS, MemoryFault, Message, Process};

/// One constraint of an instance, those of a list by their index.
#[derive(Clone, Copy, PartialEq, Eq)]
pub enum Constraint {
    /// That all ends are within the horizon.
    Horizon,
    /// That a process ends by its deadline.
    Deadline(usize),
    /// That a process starts at its release or later.
    Release(usize),
    /// That a link's second process starts after its first.
    Link(usize),
    /// That a message is sent and received.
    Message(usize),
    /// That a message is on both channels.
    Both(usize),
}

/// What a constraint is on, but for the horizon.
#[derive(Clone, Copy)]
enum Kind {
    Deadline,
    Release,
    Link,
    Message,
    Both,
}

/// The constraints of an instance that are kept, by flags.
#[derive(Drop)]
pub struct Constraints {
    pub horizon: bool,
    /// By process.
    pub deadlines: Flags,
    /// By process.
    pub releases: Flags,
    /// By link.
    pub links: Flags,
    /// By message.
    pub messages: Flags,
    /// By message: those that are to be on both channels.
    pub both: Flags,
}

impl Constraint {
    /// The constraint of a kind on what has this index.
    fn of(kind: Kind, index: usize) -> Self
        ensures { result ≡ of_kind kind index }
    {
        match kind {
            Kind::Deadline => Constraint::Deadline(index),
            Kind::Release => Constraint::Release(index),
            Kind::Link => Constraint::Link(index),
            Kind::Message => Constraint::Message(index),
            Kind::Both => Constraint::Both(index),
        }
    }
}

/// Puts the constraints of a kind behind others, where their flags are set.
#[tactic(auto, using(crate::proofs::Listed::set_behind, crate::proofs::Listed::unset_behind))]
fn list_kind(list: &mut Vec<Constraint>, kind: Kind, flags: &Flags) -> Result<(), MemoryFault>
    ensures { OnOk result (list.new.items ≡ list.old.items ++ listed_of kind flags.now) }
{
    for k in 0..flags.len() {
        if flags.has(k) {
            list.push(Constraint::of(kind, k))?;
        }
    }
    Ok(())
}

/// Which processes have a deadline.
fn deadlines_of(alloc: Global, processes: &[Process]) -> Result<Vec<bool>, AllocError>
    ensures { IfOk result (λ flags. flags.items ≡ map has_deadline processes.now) }
{
    processes
        .iter()
        .map(|p| p.deadline < MOST_TICKS)
        .collect(alloc)
}

/// Which processes have a release.
fn releases_of(alloc: Global, processes: &[Process]) -> Result<Vec<bool>, AllocError>
    ensures { IfOk result (λ flags. flags.items ≡ map has_release processes.now) }
{
    processes.iter().map(|p| p.release > 0).collect(alloc)
}

/// Which messages are to be on both channels.
fn both_of(alloc: Global, messages: &[Message]) -> Result<Vec<bool>, AllocError>
    ensures { IfOk result (λ flags. flags.items ≡ map is_on_both messages.now) }
{
    messages.iter().map(|m| m.both).collect(alloc)
}

impl Constraints {
    /// Those that an instance has.
    pub fn of(alloc: Global, instance: &Instance) -> Result<Self, MemoryFault>
        ensures { IfOk result (λ all. all ≡ all_of instance.now) }
    {
        Ok(Constraints {
            horizon: instance.cluster().horizon < MOST_TICKS,
            deadlines: Flags::new(deadlines_of(alloc, instance.processes())?),
            releases: Flags::new(releases_of(alloc, instance.processes())?),
            links: Flags::all_set(alloc, instance.links().len())?,
            messages: Flags::all_set(alloc, instance.messages().len())?,
            both: Flags::new(both_of(alloc, instance.messages())?),
        })
    }

    /// Leaves one out.
    pub fn leave_out(&mut self, constraint: Constraint)
        ensures { self.new ≡ without self.old constraint }
    {
        match constraint {
            Constraint::Horizon => self.horizon = false,
            Constraint::Deadline(p) => self.deadlines.clear(p),
            Constraint::Release(p) => self.releases.clear(p),
            Constraint::Link(l) => self.links.clear(l),
            Constraint::Message(m) => {
                self.messages.clear(m);
                self.both.clear(m);
            }
            Constraint::Both(m) => self.both.clear(m),
        }
    }

    /// Leaves each of these out.
    pub fn leave_all_out(&mut self, constraints: &[Constraint])
        ensures { self.new ≡ without_all self.old constraints.now }
    {
        for constraint in constraints {
            self.leave_out(*constraint);
        }
    }

    /// The same in memory of their own.
    pub fn copy(&self, alloc: Global) -> Result<Self, MemoryFault>
        ensures { IfOk result (λ all. all ≡ self.now) }
    {
        Ok(Constraints {
            horizon: self.horizon,
            deadlines: self.deadlines.copy(alloc)?,
            releases: self.releases.copy(alloc)?,
            links: self.links.copy(alloc)?,
            messages: self.messages.copy(alloc)?,
            both: self.both.copy(alloc)?,
        })
    }

    fn list_into(&self, list: &mut Vec<Constraint>) -> Result<(), MemoryFault>
        ensures { OnOk result (list.new.items ≡ list.old.items ++ listed self.now) }
    {
        if self.horizon {
            list.push(Constraint::Horizon)?;
        }
        list_kind(list, Kind::Deadline, &self.deadlines)?;
        list_kind(list, Kind::Release, &self.releases)?;
        list_kind(list, Kind::Message, &self.messages)?;
        list_kind(list, Kind::Both, &self.both)?;
        list_kind(list, Kind::Link, &self.links)
    }

    /// The horizon, deadlines, releases, messages, those on both channels, and links, each in the instance's order.
    pub fn list(&self, alloc: Global) -> Result<Vec<Constraint>, MemoryFault>
        ensures { IfOk result (λ list. list.items ≡ listed self.now) }
    {
        let mut list = Vec::new(alloc);
        self.list_into(&mut list)?;
        Ok(list)
    }
}
