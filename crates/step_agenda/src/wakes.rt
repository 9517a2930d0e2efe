//! Which steps read a fact, and which a limit?

ghost use Rattle.std.specs.Prelude.{◌<◌, length};

use crate::asking::may_say_more;
use std::alloc::Global;
use tt_choice::Decision;
use tt_infer::{
    Fact, Facts, Limit, Reads, Source, link_steps, message_closers, message_steps, pair_steps,
    process_closers, process_steps, reads, transfer_steps,
};
use ttp_model::{Instance, MemoryFault, Step};

/// Of the steps that an instance names beforehand those that read a fact, those that read a limit, and those that read no fact,
/// each in the order in which they are told: made of what the table of steps says is read.
#[derive(Drop)]
pub struct Wakes {
    /// By process and by message.
    of_start: Vec<Vec<Step>>,
    of_end: Vec<Vec<Step>>,
    of_first_round: Vec<Vec<Step>>,
    of_late_round: Vec<Vec<Step>>,
    of_limits: Vec<Limited>,
    of_no_fact: Vec<Step>,
}

/// A step, and a limit that it reads.
#[derive(Drop)]
struct Limited {
    limit: Limit,
    step: Step,
}

/// So many lists with nothing in them.
fn empty_lists(alloc: Global, count: usize) -> Result<Vec<Vec<Step>>, MemoryFault> {
    let mut lists = Vec::with_capacity(alloc, count)?;
    for _ in 0..count {
        lists.push(Vec::new(alloc))?;
    }
    Ok(lists)
}

/// Adds a step to the list at a place, where there is one.
fn add_at(lists: &mut [Vec<Step>], at: u32, step: Step) -> Result<(), MemoryFault> {
    if (at as usize) < lists.len() {
        lists[at as usize].push(step)?;
    }
    Ok(())
}

/// The list at a place: nothing where there is none.
fn list_at(lists: &[Vec<Step>], at: u32) -> &[Step] {
    match lists.get(at as usize) {
        Some(list) => list.as_slice(),
        None => &[],
    }
}

/// Whether a step reads the order of process `p` before `q`.
fn reads_order(instance: &Instance, step: &Step, p: u32, q: u32) -> bool {
    match reads(instance, step) {
        Reads::Nothing => false,
        Reads::One(source) => is_order(source, p, q),
        Reads::Two(first, second) => is_order(first, p, q) || is_order(second, p, q),
    }
}

/// Whether something that is read is the order of process `p` before `q`.
fn is_order(source: Source, p: u32, q: u32) -> bool {
    // No other source is a single order.
    if let Source::Learnt(Fact::Order(before, after)) = source {
        before == p && after == q
    } else {
        false
    }
}

/// Adds the steps that read the order of process `p` before `q`, the one to be tried first last.
fn add_woken_by_order(
    facts: &Facts,
    p: u32,
    q: u32,
    steps: &mut Vec<Step>,
) -> Result<(), MemoryFault> {
    for step in pair_steps(p, q) {
        if may_say_more(facts, &step) && reads_order(facts.instance(), &step, p, q) {
            steps.push(step)?;
        }
    }
    Ok(())
}

/// Whether a limit is about where slots stand or how long they are.
fn is_of_slots(limit: Limit) -> bool {
    match limit {
        Limit::LeastSlot(_) | Limit::GreatestSlot(_) | Limit::LeastFrame(_) => true,
        Limit::Place(_) => true,
        Limit::Goal | Limit::GreatestFrame(_) | Limit::Copies(_) | Limit::Counted(_, _) => false,
    }
}

/// Whether a limit is about what a frame can hold.
fn is_of_capacity(limit: Limit) -> bool {
    match limit {
        Limit::GreatestFrame(_) => true,
        Limit::Goal | Limit::LeastSlot(_) | Limit::GreatestSlot(_) | Limit::LeastFrame(_) => false,
        Limit::Place(_) | Limit::Copies(_) | Limit::Counted(_, _) => false,
    }
}

/// Whether a limit is about the channel of message `m`.
fn is_of_channel(limit: Limit, m: u32) -> bool {
    match limit {
        Limit::Copies(of) | Limit::Counted(of, _) => of == m,
        Limit::Goal | Limit::LeastSlot(_) | Limit::GreatestSlot(_) => false,
        Limit::LeastFrame(_) | Limit::GreatestFrame(_) | Limit::Place(_) => false,
    }
}

/// Whether a decision may change a limit.
fn changes(decision: Decision, limit: Limit) -> bool {
    match decision {
        Decision::Place(_) => is_of_slots(limit),
        Decision::Cap(_, _) => is_of_slots(limit) || is_of_capacity(limit),
        Decision::Channel(m, _) => is_of_channel(limit, m),
        Decision::Before(_, _) | Decision::AtMost(_, _) | Decision::AtLeast(_, _) => false,
    }
}

impl Wakes {
    /// Those of the steps that an instance names.
    pub fn of(alloc: Global, instance: &Instance) -> Result<Self, MemoryFault> {
        let processes = instance.processes().len();
        let messages = instance.messages().len();
        let mut wakes = Wakes {
            of_start: empty_lists(alloc, processes)?,
            of_end: empty_lists(alloc, processes)?,
            of_first_round: empty_lists(alloc, messages)?,
            of_late_round: empty_lists(alloc, messages)?,
            of_limits: Vec::new(alloc),
            of_no_fact: Vec::new(alloc),
        };
        wakes.list_all(alloc, instance)?;
        Ok(wakes)
    }

    /// Lists each step where what it reads says.
    fn list_all(&mut self, alloc: Global, instance: &Instance) -> Result<(), MemoryFault> {
        self.list_pairs(alloc, instance)?;
        self.list_messages(alloc, instance)?;
        self.list_links(alloc, instance)?;
        self.list_processes(alloc, instance)?;
        self.list_closers(alloc, instance)
    }

    /// Lists the steps of two processes of one node.
    fn list_pairs(&mut self, alloc: Global, instance: &Instance) -> Result<(), MemoryFault> {
        let count = instance.processes().len() as u32;
        for p in 0..count {
            self.list_pairs_of(alloc, instance, p)?;
        }
        Ok(())
    }

    /// Lists those of process `p` and each other of its node.
    fn list_pairs_of(
        &mut self,
        alloc: Global,
        instance: &Instance,
        p: u32,
    ) -> Result<(), MemoryFault>
        requires { p < length instance.now.processes }
    {
        for q in instance.processes_on(instance.node_of(p as usize)) {
            if *q != p {
                self.list_each(alloc, instance, &pair_steps(p, *q))?;
            }
        }
        Ok(())
    }

    /// Lists the steps of messages and their receivers.
    fn list_messages(&mut self, alloc: Global, instance: &Instance) -> Result<(), MemoryFault> {
        let count = instance.messages().len() as u32;
        for m in 0..count {
            self.list_transfers(alloc, instance, m)?;
            self.list_each(alloc, instance, &message_steps(m))?;
        }
        Ok(())
    }

    /// Lists those of message `m` and each of its receivers.
    fn list_transfers(
        &mut self,
        alloc: Global,
        instance: &Instance,
        m: u32,
    ) -> Result<(), MemoryFault>
        requires { m < length instance.now.messages }
    {
        for q in instance.message_at(m as usize).receivers.as_slice() {
            self.list_each(alloc, instance, &transfer_steps(m, *q))?;
        }
        Ok(())
    }

    /// Lists the steps of links.
    fn list_links(&mut self, alloc: Global, instance: &Instance) -> Result<(), MemoryFault> {
        let count = instance.links().len() as u32;
        for l in 0..count {
            self.list_each(alloc, instance, &link_steps(l))?;
        }
        Ok(())
    }

    /// Lists the steps of processes alone, the last process first.
    fn list_processes(&mut self, alloc: Global, instance: &Instance) -> Result<(), MemoryFault> {
        let count = instance.processes().len() as u32;
        for p in (0..count).rev() {
            self.list_each(alloc, instance, &process_steps(p))?;
        }
        Ok(())
    }

    /// Lists the closers of processes, and then those of messages.
    fn list_closers(&mut self, alloc: Global, instance: &Instance) -> Result<(), MemoryFault> {
        let processes = instance.processes().len() as u32;
        for p in 0..processes {
            self.list_each(alloc, instance, &process_closers(p))?;
        }
        let messages = instance.messages().len() as u32;
        for m in 0..messages {
            self.list_each(alloc, instance, &message_closers(m))?;
        }
        Ok(())
    }

    /// Lists each of these steps.
    fn list_each(
        &mut self,
        alloc: Global,
        instance: &Instance,
        steps: &[Step],
    ) -> Result<(), MemoryFault> {
        for step in steps {
            self.list(alloc, instance, step)?;
        }
        Ok(())
    }

    /// Lists a step with each fact and each limit that it reads.
    fn list(&mut self, alloc: Global, instance: &Instance, step: &Step) -> Result<(), MemoryFault> {
        let reads_fact = match reads(instance, step) {
            Reads::Nothing => false,
            Reads::One(source) => self.list_with(alloc, source, step)?,
            Reads::Two(first, second) => {
                let one = self.list_with(alloc, first, step)?;
                let other = self.list_with(alloc, second, step)?;
                one || other
            }
        };
        if !reads_fact {
            self.of_no_fact.push(step.copied(alloc)?)?;
        }
        Ok(())
    }

    /// Lists a step with something that it reads. Whether that is sharpened: of what is several facts it isn't listed.
    fn list_with(
        &mut self,
        alloc: Global,
        source: Source,
        step: &Step,
    ) -> Result<bool, MemoryFault> {
        match source {
            Source::Learnt(fact) => {
                self.list_with_fact(fact, step.copied(alloc)?)?;
                Ok(true)
            }
            Source::Fixed(limit) => {
                let step = step.copied(alloc)?;
                self.of_limits.push(Limited { limit, step })?;
                Ok(false)
            }
            Source::Waits(_) | Source::Circle(_) | Source::Runs(_, _, _) => Ok(true),
            Source::Frames(_, _, _) | Source::Halves(_, _, _, _) => Ok(true),
            Source::Earlier(_, _) | Source::Lower(_) => Ok(true),
        }
    }

    /// Lists a step with a fact: with an order it is found by the two processes.
    fn list_with_fact(&mut self, fact: Fact, step: Step) -> Result<(), MemoryFault> {
        match fact {
            Fact::Start(p) => add_at(self.of_start.as_mut_slice(), p, step),
            Fact::End(p) => add_at(self.of_end.as_mut_slice(), p, step),
            Fact::FirstRound(m) => add_at(self.of_first_round.as_mut_slice(), m, step),
            Fact::LateRound(m) => add_at(self.of_late_round.as_mut_slice(), m, step),
            Fact::Order(_, _) | Fact::Closed => Ok(()),
        }
    }

    /// The steps that read a start, an end or a round.
    fn of_fact(&self, fact: Fact) -> &[Step] {
        match fact {
            Fact::Start(p) => list_at(self.of_start.as_slice(), p),
            Fact::End(p) => list_at(self.of_end.as_slice(), p),
            Fact::FirstRound(m) => list_at(self.of_first_round.as_slice(), m),
            Fact::LateRound(m) => list_at(self.of_late_round.as_slice(), m),
            Fact::Order(_, _) | Fact::Closed => &[],
        }
    }

    /// Adds the steps that read a fact, the one to be tried first last, but for those of which two numbers show that they say nothing
    /// new.
    pub fn add_woken(
        &self,
        alloc: Global,
        facts: &Facts,
        fact: Fact,
        steps: &mut Vec<Step>,
    ) -> Result<(), MemoryFault> {
        // No other fact is read by so many steps that listing them would take a table of all pairs.
        if let Fact::Order(p, q) = fact {
            return add_woken_by_order(facts, p, q, steps);
        }
        for step in self.of_fact(fact) {
            if may_say_more(facts, step) {
                steps.push(step.copied(alloc)?)?;
            }
        }
        Ok(())
    }

    /// Adds the steps that read no fact, the one to be tried first last.
    pub fn add_without_facts(
        &self,
        alloc: Global,
        steps: &mut Vec<Step>,
    ) -> Result<(), MemoryFault> {
        for step in self.of_no_fact.as_slice() {
            steps.push(step.copied(alloc)?)?;
        }
        Ok(())
    }

    /// Adds the steps that read a limit which a decision may change, the one to be tried first last.
    pub fn add_changed(
        &self,
        alloc: Global,
        decision: Decision,
        steps: &mut Vec<Step>,
    ) -> Result<(), MemoryFault> {
        for limited in self.of_limits.as_slice() {
            if changes(decision, limited.limit) {
                steps.push(limited.step.copied(alloc)?)?;
            }
        }
        Ok(())
    }
}
