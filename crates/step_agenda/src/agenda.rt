//! Which steps are tried next?

ghost use Rattle.std.specs.Prelude.{◌<◌, length};

use crate::rings::ring_step;
use crate::twins::{add_decided, add_twin_steps};
use crate::waiting::Waiting;
use crate::wakes::Wakes;
use load_bounds::{frame_load, node_load};
use std::alloc::Global;
use std::collections::VecDeque;
use std::mem;
use tt_choice::Decision;
use tt_infer::{Fact, Facts};
use ttp_model::{Instance, MOST_NODES, MOST_PROCESSES, MemoryFault, Step, has_link, put_flag};

/// After so many facts for each process and message rings are looked for again: a guess.
const FACTS_BETWEEN_RINGS: u32 = 4;

/// Facts that were sharpened and whose consequences weren't tried since, and nodes whose loads
/// weren't.
#[derive(Drop)]
pub struct Agenda {
    /// Which steps read what.
    wakes: Wakes,
    /// The facts in the order in which they were sharpened.
    changed: VecDeque<Fact>,
    /// The same facts, to have each of them once.
    waiting: Waiting,
    /// By process, whether the rule on settled plans may say more of its end.
    unsettled: [bool; MOST_PROCESSES],
    /// By node, whether its processes may have become too many for their times.
    runs: [bool; MOST_NODES],
    /// By node, whether its messages may have become too many for their rounds.
    sendings: [bool; MOST_NODES],
    /// How many facts are taken before rings are looked for.
    until_ring: u32,
    /// Rounds of a node's messages, in room that is used again.
    rounds: Vec<u32>,
    /// Room for the steps that are tried next.
    room: Vec<Step>,
}

/// Whether two lists have different numbers at a place.
fn differ(before: &[u32], now: &[u32], place: u32) -> bool {
    before.get(place as usize) != now.get(place as usize)
}

/// After how many facts rings are looked for again.
fn facts_between_rings(instance: &Instance) -> u32 {
    let parts = instance.processes().len() as u32 + instance.messages().len() as u32;
    parts * FACTS_BETWEEN_RINGS
}

impl Agenda {
    /// Nothing that waits.
    pub fn of(alloc: Global, instance: &Instance) -> Result<Self, MemoryFault> {
        Ok(Agenda {
            wakes: Wakes::of(alloc, instance)?,
            changed: VecDeque::new(alloc),
            waiting: Waiting::none(alloc, instance)?,
            unsettled: [false; MOST_PROCESSES],
            runs: [false; MOST_NODES],
            sendings: [false; MOST_NODES],
            until_ring: 0,
            rounds: Vec::new(alloc),
            room: Vec::new(alloc),
        })
    }

    /// The steps that read no fact, the one to be tried first last: releases and deadlines, frames, twins.
    pub fn opening_steps(&self, alloc: Global, facts: &Facts) -> Result<Vec<Step>, MemoryFault> {
        let mut steps = Vec::new(alloc);
        add_twin_steps(facts, &mut steps)?;
        self.wakes.add_without_facts(alloc, &mut steps)?;
        Ok(steps)
    }

    /// Adds the steps that read what a decision changes beside the facts: where slots stand and how long they are, and who leads a
    /// turned frame.
    pub fn add_decided(
        &self,
        alloc: Global,
        facts: &Facts,
        decision: Decision,
        steps: &mut Vec<Step>,
    ) -> Result<(), MemoryFault> {
        self.wakes.add_changed(alloc, decision, steps)?;
        add_decided(facts, decision, steps)
    }

    /// Room for the steps that are tried next, with none in it.
    pub fn take_room(&mut self, alloc: Global) -> Vec<Step> {
        mem::replace(&mut self.room, Vec::new(alloc))
    }

    /// Keeps room for the next time.
    pub fn keep_room(&mut self, steps: Vec<Step>) {
        self.room = steps;
        self.room.clear();
    }

    /// Begins anew with all that is known at first, as if it had just been sharpened, but for the orders: what they say
    /// is tried with the starts and ends of their processes.
    pub fn begin(&mut self, instance: &Instance) -> Result<(), MemoryFault> {
        self.clear();
        self.unsettled = [true; MOST_PROCESSES];
        self.runs = [true; MOST_NODES];
        self.sendings = [true; MOST_NODES];
        self.add_starts(instance)?;
        self.add_ends(instance)?;
        self.add_rounds(instance)
    }

    /// Begins anew with what is known better than before, as if it had just been sharpened, and with a decision. Rings are looked
    /// for at once where it is an order of two processes, and else after a while.
    pub fn resume(
        &mut self,
        before: &Facts,
        facts: &Facts,
        decision: Decision,
    ) -> Result<(), MemoryFault> {
        self.clear();
        self.note_processes(before, facts)?;
        self.note_messages(before, facts)?;
        match decision {
            Decision::Before(p, q) => return self.note(facts, Fact::Order(p, q)),
            Decision::Place(_) | Decision::Cap(_, _) => self.raise_messages(facts.instance()),
            Decision::Channel(m, _) => self.note_frames(facts.instance(), m),
            Decision::AtMost(_, _) | Decision::AtLeast(_, _) => {}
        }
        self.until_ring = facts_between_rings(facts.instance());
        Ok(())
    }

    /// Begins anew with the order of two processes, as if it had just been sharpened, of facts in which all was tried. Rings
    /// are looked for only after a while: along one the starts rise until a process has no room.
    pub fn suppose(&mut self, facts: &Facts, p: u32, q: u32) -> Result<(), MemoryFault> {
        self.clear();
        self.until_ring = facts_between_rings(facts.instance());
        self.note(facts, Fact::Order(p, q))
    }

    /// Forgets all that waits.
    fn clear(&mut self) {
        for _ in 0..self.changed.len() {
            if let Some(fact) = self.changed.pop_front() {
                self.waiting.remove(fact);
            }
        }
        self.unsettled = [false; MOST_PROCESSES];
        self.runs = [false; MOST_NODES];
        self.sendings = [false; MOST_NODES];
        self.until_ring = 0;
    }

    /// Takes note of the starts and ends that are known better than before.
    fn note_processes(&mut self, before: &Facts, facts: &Facts) -> Result<(), MemoryFault> {
        let count = facts.instance().processes().len() as u32;
        for p in 0..count {
            if differ(before.starts(), facts.starts(), p) {
                self.note(facts, Fact::Start(p))?;
            }
            if differ(before.ends(), facts.ends(), p) {
                self.note(facts, Fact::End(p))?;
            }
        }
        Ok(())
    }

    /// Takes note of the rounds that are known better than before.
    fn note_messages(&mut self, before: &Facts, facts: &Facts) -> Result<(), MemoryFault> {
        let count = facts.instance().messages().len() as u32;
        for m in 0..count {
            if differ(before.first_rounds(), facts.first_rounds(), m) {
                self.note(facts, Fact::FirstRound(m))?;
            }
            if differ(before.late_rounds(), facts.late_rounds(), m) {
                self.note(facts, Fact::LateRound(m))?;
            }
        }
        Ok(())
    }

    /// What slots say of each message may have changed: its receivers may wait less long, and its frames may be too full.
    fn raise_messages(&mut self, instance: &Instance) {
        let count = instance.messages().len() as u32;
        for m in 0..count {
            self.note_late_round(instance, m);
        }
    }

    /// Adds the starts of all processes.
    fn add_starts(&mut self, instance: &Instance) -> Result<(), MemoryFault> {
        let processes = instance.processes().len() as u32;
        for p in 0..processes {
            self.add(Fact::Start(p))?;
        }
        Ok(())
    }

    /// Adds the ends of all processes, the last first.
    fn add_ends(&mut self, instance: &Instance) -> Result<(), MemoryFault> {
        let processes = instance.processes().len() as u32;
        for p in (0..processes).rev() {
            self.add(Fact::End(p))?;
        }
        Ok(())
    }

    /// Adds the rounds of all messages.
    fn add_rounds(&mut self, instance: &Instance) -> Result<(), MemoryFault> {
        let messages = instance.messages().len() as u32;
        for m in 0..messages {
            self.add(Fact::FirstRound(m))?;
            self.add(Fact::LateRound(m))?;
        }
        Ok(())
    }

    /// Adds a fact that isn't among them. An order is sharpened once, so it isn't looked for; and once all is closed, nothing more is
    /// tried.
    fn add(&mut self, fact: Fact) -> Result<(), MemoryFault> {
        let waits = match fact {
            Fact::Order(_, _) => false,
            Fact::Start(_) | Fact::End(_) => self.waiting.insert(fact),
            Fact::FirstRound(_) | Fact::LateRound(_) => self.waiting.insert(fact),
            Fact::Closed => true,
        };
        if !waits {
            self.changed.push_back(fact)?;
        }
        Ok(())
    }

    /// Takes note of a fact that was sharpened.
    pub fn note(&mut self, facts: &Facts, fact: Fact) -> Result<(), MemoryFault> {
        let instance = facts.instance();
        match fact {
            Fact::Start(p) => self.note_start(instance, p),
            Fact::End(p) => self.note_end(facts, p),
            Fact::FirstRound(m) => self.note_frames(instance, m),
            Fact::LateRound(m) => self.note_late_round(instance, m),
            Fact::Order(p, _) => {
                put_flag(&mut self.unsettled, p as usize, true);
            }
            Fact::Closed => {}
        }
        self.add(fact)
    }

    /// Takes note of a later start of process `p`: its node may be too full.
    fn note_start(&mut self, instance: &Instance, p: u32) {
        if (p as usize) < instance.processes().len() {
            put_flag(&mut self.runs, instance.node_of(p as usize) as usize, true);
        }
    }

    /// Takes note of an earlier end of process `p`: its node may be too full, the others there that it
    /// may go before may wait less long, and its messages may go out earlier.
    fn note_end(&mut self, facts: &Facts, p: u32) {
        let instance = facts.instance();
        if p as usize >= instance.processes().len() {
            return;
        }
        let host = instance.node_of(p as usize);
        put_flag(&mut self.runs, host as usize, true);
        put_flag(&mut self.sendings, host as usize, true);
        for q in instance.processes_on(host) {
            if *q != p && !facts.bef(*q, p) {
                put_flag(&mut self.unsettled, *q as usize, true);
            }
        }
    }

    /// Takes note of a later first round of message `m`, or of its channel: its frames may be too full.
    fn note_frames(&mut self, instance: &Instance, m: u32) {
        if (m as usize) < instance.messages().len() {
            put_flag(
                &mut self.sendings,
                instance.source_of(m as usize) as usize,
                true,
            );
        }
    }

    /// Takes note of an earlier last round of message `m`: its frames may be too full, and its
    /// receivers may wait less long.
    fn note_late_round(&mut self, instance: &Instance, m: u32) {
        if m as usize >= instance.messages().len() {
            return;
        }
        put_flag(
            &mut self.sendings,
            instance.source_of(m as usize) as usize,
            true,
        );
        for q in instance.message_at(m as usize).receivers.as_slice() {
            put_flag(&mut self.unsettled, *q as usize, true);
        }
    }

    /// Adds the steps that are tried next, the one to be tried first last: the consequences of one
    /// fact; where none waits those of settled plans; and where there are none either, those of loads.
    /// Whether there is anything left.
    pub fn next(
        &mut self,
        alloc: Global,
        facts: &Facts,
        steps: &mut Vec<Step>,
    ) -> Result<bool, MemoryFault> {
        match self.changed.pop_front() {
            Some(fact) => {
                self.waiting.remove(fact);
                self.wakes.add_woken(alloc, facts, fact, steps)?;
                self.add_ring(alloc, facts, steps)?;
                Ok(true)
            }
            None => {
                self.add_settled(facts, steps)?;
                if steps.is_empty() {
                    self.add_loads(facts, steps)?;
                }
                Ok(!steps.is_empty())
            }
        }
    }

    /// Adds the step that closes a ring, where it is time to look for one and there is one.
    fn add_ring(
        &mut self,
        alloc: Global,
        facts: &Facts,
        steps: &mut Vec<Step>,
    ) -> Result<(), MemoryFault> {
        if self.until_ring > 0 {
            self.until_ring -= 1;
            return Ok(());
        }
        self.until_ring = facts_between_rings(facts.instance());
        if let Some(step) = ring_step(alloc, facts)? {
            steps.push(step)?;
        }
        Ok(())
    }

    /// Adds the rule on settled plans for each process of which more may be known.
    fn add_settled(&mut self, facts: &Facts, steps: &mut Vec<Step>) -> Result<(), MemoryFault> {
        let count = facts.instance().processes().len() as u32;
        for p in 0..count {
            if put_flag(&mut self.unsettled, p as usize, false) && !may_end_last(facts, p) {
                steps.push(Step::UsSettled(p))?;
            }
        }
        Ok(())
    }

    /// Adds the closers of loads, of messages that could go out earlier and of those on channel 1, for each node of which
    /// more may be known.
    fn add_loads(&mut self, facts: &Facts, steps: &mut Vec<Step>) -> Result<(), MemoryFault> {
        let count = facts.instance().nodes().len() as u32;
        for n in 0..count {
            if put_flag(&mut self.runs, n as usize, false) {
                if let Some(step) = node_load(facts, n) {
                    steps.push(step)?;
                }
            }
            if put_flag(&mut self.sendings, n as usize, false) {
                self.find_rounds(facts, n)?;
                add_late(facts, n, self.rounds.as_slice(), steps)?;
                if let Some(step) = frame_load(facts, n) {
                    steps.push(step)?;
                }
                add_mirrors(facts, n, steps)?;
            }
        }
        Ok(())
    }

    /// Finds the rounds just before the first ones of the messages of node `n`, each once.
    fn find_rounds(&mut self, facts: &Facts, n: u32) -> Result<(), MemoryFault> {
        self.rounds.clear();
        for m in facts.instance().messages_of(n) {
            let first = facts.lo(*m);
            if first > 0 && !self.rounds.contains(&(first - 1)) {
                self.rounds.push(first - 1)?;
            }
        }
        Ok(())
    }
}

/// Whether process `p` may have to wait for another of its node until it can't end earlier than is known: then the rule on
/// settled plans says nothing of it.
fn may_end_last(facts: &Facts, p: u32) -> bool
    requires { p < length facts.now.instance.processes }
{
    let instance = facts.instance();
    for x in instance.processes_on(instance.node_of(p as usize)) {
        if *x != p && !facts.bef(p, *x) && fills(facts, *x, p) && !has_link(instance, p, *x) {
            return true;
        }
    }
    false
}

/// Whether process `p` behind the latest end of `x` ends as late as is known of it, or later.
fn fills(facts: &Facts, x: u32, p: u32) -> bool
    requires first { x < length facts.now.instance.processes }
    requires second { p < length facts.now.instance.processes }
{
    let process = facts.instance().process_at(p as usize);
    u64::from(facts.le(x)) + u64::from(process.wcet) >= u64::from(facts.le(p))
}

/// Adds the closers of the messages of node `n` that could go out earlier than they may. A message
/// has most room just before the first round of one of them, so these rounds are tried alone.
fn add_late(
    facts: &Facts,
    n: u32,
    rounds: &[u32],
    steps: &mut Vec<Step>,
) -> Result<(), MemoryFault> {
    for m in facts.instance().messages_of(n) {
        add_late_of(facts, *m, rounds, steps)?;
    }
    Ok(())
}

/// Adds the closers of message `m` in those of the rounds that are before its first one, and in which it is ready.
fn add_late_of(
    facts: &Facts,
    m: u32,
    rounds: &[u32],
    steps: &mut Vec<Step>,
) -> Result<(), MemoryFault>
    requires { m < length facts.now.instance.messages }
{
    let first = facts.lo(m);
    let ready = ready_round(facts, m);
    if ready >= u64::from(first) {
        return Ok(());
    }
    for round in rounds {
        if *round < first && u64::from(*round) >= ready {
            steps.push(Step::XLate(m, *round))?;
        }
    }
    Ok(())
}

/// The first round in which message `m` is ready however late its sender ends, and however early the slot begins.
fn ready_round(facts: &Facts, m: u32) -> u64
    requires { m < length facts.now.instance.messages }
{
    let instance = facts.instance();
    let node = instance.source_of(m as usize);
    let sender = instance.message_at(m as usize).sender;
    let ready = u64::from(facts.le(sender)) + u64::from(instance.cluster().copy_out);
    let begins = facts.setting().start_least(node, 0);
    let apart = facts.setting().start_least(node, 1).saturating_sub(begins);
    ready.saturating_sub(begins).div_ceil(apart.max(1))
}

/// Adds the closers of the messages of node `n` that are fixed to channel 1: each leads a turned frame, where no lower one of the node may
/// lead it.
fn add_mirrors(facts: &Facts, n: u32, steps: &mut Vec<Step>) -> Result<(), MemoryFault> {
    let instance = facts.instance();
    if instance.cluster().channels < 2 {
        return Ok(());
    }
    for m in instance.messages_of(n) {
        if is_on_second(facts, *m) {
            steps.push(Step::XMirror(*m))?;
        }
    }
    Ok(())
}

/// Whether message `m` is fixed to channel 1 alone.
fn is_on_second(facts: &Facts, m: u32) -> bool
    requires { m < length facts.now.instance.messages }
{
    match facts.choice().channel(m) {
        Some(fixed) => fixed == 1,
        None => false,
    }
}
