//! How does propagation go on after a decision?

ghost use Rattle.std.specs.Prelude.{◌≡◌, ◌≢◌, ◌<◌, ◌≤◌, ℕ, [], IfOk, OnOk, OnErr, IsTrue, IsFalse, Contains, vec_len, vec_capacity};
ghost use Rattle.ttp_model.specs.declared.plan.Plan.{Plan};
ghost use Rattle.ttp_model.specs.declared.step.Step.TheVariants.{UsSettled};
ghost use Rattle.ttp_model.specs.Chains.{IsPathBound};
ghost use Rattle.tt_choice.specs.Choice.{IsChoice, IsComplete};
ghost use Rattle.tt_choice.specs.Branches.{IsUnorderedPair, root_choice};
ghost use Rattle.tt_choice.specs.Decisions.{choice_after, IsOpenDecision};
ghost use Rattle.tt_infer.specs.Leaves.{ClosesSharply};
ghost use Rattle.step_logs.specs.Journal.{Journal, Advances};
ghost use Rattle.step_logs.specs.PlansBelow.{IsPlanBelow};
ghost use Rattle.step_logs.specs.Propagator.{Begins, FollowsFrom, IsPropagation, IsStarted, IsThinned, Decides, Undoes, IsLog, IsSupposition};

use crate::acceleration::{go_on, suppose};
use crate::checkpoint::Checkpoint;
use crate::journal::Journal;
use crate::standstill::{complete, reach};
use crate::supposition::Supposition;
use crate::trim::trimmed_leaf;
use std::alloc::Global;
use std::marker::Model;
use std::mem;
use step_agenda::{Agenda, Fewest};
use tt_choice::{Choice, Decision};
use tt_infer::Facts;
use ttp_model::{Instance, Leaf, MemoryFault, Step};

/// So many checkpoints are kept of the last decisions, and of those before that of every one in as many. 2,000 decisions
/// keep 95 so; after 2,000 subtrees of three large instances that took 55, 57 and 55 MB in place of 137, 179 and 146.
const RECENT: usize = 64;

/// What is known of the plans below a goal, after decisions that can be taken back: what was known before each of the last ones
/// is kept, and before some of the others.
#[derive(Drop)]
pub struct Propagator<'a> {
    instance: &'a Instance,
    /// In ticks.
    goal: u32,
    decisions: Vec<Decision>,
    /// What was known before decisions.
    kept: Vec<Checkpoint<'a>>,
    current: Journal<'a>,
    /// What was known after decisions that were taken back, for its memory.
    spare: Vec<Journal<'a>>,
    agenda: Agenda,
    fewest: Fewest,
}

impl<'a> Model for Propagator<'a> {
    ghost use Rattle.step_logs.specs.Propagator.{Propagator, IsPropagation};

    ghost Value = { Propagator };

    ghost view = { λ s. record {
      instance = s.instance.now;
      goal = s.goal;
      decisions = s.decisions.items;
      kept = s.kept.items;
      current = s.current;
    } };

    ghost invariant = { λ s. IsPropagation (record {
      instance = s.instance.now;
      goal = s.goal;
      decisions = s.decisions.items;
      kept = s.kept.items;
      current = s.current;
    }) };
}

/// Memory for what is known after a decision: that of a decision that was taken back, where there is one.
fn room<'a>(
    alloc: Global,
    spare: &mut Vec<Journal<'a>>,
    level: &Journal<'a>,
) -> Result<Journal<'a>, MemoryFault> {
    match spare.pop() {
        Some(room) => Ok(room),
        None => like(alloc, level.facts()),
    }
}

/// A log without steps of what is known at first of what these facts are about.
fn like<'a>(alloc: Global, facts: &Facts<'a>) -> Result<Journal<'a>, MemoryFault> {
    let first = Facts::new(alloc, facts.instance(), facts.choice(), facts.goal())?;
    Ok(Journal::new(first, Vec::new(alloc), Vec::new(alloc)))
}

/// Keeps memory to be used again, where there is a place for it.
fn keep<'a>(spare: &mut Vec<Journal<'a>>, room: Journal<'a>) {
    if spare.len() < spare.capacity() {
        spare.push_reserved(room);
    }
}

/// Lets one checkpoint go, where there is one that is no longer among the last and isn't to stay. Its memory may be used again.
fn thin<'a>(kept: &mut Vec<Checkpoint<'a>>, spare: &mut Vec<Journal<'a>>)
    ensures thinned { IsThinned kept.old.items kept.new.items }
    ensures room { vec_capacity kept.new ≡ vec_capacity kept.old }
    ensures fewer { vec_len kept.new ≤ vec_len kept.old }
{
    let count = kept.len();
    if count < RECENT {
        return;
    }
    let first = count - RECENT;
    if kept[first].count() % RECENT == 0 {
        return;
    }
    let gone = kept.remove(first);
    let (_decisions, log) = gone.into_parts();
    keep(spare, log);
}

/// Where nothing is left to choose, sharpens what is known until the steps that decide that sharpen no more.
fn finish(alloc: Global, journal: &mut Journal) -> Result<(), MemoryFault>
    ensures advances { Advances journal.old journal.new }
    ensures found { OnOk result ((goal : ℕ) (start : Journal)
        → Begins journal.old.facts.instance journal.old.facts.choice goal start
        → Advances start journal.old → IsComplete journal.old.facts.instance journal.old.facts.choice
        → IsFalse journal.new.facts.known.closed
        → (plan : Plan) × IsPlanBelow journal.old.facts.instance journal.old.facts.choice goal plan) }
{
    let facts = journal.facts();
    let instance = facts.instance();
    if !facts.choice().is_complete(instance) {
        return Ok(());
    }
    let choice = facts.choice().whole_copy(alloc)?;
    complete(alloc, instance, &choice, journal)
}

/// Whether one of the steps asks how long process `p` may have to wait.
fn ask_for_wait(steps: &[Step], p: u32) -> bool
    ensures { IsFalse result → ¬ Contains steps.now (UsSettled p) }
{
    steps.iter().any(|step| asks_for_wait(step, p))
}

/// Whether a step asks how long process `p` may have to wait.
fn asks_for_wait(step: &Step, p: u32) -> bool
    ensures { IsFalse result → step.now ≢ UsSettled p }
{
    // No other step asks for that.
    matches!(step, Step::UsSettled(q) if *q == p)
}

/// What the steps so far say after a decision. They are tried once more, but for an order that isn't known, where none of them
/// asks how long its first process may have to wait: with that order they say what they say without it.
fn carried_over<'a>(
    alloc: Global,
    room: Journal<'a>,
    level: &Journal<'a>,
    decision: Decision,
) -> Result<Journal<'a>, MemoryFault>
    requires is_open { IsOpenDecision level.now.facts.instance level.now.facts.choice decision }
    requires follows { FollowsFrom level.now.facts.instance level.now.facts.choice level.now.facts.goal level.now }
    ensures { IfOk result (FollowsFrom level.now.facts.instance
        (choice_after level.now.facts.instance level.now.facts.choice decision) level.now.facts.goal) }
{
    // No other decision keeps its log: a channel could, since no step that sharpens reads one.
    if let Decision::Before(p, q) = decision {
        let facts = level.facts();
        let _instance = facts.instance();
        if !facts.bef(p, q) && !ask_for_wait(level.steps(), p) {
            return room.ordering(alloc, level, p, q);
        }
    }
    let mut next = room.after(alloc, level, decision)?;
    next.sweep(alloc, level.steps())?;
    Ok(next)
}

/// What is known after a decision: first what the steps so far say of the choice that it makes, then what comes of that.
fn next_level<'a>(
    alloc: Global,
    agenda: &mut Agenda,
    room: Journal<'a>,
    level: &Journal<'a>,
    decision: Decision,
) -> Result<Journal<'a>, MemoryFault>
    requires is_open { IsOpenDecision level.now.facts.instance level.now.facts.choice decision }
    requires follows { FollowsFrom level.now.facts.instance level.now.facts.choice level.now.facts.goal level.now }
    requires above { (bound : ℕ) → IsPathBound level.now.facts.instance bound → bound < level.now.facts.goal }
    ensures { IfOk result (IsLog level.now.facts.instance
        (choice_after level.now.facts.instance level.now.facts.choice decision) level.now.facts.goal) }
{
    let mut next = carried_over(alloc, room, level, decision)?;
    let _choice = next.facts().choice();
    go_on(alloc, agenda, level.facts(), decision, &mut next)?;
    finish(alloc, &mut next)?;
    Ok(next)
}

/// What is known before any decision of the plans below a goal.
fn first_level<'a>(
    alloc: Global,
    agenda: &mut Agenda,
    instance: &'a Instance,
    goal: u32,
) -> Result<Journal<'a>, MemoryFault>
    ensures { IfOk result (IsLog instance.now (root_choice instance.now) goal) }
{
    let root = Choice::root(alloc, instance)?;
    let current = level_of(alloc, agenda, instance, &root, goal);
    drop(root);
    current
}

/// The same of the choice that nothing is decided of.
fn level_of<'a>(
    alloc: Global,
    agenda: &mut Agenda,
    instance: &'a Instance,
    root: &Choice,
    goal: u32,
) -> Result<Journal<'a>, MemoryFault>
    requires of { IsChoice instance.now root.now }
    requires is { root.now ≡ root_choice instance.now }
    ensures { IfOk result (IsLog instance.now (root_choice instance.now) goal) }
{
    let first = Facts::new(alloc, instance, root, goal)?;
    let mut current = Journal::new(first, Vec::new(alloc), Vec::new(alloc));
    match reach(alloc, agenda, instance, root, &mut current) {
        Ok(()) => Ok(current),
        Err(fault) => {
            drop(current);
            Err(fault)
        }
    }
}

/// What is known before any decision of the plans below a goal, with the agenda that it took.
fn begun<'a>(
    alloc: Global,
    instance: &'a Instance,
    goal: u32,
) -> Result<(Agenda, Journal<'a>), MemoryFault>
    ensures { IfOk result (λ begun. IsLog instance.now (root_choice instance.now) goal begun.1) }
{
    let mut agenda = Agenda::of(alloc, instance)?;
    match first_level(alloc, &mut agenda, instance, goal) {
        Ok(current) => Ok((agenda, current)),
        Err(fault) => {
            drop(agenda);
            Err(fault)
        }
    }
}

impl<'a> Propagator<'a> {
    /// What is known of all plans with a delay below `goal` ticks, before any decision.
    pub fn start(
        alloc: Global,
        instance: &'a Instance,
        goal: u32,
    ) -> Result<Propagator<'a>, MemoryFault>
        ensures { IfOk result (IsStarted instance.now goal) }
    {
        let _nodes = instance.nodes();
        let (agenda, current) = begun(alloc, instance, goal)?;
        match Fewest::none(alloc, instance) {
            Ok(fewest) => Ok(Propagator {
                instance,
                goal,
                decisions: Vec::new(alloc),
                kept: Vec::new(alloc),
                current,
                spare: Vec::new(alloc),
                agenda,
                fewest,
            }),
            Err(fault) => {
                drop(agenda);
                drop(current);
                Err(fault)
            }
        }
    }

    /// Whether no plan is left: always so at a goal of at most the path bound.
    pub fn closed(&self) -> bool
        ensures value { result ≡ self.now.current.facts.known.closed }
        ensures bound { (bound : ℕ) → IsPathBound self.now.instance bound → self.now.goal ≤ bound → IsTrue result }
    {
        self.current.facts().closed()
    }

    /// Makes an open decision, where a plan may be left. Unchanged after a refusal.
    pub fn decide(&mut self, alloc: Global, decision: Decision) -> Result<(), MemoryFault>
        requires left { IsFalse self.old.current.facts.known.closed }
        requires is_open { IsOpenDecision self.old.instance self.old.current.facts.choice decision }
        ensures ok { OnOk result (Decides decision self.old self.new) }
        ensures err { OnErr result (self.new ≡ self.old) }
    {
        self.decisions.reserve(1)?;
        self.kept.reserve(1)?;
        self.spare.reserve(self.kept.len() + 1)?;
        let made = Vec::from_slice(alloc, self.decisions.as_slice())?;
        let room = room(alloc, &mut self.spare, &self.current)?;
        let next = next_level(alloc, &mut self.agenda, room, &self.current, decision)?;
        thin(&mut self.kept, &mut self.spare);
        let before = mem::replace(&mut self.current, next);
        self.kept.push_reserved(Checkpoint::new(made, before));
        self.decisions.push_reserved(decision);
        Ok(())
    }

    /// Goes back to the last checkpoint that is kept: to its decisions, and to what was known after them. Whether one was kept. Takes no
    /// memory.
    pub fn undo(&mut self) -> bool
        ensures undone { IsTrue result → Undoes self.old self.new }
        ensures same { IsFalse result → self.new ≡ self.old }
        ensures none { IsFalse result → self.old.kept ≡ [] }
    {
        let Some(before) = self.kept.pop() else {
            return false;
        };
        let (decisions, log) = before.into_parts();
        self.decisions = decisions;
        let room = mem::replace(&mut self.current, log);
        keep(&mut self.spare, room);
        true
    }

    /// What would be known, as far as that is found at once, if process `p` went before `q`: what is known is copied and that
    /// order set, and propagation goes on from there. For the choice of a branch alone.
    pub fn suppose(&mut self, alloc: Global, p: u32, q: u32) -> Result<Supposition<'a>, MemoryFault>
        requires { IsUnorderedPair self.old.instance self.old.current.facts.choice p q }
        ensures same { self.new ≡ self.old }
        ensures about { IfOk result (IsSupposition self.old p q) }
    {
        self.spare.reserve(2)?;
        let room = room(alloc, &mut self.spare, &self.current)?;
        let mut journal = room.supposing(alloc, &self.current, p, q)?;
        match suppose(alloc, &mut self.agenda, p, q, &mut journal) {
            Ok(()) => Ok(Supposition { journal }),
            Err(fault) => {
                drop(journal);
                Err(fault)
            }
        }
    }

    /// Keeps the memory of what was supposed, to be used again.
    pub fn release(&mut self, supposition: Supposition<'a>)
        ensures { self.new ≡ self.old }
    {
        keep(&mut self.spare, supposition.journal);
    }

    /// The decisions that were made and not taken back, the first first.
    pub fn decisions(&self) -> &[Decision]
        ensures value { result.now ≡ self.now.decisions }
        ensures is { IsPropagation self.now }
    {
        self.decisions.as_slice()
    }

    /// The plans that are sought have delays below this tick.
    pub fn goal(&self) -> u32
        ensures { result ≡ self.now.goal }
    {
        self.goal
    }

    /// What is known.
    pub fn facts(&self) -> &Facts<'a>
        ensures value { result.now ≡ self.now.current.facts }
        ensures is { IsPropagation self.now }
    {
        self.current.facts()
    }

    /// The steps that lead to it from what is known at first of the choice that the decisions make.
    pub fn log(&self) -> &[Step]
        ensures value { result.now ≡ self.now.current.steps }
        ensures is { IsPropagation self.now }
    {
        self.current.steps()
    }

    /// A leaf of that choice at the goal, where no plan is left. Once a decision was taken back it takes memory for its steps, and for
    /// lists that are used again where they grow.
    pub fn leaf(&mut self, alloc: Global) -> Result<Leaf, MemoryFault>
        requires { IsTrue self.old.current.facts.known.closed }
        ensures same { self.new ≡ self.old }
        ensures closes { IfOk result (ClosesSharply self.old.instance self.old.current.facts.choice) }
        ensures goal { IfOk result (λ leaf. leaf.goal ≡ self.old.goal) }
    {
        self.spare.reserve(1)?;
        let room = room(alloc, &mut self.spare, &self.current)?;
        let (facts, steps, written) = room.into_memory();
        let level = &self.current;
        let (leaf, facts) = trimmed_leaf(
            alloc,
            facts,
            &mut self.fewest,
            level.facts(),
            level.steps(),
            level.written(),
        )?;
        keep(&mut self.spare, Journal::new(facts, steps, written));
        Ok(leaf)
    }
}
