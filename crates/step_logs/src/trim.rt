//! Which leaf do steps that close a choice make?

ghost use Rattle.std.specs.Prelude.{◌≡◌, ◌^◌, ◌<◌, [], IfOk, IfSome, length};
ghost use Rattle.tt_choice.specs.Choice.{IsChoice, bare};
ghost use Rattle.tt_infer.specs.Leaves.{ClosesSharply};
ghost use Rattle.step_logs.specs.Journal.{Advances};
ghost use Rattle.step_logs.specs.Propagator.{FollowsFrom};

use crate::copies::all_copied;
use crate::journal::Journal;
use std::alloc::Global;
use step_agenda::{Fewest, Found, Log, Marked, Marks, Written};
use tt_choice::Choice;
use tt_infer::Facts;
use ttp_model::{Instance, Leaf, MemoryFault, Step, Steps};

/// How many of the closers that rest on the fewest steps are looked at. Four make certificates 3 to 5 % smaller and a search
/// 10 to 15 % longer.
const CLOSERS: usize = 1;

/// A leaf of these steps, which close the choice at a goal in ticks, without those that its closer
/// doesn't need.
pub fn closed_leaf(
    alloc: Global,
    instance: &Instance,
    choice: &Choice,
    goal: u32,
    steps: Vec<Step>,
) -> Result<Leaf, MemoryFault>
    requires of { IsChoice instance.now choice.now }
    requires closes { ClosesSharply instance.now choice.now (record { goal = goal; steps = steps.items }) }
    requires few { length steps.items < 2 ^ 32 }
    ensures closes { IfOk result (ClosesSharply instance.now choice.now) }
    ensures goal { IfOk result (λ leaf. leaf.goal ≡ goal) }
{
    let trimmed = needed_alone(alloc, instance, choice, goal, steps.as_slice())?;
    match trimmed {
        Some(short) => Ok(leaf_of(goal, short)),
        None => Ok(leaf_of(goal, steps)),
    }
}

/// Those of the steps that the closer needs, where they close the choice at the goal by themselves.
fn needed_alone(
    alloc: Global,
    instance: &Instance,
    choice: &Choice,
    goal: u32,
    steps: &[Step],
) -> Result<Option<Vec<Step>>, MemoryFault>
    requires { IsChoice instance.now choice.now }
    ensures closes { IfOk result (λ found. IfSome found (λ steps.
        ClosesSharply instance.now choice.now (record { goal = goal; steps = steps.items }))) }
    ensures few { IfOk result (λ found. IfSome found (λ steps. length steps.items < 2 ^ 32)) }
{
    let marks = needed(alloc, instance, choice, goal, steps)?;
    let found = replayed(alloc, instance, choice, goal, steps, &marks)?;
    Ok(found)
}

/// Marks at the steps that the closer needs.
fn needed(
    alloc: Global,
    instance: &Instance,
    choice: &Choice,
    goal: u32,
    steps: &[Step],
) -> Result<Marks, MemoryFault>
    requires { IsChoice instance.now choice.now }
{
    let mut marks = Marks::none(alloc, instance)?;
    mark_needed(alloc, instance, choice, goal, steps, &mut marks)?;
    Ok(marks)
}

/// Sets marks at the steps that the closer needs. How many they are.
fn mark_needed(
    alloc: Global,
    instance: &Instance,
    choice: &Choice,
    goal: u32,
    steps: &[Step],
    marks: &mut Marks,
) -> Result<usize, MemoryFault>
    requires { IsChoice instance.now choice.now }
{
    let facts = reached(alloc, instance, choice, goal, steps)?;
    marks.set_to(&facts, steps)
}

/// A leaf of the steps that lead to what is known, where no plan is left, without those that the closer doesn't need that needs the
/// fewest; worked out in the room of other facts, which comes back.
pub fn trimmed_leaf<'a>(
    alloc: Global,
    room: Facts<'a>,
    fewest: &mut Fewest,
    facts: &Facts<'a>,
    steps: &[Step],
    written: &[Written],
) -> Result<(Leaf, Facts<'a>), MemoryFault>
    requires none_kept { bare facts.now.choice ≡ facts.now.choice }
    requires closes { ClosesSharply facts.now.instance facts.now.choice (record { goal = facts.now.goal; steps = steps.now }) }
    requires few { length steps.now < 2 ^ 32 }
    ensures closes { IfOk result (λ trimmed. ClosesSharply facts.now.instance facts.now.choice trimmed.0) }
    ensures goal { IfOk result (λ trimmed. trimmed.0.goal ≡ facts.now.goal) }
{
    let _choice = facts.choice();
    let journal = retried(alloc, room, fewest, facts, steps, written)?;
    let (known, kept) = journal.into_parts();
    if known.closed() {
        return Ok((leaf_of(facts.goal(), kept), known));
    }
    let all = all_copied(alloc, steps)?;
    Ok((leaf_of(facts.goal(), all), known))
}

/// What is known by the steps alone that the closer needs that needs the fewest, and by that closer; worked out in the room of
/// other facts.
fn retried<'a>(
    alloc: Global,
    room: Facts<'a>,
    fewest: &mut Fewest,
    facts: &Facts<'a>,
    steps: &[Step],
    written: &[Written],
) -> Result<Journal<'a>, MemoryFault>
    ensures { IfOk result (FollowsFrom facts.now.instance (bare facts.now.choice) facts.now.goal) }
{
    let first = room.anew(facts)?;
    match fewest_needed(fewest, &first, facts, steps, written) {
        Ok((count, closer)) => retried_from(alloc, first, count, steps, closer.as_ref(), fewest),
        Err(fault) => {
            drop(first);
            Err(fault)
        }
    }
}

/// What is known, beyond what is known at first, by the steps alone that are marked, and by a closer: the last of the steps, where
/// none is given. There is room for so many.
fn retried_from<'a>(
    alloc: Global,
    first: Facts<'a>,
    count: usize,
    steps: &[Step],
    closer: Option<&Step>,
    fewest: &Fewest,
) -> Result<Journal<'a>, MemoryFault>
    ensures { IfOk result (Advances (record { facts = first.entry; steps = [] })) }
{
    let mut journal = begun(alloc, first, count)?;
    match try_closing(alloc, &mut journal, steps, closer, fewest) {
        Ok(()) => Ok(journal),
        Err(fault) => {
            drop(journal);
            Err(fault)
        }
    }
}

/// A log without steps of what is known at first, with room for so many.
fn begun<'a>(alloc: Global, first: Facts<'a>, count: usize) -> Result<Journal<'a>, MemoryFault>
    ensures { IfOk result (λ log. log ≡ record { facts = first.entry; steps = [] }) }
{
    let kept = Vec::with_capacity(alloc, count)?;
    Ok(Journal::new(first, kept, Vec::new(alloc)))
}

/// Marks the steps that are needed by the closer that needs the fewest: the last one of these steps, or another. How many they are
/// with the closer, and that one where it is another.
fn fewest_needed(
    fewest: &mut Fewest,
    first: &Facts,
    facts: &Facts,
    steps: &[Step],
    written: &[Written],
) -> Result<(usize, Option<Step>), MemoryFault> {
    let Some((last, logged)) = steps.split_last() else {
        return Ok((0, None));
    };
    let log = Log {
        first,
        facts,
        steps: logged,
        written,
    };
    let found = fewest.mark(log, Some(last), CLOSERS)?;
    Ok(with_closer(found, steps.len()))
}

/// How many steps are needed with the closer, and that one where it is another: all of so many, where none was found.
fn with_closer(found: Option<Found>, all: usize) -> (usize, Option<Step>) {
    match found {
        Some(found) => (found.count.saturating_add(1), found.closer),
        None => (all, None),
    }
}

/// Tries the steps that are marked, one after another, and then a closer: the last of the steps, where none is given.
#[tactic(auto, using(crate::proofs::Logs::advances_trans))]
fn try_closing(
    alloc: Global,
    journal: &mut Journal,
    steps: &[Step],
    closer: Option<&Step>,
    fewest: &Fewest,
) -> Result<(), MemoryFault>
    ensures { Advances journal.old journal.new }
{
    try_marked(alloc, journal, steps, fewest)?;
    if let Some(step) = closer.or(steps.last()) {
        journal.append_copy(alloc, step)?;
    }
    Ok(())
}

/// The leaf of these steps.
fn leaf_of(goal: u32, steps: Vec<Step>) -> Leaf
    requires { length steps.items < 2 ^ 32 }
    ensures { result ≡ record { goal = goal; steps = steps.items } }
{
    Leaf {
        goal,
        steps: Steps::new(steps),
    }
}

/// The steps that are marked, where they close the choice at the goal by themselves.
fn replayed(
    alloc: Global,
    instance: &Instance,
    choice: &Choice,
    goal: u32,
    steps: &[Step],
    marks: &Marks,
) -> Result<Option<Vec<Step>>, MemoryFault>
    requires { IsChoice instance.now choice.now }
    ensures closes { IfOk result (λ found. IfSome found (λ steps.
        ClosesSharply instance.now choice.now (record { goal = goal; steps = steps.items }))) }
    ensures few { IfOk result (λ found. IfSome found (λ steps. length steps.items < 2 ^ 32)) }
{
    let _processes = instance.processes();
    let first = Facts::new(alloc, instance, choice, goal)?;
    let mut journal = Journal::new(first, Vec::new(alloc), Vec::new(alloc));
    try_marked(alloc, &mut journal, steps, marks)?;
    match journal.closing_steps() {
        Some(kept) => Ok(Some(kept)),
        None => Ok(None),
    }
}

/// Tries the steps that are marked, one after another.
fn try_marked<M: Marked>(
    alloc: Global,
    journal: &mut Journal,
    steps: &[Step],
    marks: &M,
) -> Result<(), MemoryFault>
    ensures { Advances journal.old journal.new }
{
    'tries: for (k, step) in steps.iter().enumerate() {
        if marks.is_marked(k) {
            journal.append_copy(alloc, step)?;
        }
    }
    Ok(())
}

/// What is known after these steps.
fn reached<'a>(
    alloc: Global,
    instance: &'a Instance,
    choice: &Choice,
    goal: u32,
    steps: &[Step],
) -> Result<Facts<'a>, MemoryFault>
    requires { IsChoice instance.now choice.now }
{
    let mut facts = Facts::new(alloc, instance, choice, goal)?;
    take_all(&mut facts, steps);
    Ok(facts)
}

/// Takes these steps, one after another: those that can be taken.
fn take_all(facts: &mut Facts, steps: &[Step]) {
    for step in steps {
        let _ = facts.apply(step);
    }
}
