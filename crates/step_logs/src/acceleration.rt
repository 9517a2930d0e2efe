//! How is as much as possible sharpened with few tries?

ghost use Rattle.step_logs.specs.Journal.{Advances};

use crate::journal::Journal;
use std::alloc::Global;
use step_agenda::Agenda;
use tt_choice::Decision;
use tt_infer::Facts;
use ttp_model::{MemoryFault, Step};

/// More turns than there can be steps.
const MOST_TURNS: u32 = 2_000_000_000;

/// Tries the steps that may sharpen what is known at first, cheap ones first and each again only once a fact
/// that it reads has been sharpened, until none is left or no plan is.
pub fn accelerate(
    alloc: Global,
    agenda: &mut Agenda,
    journal: &mut Journal,
) -> Result<(), MemoryFault>
    ensures { Advances journal.old journal.new }
{
    agenda.begin(journal.facts().instance())?;
    let mut steps = agenda.opening_steps(alloc, journal.facts())?;
    follow(alloc, journal, agenda, &mut steps)
}

/// The same after a decision, where all was tried that could sharpen what was known before it.
pub fn go_on(
    alloc: Global,
    agenda: &mut Agenda,
    before: &Facts,
    decision: Decision,
    journal: &mut Journal,
) -> Result<(), MemoryFault>
    ensures { Advances journal.old journal.new }
{
    agenda.resume(before, journal.facts(), decision)?;
    let mut steps = agenda.take_room(alloc);
    agenda.add_decided(alloc, journal.facts(), decision, &mut steps)?;
    follow(alloc, journal, agenda, &mut steps)?;
    agenda.keep_room(steps);
    Ok(())
}

/// The same where process `p` was set to go before `q`, and all was tried that could sharpen what was known before that.
pub fn suppose(
    alloc: Global,
    agenda: &mut Agenda,
    p: u32,
    q: u32,
    journal: &mut Journal,
) -> Result<(), MemoryFault>
    ensures { Advances journal.old journal.new }
{
    agenda.suppose(journal.facts(), p, q)?;
    let mut steps = agenda.take_room(alloc);
    follow(alloc, journal, agenda, &mut steps)?;
    agenda.keep_room(steps);
    Ok(())
}

/// Tries these steps and those that come of them.
fn follow(
    alloc: Global,
    journal: &mut Journal,
    agenda: &mut Agenda,
    steps: &mut Vec<Step>,
) -> Result<(), MemoryFault>
    ensures { Advances journal.old journal.new }
{
    'turns: for _ in 0..MOST_TURNS {
        try_all(journal, agenda, steps)?;
        if journal.facts().closed() || !agenda.next(alloc, journal.facts(), steps)? {
            return Ok(());
        }
    }
    Ok(())
}

/// Tries all these steps, the last first, and takes note of what they sharpen.
fn try_all(
    journal: &mut Journal,
    agenda: &mut Agenda,
    steps: &mut Vec<Step>,
) -> Result<(), MemoryFault>
    ensures { Advances journal.old journal.new }
{
    'tries: while let Some(step) = steps.pop() {
        if let Some(fact) = journal.try_step(step)? {
            agenda.note(journal.facts(), fact)?;
        }
    }
    Ok(())
}
