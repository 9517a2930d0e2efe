//! Which plan of a complete choice is the earliest?

ghost use Rattle.std.specs.Prelude.{◌≡◌, length, IfOk};
ghost use Rattle.ttp_model.specs.Delays.{delay};
ghost use Rattle.tt_choice.specs.Choice.{IsChoice, IsComplete};
ghost use Rattle.earliest_starts.specs.Answers.{IsEarliestAnswer};
ghost use Rattle.earliest_starts.specs.Fixed.{fixed_caps, fixed_channels, plan_of};
ghost use Rattle.earliest_starts.specs.Ranks.{AreRanks, Rise, TurnsNoLink};

use crate::answer::Earliest;
use crate::clash::Clash;
use crate::floors::floors;
use crate::frames::{fixed_caps, fixed_channels, late_message};
use crate::loads::overfull;
use crate::ranks::{disorder, ranks, ring, turned_link};
use crate::starts::settle;
use std::alloc::Global;
use tt_choice::Choice;
use tt_layout::Layout;
use ttp_model::{Instance, MemoryFault, Numbers, Plan, delay};

/// The plan of a complete choice in which each process starts as early as it can, or why the
/// choice has no valid plan. Rings are looked for first, then starts are found rank by rank, then
/// slots and frames are judged.
///
/// A pass over the links, three over the pairs of processes, one over the messages and their
/// receivers, and one over the messages for each node and channel.
pub fn earliest(
    alloc: Global,
    instance: &Instance,
    choice: &Choice,
) -> Result<Earliest, MemoryFault>
    requires of { IsChoice instance.now choice.now }
    requires complete { IsComplete instance.now choice.now }
    ensures { IfOk result (IsEarliestAnswer instance.now choice.now) }
{
    let _processes = instance.processes();
    if let Some(link) = turned_link(instance, choice) {
        let two = vec![in alloc; link.before, link.after]?;
        return Ok(Earliest::Clash(Clash::Cycle(Numbers::new(two))));
    }
    let ranks = ranks(alloc, instance, choice)?;
    if let Some((first, second)) = disorder(instance, choice, ranks.as_slice()) {
        let ring = ring(alloc, instance, choice, first, second)?;
        return Ok(Earliest::Clash(Clash::Cycle(ring)));
    }
    let answer = timed(alloc, instance, choice, ranks.as_slice())?;
    Ok(answer)
}

/// The answer for a choice without rings.
fn timed(
    alloc: Global,
    instance: &Instance,
    choice: &Choice,
    ranks: &[u32],
) -> Result<Earliest, MemoryFault>
    requires of { IsChoice instance.now choice.now }
    requires complete { IsComplete instance.now choice.now }
    requires links { TurnsNoLink instance.now choice.now }
    requires ranks { AreRanks instance.now choice.now ranks.now }
    requires rise { Rise instance.now choice.now ranks.now }
    ensures { IfOk result (IsEarliestAnswer instance.now choice.now) }
{
    let count = instance.processes().len();
    let caps = fixed_caps(alloc, instance, choice)?;
    let layout = Layout::of(instance, choice.prefix(), caps.as_slice());
    let floors = floors(alloc, instance, choice, &layout)?;
    let mut starts = vec![in alloc; 0u32; count]?;
    if let Some(p) = settle(instance, choice, ranks, floors.as_slice(), &mut starts) {
        return Ok(Earliest::Clash(Clash::Window(p)));
    }
    if let Some(m) = late_message(instance, choice, &layout, starts.as_slice()) {
        return Ok(Earliest::Clash(Clash::Round(m)));
    }
    let channels = fixed_channels(alloc, instance, choice)?;
    if let Some((n, r, k)) = overfull(
        alloc,
        instance,
        choice,
        caps.as_slice(),
        channels.as_slice(),
    )? {
        return Ok(Earliest::Clash(Clash::Frame(n, r, k)));
    }
    let (plan, ticks) = made(alloc, instance, choice, caps, starts, channels)?;
    Ok(Earliest::Plan(plan, ticks))
}

/// The plan of these capacities, starts and channels, with its delay in ticks.
fn made(
    alloc: Global,
    instance: &Instance,
    choice: &Choice,
    caps: Vec<u32>,
    starts: Vec<u32>,
    channels: Vec<u32>,
) -> Result<(Plan, u64), MemoryFault>
    requires of { IsChoice instance.now choice.now }
    requires caps { caps.items ≡ fixed_caps choice.now }
    requires all { length starts.items ≡ length instance.now.processes }
    requires channels { channels.items ≡ fixed_channels choice.now }
    ensures plan { IfOk result (λ made. made.0 ≡ plan_of choice.now starts.items) }
    ensures ticks { IfOk result
        (λ made. made.1 ≡ delay instance.now (plan_of choice.now starts.items)) }
{
    let plan = Plan {
        order: Numbers::new(Vec::from_slice(alloc, choice.prefix())?),
        caps: Numbers::new(caps),
        starts: Numbers::new(starts),
        rounds: rounds(alloc, instance, choice)?,
        channels: Numbers::new(channels),
    };
    let ticks = delay(instance, &plan);
    Ok((plan, ticks))
}

/// The round of each message.
fn rounds(alloc: Global, instance: &Instance, choice: &Choice) -> Result<Numbers, MemoryFault>
    requires { IsChoice instance.now choice.now }
    ensures { IfOk result (λ rounds. rounds ≡ choice.now.lo) }
{
    let count = instance.messages().len() as u32;
    let mut rounds = Vec::new(alloc);
    for m in 0..count {
        rounds.push(choice.lo(m))?;
    }
    Ok(Numbers::new(rounds))
}
