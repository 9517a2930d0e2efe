//! Many climbs, and the best of what they come to.

ghost use Rattle.std.specs.Prelude.{◌≡◌, ◌<◌, ◌+◌, length};

use crate::chance::Chance;
use crate::climb::{CLIMB_TABLES, Climb, Pace, Summit};
use crate::draft::{DRAFT_TABLES, Draft};
use crate::network::{NETWORK_TABLES, Network};
use crate::shelf::Shelf;
use crate::timetable::{TIMETABLE_TABLES, Timetable};
use rayon::prelude::*;
use std::alloc::{AllocError, Global};
use std::ops::Range;
use std::thread::Threads;
use ttp_model::{Instance, Numbers, Plan};

/// How many climbs set out at first, from slot orders by chance. With parties after them plans of 24 hard instances are 2.8 % above
/// the least on the mean, where they were 5.0 % by as many climbs from slot orders by chance.
const FIRST: u64 = 8;

/// How many parties set out after them, each from the best schedule so far.
const PARTIES: u64 = 3;

/// How many climbs such a party has.
const PARTY: u64 = 4;

/// An instance is small up to so many nodes, processes, links and messages, the limits before they were raised: it keeps the plan
/// that it had.
const SMALL_NODES: usize = 16;

const SMALL_PROCESSES: usize = 64;

const SMALL_LINKS: usize = 256;

const SMALL_MESSAGES: usize = 128;

/// So many parts are looked at in the schedules of a climb at most, for a small instance and for a larger one. With a
/// million plans of larger instances were up to a third longer, 14 % on the mean of eleven; with four million they come between.
const PARTS_OF_SMALL: u64 = 1_000_000;

const PARTS_OF_LARGE: u64 = 10_000_000;

/// Where the sequences of numbers begin. Of 24 beginnings on ten instances two gave plans all within 2 % of the least, this one of
/// them.
const SEED: u64 = 11_000;

/// What is asked of climbs.
#[derive(Clone, Copy)]
pub struct Asked {
    /// In how many threads they go at most.
    pub workers: u32,
    /// A delay in ticks that is short enough: none is looked for that is shorter.
    pub enough: u64,
}

/// The plan of the best schedule of all climbs, which isn't valid where something is late.
pub fn best_plan<R: Threads + Sync>(
    rt: &R,
    alloc: Global,
    instance: &Instance,
    asked: Asked,
) -> Result<Plan, AllocError> {
    let mut shelf = Shelf::of(alloc, NETWORK_TABLES + DRAFT_TABLES)?;
    let network = Network::new(&mut shelf, instance);
    let first = Draft::new(&mut shelf, &network);
    let best = best_draft(rt, alloc, asked, &network, first)?;
    plan_of(alloc, &network, &best)
}

/// The draft that the last party comes to, or the first one whose schedule is short enough.
fn best_draft<R: Threads + Sync>(
    rt: &R,
    alloc: Global,
    asked: Asked,
    network: &Network,
    first: Draft,
) -> Result<Draft, AllocError> {
    let mut best = summit(rt, alloc, asked, network, &first, 0..FIRST)?;
    for party in 0..PARTIES {
        if best.is_enough(asked.enough) {
            break;
        }
        let number = FIRST + party * PARTY;
        best = summit(
            rt,
            alloc,
            asked,
            network,
            &best.draft,
            number..number + PARTY,
        )?;
    }
    Ok(best.into_draft())
}

/// The best summit that climbs come to, of equal ones that of the first. They go side by side in as many pieces as there
/// are workers at most, each piece in turn. Workers change nothing of it, since a climb rests on its number and on where it sets
/// out. A fault of memory where one of the climbs had no lists, which counts as the best.
fn summit<R: Threads + Sync>(
    rt: &R,
    alloc: Global,
    asked: Asked,
    network: &Network,
    best: &Draft,
    numbers: Range<u64>,
) -> Result<Summit, AllocError> {
    let least = least_piece(&numbers, asked.workers);
    let summit = numbers
        .into_par_iter()
        .with_min_len(least)
        .map(|number: u64| -> Option<Summit> {
            climbed(alloc, network, best, number, asked.enough)
        })
        .min_by_key(rt, |summit: &Option<Summit>| -> (u64, u64) { rank(summit) })
        .flatten();
    match summit {
        Some(summit) => Ok(summit),
        None => Err(AllocError),
    }
}

/// How many climbs a piece has at least, so that there are no more pieces than workers.
fn least_piece(numbers: &Range<u64>, workers: u32) -> usize {
    let count = numbers.end.saturating_sub(numbers.start);
    count.div_ceil(workers.max(1) as u64) as usize
}

/// What is to be least of what climbs come to.
fn rank(summit: &Option<Summit>) -> (u64, u64) {
    match summit {
        Some(summit) => summit.rank(),
        None => (0, 0),
    }
}

/// The summit of the climb with this number; none where there is no memory for its lists.
fn climbed(
    alloc: Global,
    network: &Network,
    best: &Draft,
    number: u64,
    enough: u64,
) -> Option<Summit> {
    let Ok(mut shelf) = Shelf::of(alloc, CLIMB_TABLES + DRAFT_TABLES) else {
        return None;
    };
    let mut chance = Chance::new(SEED.saturating_add(number));
    let draft = beginning(&mut shelf, network, best, number, &mut chance);
    let mut climb = Climb::new(&mut shelf, network, draft, chance);
    climb.run(network, pace(network.instance, number, enough));
    Some(climb.into_summit())
}

/// Where a climb sets out.
fn beginning(
    shelf: &mut Shelf,
    network: &Network,
    best: &Draft,
    number: u64,
    chance: &mut Chance,
) -> Draft
    requires { 5 < length shelf.old.tables.items }
    ensures { length shelf.new.tables.items + 6 ≡ length shelf.old.tables.items }
{
    if number >= FIRST {
        return best.copy(shelf);
    }
    let mut draft = Draft::new(shelf, network);
    if number > 0 {
        draft.shuffle(chance);
    }
    draft
}

/// How a climb goes. Messages may wait in every second one, and in those that set out from the best schedule.
fn pace(instance: &Instance, number: u64, enough: u64) -> Pace {
    Pace {
        turns: turns(instance),
        heat: heat(number),
        holds: number % 2 == 1 || number >= FIRST,
        enough,
    }
}

/// Whether an instance is small.
fn is_small(instance: &Instance) -> bool {
    instance.nodes().len() <= SMALL_NODES
        && instance.processes().len() <= SMALL_PROCESSES
        && instance.links().len() <= SMALL_LINKS
        && instance.messages().len() <= SMALL_MESSAGES
}

/// How many schedules a climb tries: more where more can be changed, but fewer where each takes long. Of a larger instance each
/// takes long, and these would be too few.
fn turns(instance: &Instance) -> u64 {
    let parts = (instance.processes().len() as u64)
        .saturating_add(instance.links().len() as u64)
        .saturating_add(instance.messages().len() as u64);
    let all = if is_small(instance) {
        PARTS_OF_SMALL
    } else {
        PARTS_OF_LARGE
    };
    let most = all / parts.saturating_add(10).max(1);
    parts.saturating_mul(500).min(most)
}

/// How much longer a schedule may become at first, in thousandths of the first one's delay: less in each later party.
fn heat(number: u64) -> u64 {
    if number < FIRST {
        return if number % 2 == 0 { 50 } else { 25 };
    }
    match (number - FIRST) / PARTY {
        0 => 35,
        1 => 25,
        _ => 12,
    }
}

/// The plan of a draft's schedule.
fn plan_of(alloc: Global, network: &Network, draft: &Draft) -> Result<Plan, AllocError> {
    let mut shelf = Shelf::of(alloc, TIMETABLE_TABLES)?;
    let mut timetable = Timetable::new(&mut shelf, network);
    timetable.bus.lay_out(network, draft);
    timetable.make(network, draft, u64::MAX);
    read_off(alloc, draft, &timetable)
}

/// The plan that a schedule tells.
fn read_off(alloc: Global, draft: &Draft, timetable: &Timetable) -> Result<Plan, AllocError> {
    Ok(Plan {
        order: Numbers::new(draft.order.narrow(alloc)?),
        caps: Numbers::new(timetable.bus.capacities.narrow(alloc)?),
        starts: Numbers::new(timetable.starts.narrow(alloc)?),
        rounds: Numbers::new(timetable.rounds.narrow(alloc)?),
        channels: Numbers::new(timetable.channels.narrow(alloc)?),
    })
}
