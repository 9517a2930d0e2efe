//! Do events of a search's core succeed where there is memory? What each comes to then is determined by their contracts.

use crate::Stopped;
use search_core::{Event, Illegal, Worked, World};
use std::alloc::Global;
use ttp_model::{Kind, Leaf, Steps};

/// A leaf without steps.
fn leaf(alloc: Global, goal: u32) -> Leaf {
    Leaf {
        goal,
        steps: Steps::new(Vec::new(alloc)),
    }
}

/// How many events there are.
const EVENTS: u32 = 17;

/// The second worker steals the root, splits it, and keeps one child. The first one steals the other child and finds a plan of 10 ticks
/// there, which the second one sees.
fn event(alloc: Global, turn: u32) -> Event {
    match turn {
        0 => Event::Steal(1, 0),
        1 | 10 | 15 => Event::Look(1),
        2 => Event::Work(1, Worked::Split(Kind::Place, 2)),
        3 | 4 | 12 => Event::Push(1),
        5 => Event::Steal(0, 1),
        6 | 14 => Event::Pop(1),
        7 => Event::Look(0),
        8 => Event::Work(0, Worked::Found(leaf(alloc, 10), 10)),
        9 => Event::Offer(0),
        11 => Event::Work(1, Worked::Split(Kind::Pair(0, 1), 2)),
        13 => Event::Rest(1),
        _ => Event::Work(1, Worked::Closed(leaf(alloc, 10))),
    }
}

/// How many events succeed, one after another: all there are, unless memory is refused or an event isn't taken.
pub fn succeed(alloc: Global) -> Result<u32, Stopped> {
    let mut world = World::start(alloc, 2, 101)?;
    for turn in 0..EVENTS {
        match world.step(alloc, event(alloc, turn)) {
            Ok(_) => {}
            Err(Illegal::OutOfMemory) => return Err(Stopped("memory was refused")),
            Err(_) => return Err(Stopped("an event isn't taken")),
        }
    }
    Ok(EVENTS)
}
