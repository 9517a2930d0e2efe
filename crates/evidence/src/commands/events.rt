//! What does an event of a search do to its worker?

ghost use Rattle.std.specs.Prelude.{◌≡◌, ◌++◌, ◌∷◌, [], IfOk, OnOk};
ghost use Rattle.search_core.specs.World.{worker_at};
ghost use Rattle.evidence.specs.Events.{TakesLast};

use search_core::{Event, Illegal, Reply, Worked, World};
use std::alloc::Global;
use ttp_model::Leaf;

/// A worker closes its task by a leaf at just the delay that it saw.
pub fn leaf_is_closed_at_what_was_seen(
    alloc: Global,
    world: &mut World,
    worker: u32,
    leaf: Leaf,
) -> Result<Reply, Illegal>
    ensures { OnOk result (leaf.goal ≡ (worker_at world.old worker).seen) }
{
    world.step(alloc, Event::Work(worker, Worked::Closed(leaf)))
}

/// A worker that looks sees the best delay, also where it saw a lesser one before.
pub fn look_sees_the_best_delay(
    alloc: Global,
    world: &mut World,
    worker: u32,
) -> Result<Reply, Illegal>
    ensures { OnOk result ((worker_at world.new worker).seen ≡ world.old.best) }
{
    world.step(alloc, Event::Look(worker))
}

/// A worker pops the last name of its deque, which is its answer and its task.
pub fn pop_takes_the_last_name(
    alloc: Global,
    world: &mut World,
    worker: u32,
) -> Result<Reply, Illegal>
    ensures { IfOk result (TakesLast (worker_at world.old worker) (worker_at world.new worker)) }
{
    world.step(alloc, Event::Pop(worker))
}
