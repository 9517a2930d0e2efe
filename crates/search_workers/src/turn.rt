//! What becomes of a task that is worked, whoever works it?

ghost use Rattle.std.specs.Prelude.{◌≡◌, IfErr, IfOk};
ghost use Rattle.branch_tree.specs.Task.{IsTask};
ghost use Rattle.branch_tree.specs.Workbench.{IsWorkbenchOf};
ghost use Rattle.search_workers.specs.Gains.{IsGain};

use crate::found::FoundPlan;
use branch_tree::{Piece, Task, Workbench, Worked, work_on};
use certificate::{Branch, Node};
use std::alloc::Global;
use ttp_model::{Instance, Kind};

/// What is gained where a task is worked, beside its piece.
#[derive(Drop)]
pub enum Gain {
    /// The children of a branch of this kind.
    Children(Kind, Vec<Task>),
    /// Nothing: a leaf closes it.
    Nothing,
    /// A settled plan.
    Found(FoundPlan),
}

/// Works a task at a goal, on from the last one: what became of it, and what is gained. Where memory is refused, it comes back.
pub fn work_task<'a>(
    alloc: Global,
    instance: &'a Instance,
    bench: &mut Workbench<'a>,
    task: Task,
    goal: u32,
) -> Result<(Piece, Gain), Task>
    requires task { IsTask instance.now task }
    requires bench { IsWorkbenchOf instance.now bench.old }
    ensures made { IfOk result (λ made. IsGain instance.now goal (record { task = task; piece = made.0 }) made.1) }
    ensures back { IfErr result (λ back. back ≡ task) }
    ensures bench { IsWorkbenchOf instance.now bench.new }
{
    let _nodes = instance.nodes();
    let Ok(name) = task.name().copy(alloc) else {
        return Err(task);
    };
    match work_on(alloc, instance, bench, task, goal) {
        Ok(Worked::Split(kind, tasks)) => {
            let node = Node::Branch(Branch::new(kind, tasks.len() as u32));
            Ok((Piece { name, node }, Gain::Children(kind, tasks)))
        }
        Ok(Worked::Closed(leaf)) => {
            let node = Node::Leaf(leaf);
            Ok((Piece { name, node }, Gain::Nothing))
        }
        Ok(Worked::Found(plan, delay, leaf)) => {
            let node = Node::Leaf(leaf);
            Ok((Piece { name, node }, Gain::Found(FoundPlan { plan, delay })))
        }
        Err((task, _)) => Err(task),
    }
}
