//! Which tasks does a branch lead to?

ghost use Rattle.std.specs.Prelude.{◌≡◌, IfOk};
ghost use Rattle.tt_choice.specs.Choice.{IsChoice};
ghost use Rattle.tt_choice.specs.Branches.{IsOpen};
ghost use Rattle.search_trees.specs.Task.{choice_of, AreChildren};

use crate::task::Task;
use std::alloc::Global;
use tt_choice::Choice;
use ttp_model::{Instance, Kind, MemoryFault};

/// A task for each child of an open branch of a task's choice, in order.
pub fn child_tasks(
    alloc: Global,
    instance: &Instance,
    choice: &Choice,
    task: &Task,
    kind: &Kind,
) -> Result<Vec<Task>, MemoryFault>
    requires of { IsChoice instance.now choice.now }
    requires choice { choice.now ≡ choice_of instance.now task.now }
    requires is_open { IsOpen instance.now choice.now kind.now }
    ensures { IfOk result
        (λ tasks. AreChildren instance.now task.now kind.now tasks.items) }
{
    let _nodes = instance.nodes();
    let decisions = choice.decisions(alloc, instance, kind)?;
    let mut tasks = Vec::with_capacity(alloc, decisions.len())?;
    let mut index = 0;
    for decision in decisions {
        let child = task.child(alloc, index, decision)?;
        tasks.push(child)?;
        index += 1;
    }
    Ok(tasks)
}
