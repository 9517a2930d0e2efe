//! What is a task worked into?

ghost use Rattle.std.specs.Prelude.{◌≡◌, ℕ, ◌<◌, ◌≤◌, min, length, Some, IfOk, IfErr};
ghost use Rattle.ttp_model.specs.declared.plan.Plan.{Plan};
ghost use Rattle.ttp_model.specs.declared.step.Kind.TheVariants.{Place};
ghost use Rattle.ttp_model.specs.Chains.{IsPathBound};
ghost use Rattle.ttp_model.specs.Delays.{IsLowerBound};
ghost use Rattle.tt_choice.specs.Choice.{IsChoice, IsComplete};
ghost use Rattle.tt_infer.specs.Leaves.{ClosesSharply};
ghost use Rattle.search_trees.specs.PlansBelow.{IsPlanBelow};
ghost use Rattle.branch_tree.specs.Branching.{Branches};
ghost use Rattle.search_trees.specs.Task.{choice_of, root_task, IsTask};
ghost use Rattle.branch_tree.specs.Work.{IsWorked, IsLeftClosed};
ghost use Rattle.branch_tree.specs.Workbench.{IsWorkbenchOf, ComesTo};

use crate::branching::{branch, branch_on};
use crate::failures::Failures;
use crate::finding::found;
use crate::lessons::Lessons;
use crate::workbench::Workbench;
use crate::worked::Worked;
use certificate::Node;
use search_trees::{
    Agenda, Piece, Propagator, Task, Trial, best_goal, child_tasks, leaf_by, tried,
};
use std::alloc::Global;
use tt_choice::Choice;
use ttp_model::{Instance, Kind, Leaf, MemoryFault, Step};

/// Works a task at a goal in ticks: closes it where propagation can, splits it where something is
/// left to choose, and else gives the earliest plan of its choice, settled. So a task with nothing
/// left to choose is closed or has its plan found.
///
/// After a refusal of memory the task comes back. Costs a propagation, which goes on after each of
/// the task's decisions, and for a plan a second one at its delay.
pub fn work(
    alloc: Global,
    instance: &Instance,
    task: Task,
    goal: u32,
) -> Result<Worked, (Task, MemoryFault)>
    requires { IsTask instance.now task }
    ensures worked { IfOk result (IsWorked instance.now task goal) }
    ensures back { IfErr result (λ refused. refused.0 ≡ task) }
{
    let mut bench = Workbench::new();
    let worked = work_on(alloc, instance, &mut bench, task, goal);
    drop(bench);
    worked
}

/// The same with what is kept of the task that was worked last: it goes on from where the two part.
pub fn work_on<'a>(
    alloc: Global,
    instance: &'a Instance,
    bench: &mut Workbench<'a>,
    task: Task,
    goal: u32,
) -> Result<Worked, (Task, MemoryFault)>
    requires task { IsTask instance.now task }
    requires bench { IsWorkbenchOf instance.now bench.old }
    ensures worked { IfOk result (IsWorked instance.now task goal) }
    ensures back { IfErr result (λ refused. refused.0 ≡ task) }
    ensures bench { IsWorkbenchOf instance.now bench.new }
{
    match worked(alloc, instance, bench, &task, goal) {
        Ok(worked) => Ok(worked),
        Err(fault) => Err((task, fault)),
    }
}

/// The same of a task that stays.
fn worked<'a>(
    alloc: Global,
    instance: &'a Instance,
    bench: &mut Workbench<'a>,
    task: &Task,
    goal: u32,
) -> Result<Worked, MemoryFault>
    requires task { IsTask instance.now task.now }
    requires bench { IsWorkbenchOf instance.now bench.old }
    ensures worked { IfOk result (IsWorked instance.now task.now goal) }
    ensures bench { IsWorkbenchOf instance.now bench.new }
{
    let decisions = task.decisions(alloc)?;
    let mut reached = bench.reach(alloc, instance, decisions.as_slice(), goal)?;
    let mut lessons = bench.take_lessons();
    let worked = worked_from(
        alloc,
        instance,
        &mut reached,
        &mut lessons,
        task,
        decisions.len(),
        goal,
    );
    if let Ok(worked) = &worked {
        lessons.note(instance, worked);
    }
    bench.keep(reached, lessons);
    worked
}

/// The same by the propagation that was made for it, where so many decisions lead to it.
fn worked_from(
    alloc: Global,
    instance: &Instance,
    reached: &mut Propagator,
    lessons: &mut Lessons,
    task: &Task,
    depth: usize,
    goal: u32,
) -> Result<Worked, MemoryFault>
    requires task { IsTask instance.now task.now }
    requires depth { depth ≡ length task.now.decisions }
    requires comes { ComesTo instance.now goal task.now.decisions reached.old }
    ensures worked { IfOk result (IsWorked instance.now task.now goal) }
    ensures instance { reached.new.instance ≡ instance.now }
{
    if reached.decisions().len() < depth {
        return worked_anew(alloc, instance, task, goal);
    }
    if reached.closed() {
        let leaf = reached.leaf(alloc)?;
        return Ok(Worked::Closed(leaf));
    }
    let at_root = task.name().is_root();
    let kind = branch_on(alloc, instance, reached, lessons, at_root)?;
    let facts = reached.facts();
    taken(alloc, instance, facts.choice(), task, goal, kind)
}

/// The same by a propagation of its own: the choice is a closed one's, since the goal has fallen.
fn worked_anew(
    alloc: Global,
    instance: &Instance,
    task: &Task,
    goal: u32,
) -> Result<Worked, MemoryFault>
    requires { IsTask instance.now task.now }
    ensures { IfOk result (IsWorked instance.now task.now goal) }
{
    let choice = task.choice(alloc, instance)?;
    match tried(alloc, instance, &choice, goal)? {
        Trial::Closed(leaf) => Ok(Worked::Closed(leaf)),
        Trial::At(facts) => {
            let at_root = task.name().is_root();
            let kind = branch(instance, &choice, &facts, &Failures::none(), at_root);
            taken(alloc, instance, &choice, task, goal, kind)
        }
    }
}

/// The branch that is taken, or the plan that is found where nothing is left to choose.
fn taken(
    alloc: Global,
    instance: &Instance,
    choice: &Choice,
    task: &Task,
    goal: u32,
    kind: Option<Kind>,
) -> Result<Worked, MemoryFault>
    requires task { IsTask instance.now task.now }
    requires of { IsChoice instance.now choice.now }
    requires choice { choice.now ≡ choice_of instance.now task.now }
    requires above { (bound : ℕ) → IsPathBound instance.now bound → bound < goal }
    requires finds { IsComplete instance.now choice.now → (plan : Plan) × IsPlanBelow instance.now choice.now goal plan }
    requires branches { Branches instance.now choice.now kind }
    requires root { task.now ≡ root_task → 2 ≤ length instance.now.nodes → kind ≡ Some Place }
    ensures { IfOk result (IsWorked instance.now task.now goal) }
{
    let _nodes = instance.nodes();
    let Some(kind) = kind else {
        return found(alloc, instance, choice, goal);
    };
    let tasks = child_tasks(alloc, instance, choice, task, &kind)?;
    Ok(Worked::Split(kind, tasks))
}

/// Closes a task that isn't to be worked at the greatest goal of at most `top` ticks that
/// propagation closes: never below the lesser of `top` and the path bound. After a refusal of memory
/// the task comes back.
pub fn close_left(
    alloc: Global,
    instance: &Instance,
    task: Task,
    top: u32,
) -> Result<Piece, (Task, MemoryFault)>
    requires { IsTask instance.now task }
    ensures piece { IfOk result (IsLeftClosed instance.now task top) }
    ensures back { IfErr result (λ refused. refused.0 ≡ task) }
{
    let mut agenda = match Agenda::of(alloc, instance) {
        Ok(agenda) => agenda,
        Err(fault) => return Err((task, fault)),
    };
    close_left_by(alloc, &mut agenda, instance, task, top, &[])
}

/// The same by the steps of another leaf, where they close it at `top` itself: that costs far less than a propagation. An agenda of the
/// instance serves for one task after another.
pub fn close_left_by(
    alloc: Global,
    agenda: &mut Agenda,
    instance: &Instance,
    task: Task,
    top: u32,
    steps: &[Step],
) -> Result<Piece, (Task, MemoryFault)>
    requires { IsTask instance.now task }
    ensures piece { IfOk result (IsLeftClosed instance.now task top) }
    ensures back { IfErr result (λ refused. refused.0 ≡ task) }
{
    match left_leaf(alloc, agenda, instance, &task, top, steps) {
        Ok(leaf) => Ok(Piece {
            name: task.into_name(),
            node: Node::Leaf(leaf),
        }),
        Err(fault) => Err((task, fault)),
    }
}

/// The leaf that closes it.
fn left_leaf(
    alloc: Global,
    agenda: &mut Agenda,
    instance: &Instance,
    task: &Task,
    top: u32,
    steps: &[Step],
) -> Result<Leaf, MemoryFault>
    requires { IsTask instance.now task.now }
    ensures closes { IfOk result (ClosesSharply instance.now (choice_of instance.now task.now)) }
    ensures most { IfOk result (λ leaf. leaf.goal ≤ top) }
    ensures least { IfOk result (λ leaf. (bound : ℕ) → IsPathBound instance.now bound
        → min top bound ≤ leaf.goal) }
{
    let choice = task.choice(alloc, instance)?;
    if !steps.is_empty() {
        if let Some(leaf) = leaf_by(alloc, instance, &choice, top, steps)? {
            return Ok(leaf);
        }
    }
    best_goal(alloc, agenda, instance, &choice, top)
}

/// The greatest goal of at most `top` ticks at which propagation closes the whole tree: no plan has a delay below it.
pub fn root_bound(alloc: Global, instance: &Instance, top: u32) -> Result<u32, MemoryFault>
    ensures bound { IfOk result (λ goal. IsLowerBound instance.now goal) }
    ensures most { IfOk result (λ goal. goal ≤ top) }
{
    let _nodes = instance.nodes();
    let root = Task::root(alloc, instance)?;
    let mut agenda = Agenda::of(alloc, instance)?;
    let closed = left_leaf(alloc, &mut agenda, instance, &root, top, &[]);
    drop(agenda);
    let leaf = closed?;
    Ok(leaf.goal)
}

/// Whether propagation closes a task at a goal in ticks. It goes on from what is kept of the task before. For the choice of a task alone:
/// what is said of plans is what a leaf says.
pub fn is_closed_below<'a>(
    alloc: Global,
    instance: &'a Instance,
    bench: &mut Workbench<'a>,
    task: &Task,
    goal: u32,
) -> Result<bool, MemoryFault>
    requires task { IsTask instance.now task.now }
    requires bench { IsWorkbenchOf instance.now bench.old }
    ensures { IsWorkbenchOf instance.now bench.new }
{
    let decisions = task.decisions(alloc)?;
    let reached = bench.reach(alloc, instance, decisions.as_slice(), goal)?;
    let is_closed = reached.closed();
    let lessons = bench.take_lessons();
    bench.keep(reached, lessons);
    Ok(is_closed)
}
