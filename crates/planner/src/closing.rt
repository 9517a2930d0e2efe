//! What a search leaves is closed.

ghost use Rattle.std.specs.Prelude.{◌≡◌, IfOk, All, min};
ghost use Rattle.ttp_model.specs.declared.step.Leaf.{Leaf};
ghost use Rattle.certificate.specs.declared.node.Node.TheVariants as node;
ghost use Rattle.search_workers.specs.Task.{IsTask};
ghost use Rattle.search_workers.specs.Work.{IsLeftClosed};
ghost use Rattle.planner.specs.Closing.{AreClosed};

use certificate::Node;
use search_workers::{Agenda, Piece, Task, close_left_by};
use std::alloc::Global;
use ttp_model::{Instance, MemoryFault, Step};

/// The lesser of a leaf's goal and a tick.
pub fn lowered(piece: &Piece, low: u32) -> u32
    ensures { (leaf : Leaf) → piece.now.node ≡ node.Leaf leaf → result ≡ min low leaf.goal }
{
    match &piece.node {
        Node::Leaf(leaf) => low.min(leaf.goal),
        _ => low,
    }
}

/// The steps of the last leaf; none where there is none.
fn last_steps(closed: &[Piece]) -> &[Step] {
    match closed.last() {
        Some(piece) => match &piece.node {
            Node::Leaf(leaf) => leaf.steps.as_slice(),
            Node::Branch(_) => &[],
        },
        None => &[],
    }
}

/// Closes one task at a goal of at most `top` ticks, where they do by these steps.
pub fn close(
    alloc: Global,
    agenda: &mut Agenda,
    instance: &Instance,
    task: Task,
    top: u32,
    steps: &[Step],
) -> Result<Piece, MemoryFault>
    requires { IsTask instance.now task }
    ensures { IfOk result (IsLeftClosed instance.now task top) }
{
    match close_left_by(alloc, agenda, instance, task, top, steps) {
        Ok(piece) => Ok(piece),
        Err((_, fault)) => Err(fault),
    }
}

/// Closes tasks with this agenda.
fn close_all_by(
    alloc: Global,
    agenda: &mut Agenda,
    instance: &Instance,
    tasks: Vec<Task>,
    top: u32,
) -> Result<(Vec<Piece>, u32), MemoryFault>
    requires { All (IsTask instance.now) tasks.items }
    ensures { IfOk result (λ r. AreClosed instance.now tasks.items top r.0.items r.1) }
{
    let mut closed = Vec::with_capacity(alloc, tasks.len())?;
    let mut low = top;
    for task in tasks {
        let piece = close(alloc, agenda, instance, task, low, last_steps(&closed))?;
        low = lowered(&piece, low);
        closed.push(piece)?;
    }
    Ok((closed, low))
}

/// Closes tasks at goals of at most `top` ticks, in order: their leaves, and the least of `top` and
/// the leaves' goals. None is closed higher than one before it, since the least is all that counts: so most of them take one
/// propagation, or are closed by the very steps of the one before it.
pub fn close_all(
    alloc: Global,
    instance: &Instance,
    tasks: Vec<Task>,
    top: u32,
) -> Result<(Vec<Piece>, u32), MemoryFault>
    requires { All (IsTask instance.now) tasks.items }
    ensures { IfOk result (λ r. AreClosed instance.now tasks.items top r.0.items r.1) }
{
    let mut agenda = Agenda::of(alloc, instance)?;
    let closed = close_all_by(alloc, &mut agenda, instance, tasks, top);
    drop(agenda);
    closed
}
