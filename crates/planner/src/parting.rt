//! How is what a part left of its own closed, and what does its tree say, in which the leaves of all others stay?

ghost use Rattle.std.specs.Prelude.{◌≡◌, ◌≤◌, ℕ, IfOk, OnOk, All, length};
ghost use Rattle.planner.specs.Begun.{nodes_of};
ghost use Rattle.search_workers.specs.Searching.{IsWorkedOut};
ghost use Rattle.search_workers.specs.Task.{IsTask};
ghost use Rattle.search_workers.specs.declared.outcome.Why.TheVariants as causes;
ghost use Rattle.planner.specs.Answers.{best_of, IsCalledOff};
ghost use Rattle.planner.specs.Closing.{IsPartClosed};
ghost use Rattle.planner.specs.PartAnswers.{IsPartEnd, IsPartOutcome, IsPartSearch};

use crate::end_tree::ended;
use crate::joining::join;
use crate::parts::Dealt;
use crate::solving::{certified, close_behind};
use certificate::Version;
use search_workers::{Aims, Options, Outcome, Piece, Search, SolveFault, Task, Why, aim};
use std::alloc::Global;
use ttp_model::{Instance, MemoryFault};

/// Closes what a part left of its own, at goals of at most `top` ticks, and puts what closes it behind pieces, and behind that the leaves of all others.
fn close_part(
    alloc: Global,
    instance: &Instance,
    pieces: &mut Vec<Piece>,
    tasks: Vec<Task>,
    others: Vec<Piece>,
    top: u32,
) -> Result<(), MemoryFault>
    requires { All (IsTask instance.now) tasks.items }
    ensures { OnOk result (IsPartClosed instance.now pieces.old.items tasks.items others.items top pieces.new.items) }
{
    let _low = close_behind(alloc, instance, pieces, tasks, top)?;
    join(pieces, others)?;
    Ok(())
}

/// Why a part ended that ended for this reason: where nothing of its own is left, that is why.
pub fn part_cause(why: Why, search: &Search) -> Why
    ensures end { (budget : ℕ) → IsWorkedOut budget search.now.pieces.items why → IsPartEnd budget search.now.pieces.items result }
    ensures called_off { result ≡ causes.CalledOff → why ≡ causes.CalledOff }
{
    if search.tasks.is_empty() {
        return Why::Part;
    }
    why
}

/// Closes what a part left of its own, and tells what its tree shows.
pub fn part_concluded(
    alloc: Global,
    instance: &Instance,
    options: Options,
    aims: Aims,
    dealt: Dealt,
    why: Why,
) -> Result<Outcome, SolveFault>
    requires part { IsPartSearch instance.now aims dealt.search dealt.others.items }
    requires within { length dealt.search.pieces.items ≤ options.budget }
    requires cause { IsPartEnd options.budget dealt.search.pieces.items why }
    ensures answer { IfOk result (IsPartOutcome instance.now options aims.gap (nodes_of dealt.others.items)) }
    ensures best { IfOk result (λ outcome. best_of outcome ≡ dealt.search.best) }
    ensures called_off { IfOk result (λ outcome. IsCalledOff outcome → why ≡ causes.CalledOff) }
{
    let _nodes = instance.nodes();
    let Dealt { search, others, .. } = dealt;
    let Search {
        pieces,
        room,
        tasks,
        best,
        ..
    } = search;
    let mut pieces = pieces;
    let top = aim(instance, aims, &best);
    close_part(alloc, instance, &mut pieces, tasks, others, top)?;
    let cert = certified(room, pieces, 0)?;
    let cert = cert.with_version(Version::of_answers(instance));
    Ok(ended(instance, aims.gap, why, best, cert))
}
