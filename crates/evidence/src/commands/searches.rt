//! What becomes of a subtree, and what a search tells of the least delay.

ghost use Rattle.std.specs.Prelude.{◌≡◌, ℕ, ◌<◌, ◌≤◌, IfOk, IfSome, min};
ghost use Rattle.ttp_model.specs.declared.step.Leaf.{Leaf};
ghost use Rattle.ttp_model.specs.Chains.{IsPathBound};
ghost use Rattle.ttp_model.specs.Delays.{delay, IsLeastDelay};
ghost use Rattle.ttp_model.specs.Moves.{IsSettled};
ghost use Rattle.ttp_model.specs.Plans.{IsValid};
ghost use Rattle.certificate.specs.declared.node.Node.TheVariants.{Leaf as AsLeaf};
ghost use Rattle.planner.specs.Onward.{told_low, IsSomePart};
ghost use Rattle.tree_check.specs.Proofs.{Proves};
ghost use Rattle.search_trees.specs.Task.{IsTask};

use branch_tree::{Piece, Task, Worked, close_left, work};
use certificate::Cert;
use planner::{
    FoundPlan, FreeGate, OnFault, Onward, Options, Outcome, Portion, Site, SolveFault, solve,
    solve_on, solve_towards,
};
use std::alloc::Global;
use std::sync::Wait;
use std::thread::Threads;
use ttp_model::{Instance, Leaf, MemoryFault, Plan};

/// A plan that is found is settled.
pub fn found_plan_is_settled(
    alloc: Global,
    instance: &Instance,
    task: Task,
    goal: u32,
) -> Option<Plan>
    requires { IsTask instance.now task }
    ensures { IfSome result (IsSettled instance.now) }
{
    match work(alloc, instance, task, goal) {
        Ok(Worked::Found(plan, _, _)) => Some(plan),
        _ => None,
    }
}

/// Its leaf has a goal below the one given.
pub fn leaf_of_a_find_is_below_the_goal(
    alloc: Global,
    instance: &Instance,
    task: Task,
    goal: u32,
) -> Option<Leaf>
    requires { IsTask instance.now task }
    ensures { IfSome result (λ leaf. leaf.goal < goal) }
{
    match work(alloc, instance, task, goal) {
        Ok(Worked::Found(_, _, leaf)) => Some(leaf),
        _ => None,
    }
}

/// A task that isn't to be worked is closed at the path bound at least, or at the goal asked for.
pub fn task_left_is_closed_at_the_path_bound(
    alloc: Global,
    instance: &Instance,
    task: Task,
    top: u32,
) -> Result<Piece, (Task, MemoryFault)>
    requires { IsTask instance.now task }
    ensures { IfOk result (λ piece. (bound : ℕ) (leaf : Leaf) → IsPathBound instance.now bound
        → piece.node ≡ AsLeaf leaf → min top bound ≤ leaf.goal) }
{
    close_left(alloc, instance, task, top)
}

/// Begun with a plan, a search answers one that takes no longer.
pub fn answer_is_no_later_than_the_start<R: Threads + Wait + Sync>(
    rt: &R,
    alloc: Global,
    instance: &Instance,
    options: Options,
    start: Plan,
) -> Result<u64, SolveFault>
    requires { IsValid instance.now start }
    ensures { IfOk result (λ ticks. ticks ≤ delay instance.now start) }
{
    let _nodes = instance.nodes();
    let site = Site {
        alloc,
        instance,
        gate: &FreeGate,
    };
    match solve_towards(rt, &site, options, 0, Some(start))? {
        Outcome::Optimal { delay, .. } => Ok(delay),
        Outcome::Stopped {
            best: Some(FoundPlan { delay, .. }),
            ..
        } => Ok(delay),
        Outcome::Stopped { best: None, .. } => unreachable!(),
        Outcome::Infeasible { .. } => unreachable!(),
    }
}

/// A delay that is told as the least is, also where the budget is spent.
pub fn least_is_told_of_a_least_delay<R: Threads + Wait + Sync>(
    rt: &R,
    alloc: Global,
    instance: &Instance,
    options: Options,
) -> Result<Option<u64>, SolveFault>
    ensures { IfOk result (λ answer. IfSome answer (IsLeastDelay instance.now)) }
{
    match solve(rt, alloc, instance, options)? {
        Outcome::Optimal { delay, .. } => Ok(Some(delay)),
        Outcome::Infeasible { .. } | Outcome::Stopped { .. } => Ok(None),
    }
}

/// Of a search that goes on no bound is told that is below its certificate's.
pub fn bound_is_no_lower_than_before<R: Threads + Wait + Sync>(
    rt: &R,
    alloc: Global,
    instance: &Instance,
    options: Options,
    cert: &Cert,
    part: Option<Portion>,
) -> Result<Outcome, OnFault>
    requires proves { Proves instance.now cert.now }
    requires part { IsSomePart part }
    ensures { IfOk result (λ outcome. cert.now.low ≤ told_low instance.now outcome) }
{
    let site = Site {
        alloc,
        instance,
        gate: &FreeGate,
    };
    let onward = Onward {
        cert,
        part,
        is_wide: false,
    };
    solve_on(rt, &site, options, 0, None, onward)
}
