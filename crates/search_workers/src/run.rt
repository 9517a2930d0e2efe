//! What does a worker do in one turn?

ghost use Rattle.std.specs.Prelude.{◌≡◌, false, ◌<◌, ◌≤◌, ◌+◌, ◌++◌, ℕ, List, All, IsTrue, IfOk, OnOk, OnErr, IfErr, IsPermutation, vec_len, vec_capacity};
ghost use Rattle.branch_tree.specs.Pieces.{IsRight, IsSharp};
ghost use Rattle.branch_tree.specs.Task.{Task, choice_of, IsTask};
ghost use Rattle.branch_tree.specs.Workbench.{IsWorkbenchOf};
ghost use Rattle.incumbent.specs.Watch.{IsOther};
ghost use Rattle.steal_pool.specs.Hand.{pushed, taken, IsSameHand};
ghost use Rattle.search_workers.specs.declared.run.Sweep.TheVariants as sweep;
ghost use Rattle.used_decisions.specs.declared.manner.Manner.TheVariants.{Plain};
ghost use Rattle.used_decisions.specs.Needs.{HoldUpTo, AreAt};
ghost use Rattle.branch_tree.specs.piece.Piece.{Piece};
ghost use Rattle.tt_choice.specs.declared.decision.Decision.{Decision};
ghost use Rattle.ttp_model.specs.Instance.{Instance};
ghost use Rattle.search_workers.specs.Goals.{goals_at};
ghost use Rattle.search_workers.specs.Report.{IsReachedBy, IsSpared, AreSpared};
ghost use Rattle.search_workers.specs.Run.{GoesOn, Pushes, Refuses, Spares, Works, rest_after, room_kept};

use crate::aims::{Aims, goal_of};
use crate::found::FoundPlan;
use crate::gate::Gate;
use crate::report::Rest;
use crate::site::{Course, Site};
use crate::turn::{Gain, work_task};
use branch_tree::{Piece, Task, Workbench};
use certificate::Node;
use incumbent::{Incumbent, Watch};
use std::alloc::Global;
use steal_pool::{Hand, Searched};
use tt_choice::{Decision, is_of_places};
use ttp_model::{Instance, Kind, MemoryFault};
use used_decisions::{Manner, Needs};

/// For how many pieces there is room beside those that are made, at least: the leaves that close what is open in the end.
const AHEAD: usize = 4096;

/// A worker between two turns: its hand and its watch, what became of the tasks that it worked, those that it left since they
/// aren't needed, room for a certificate's nodes, and the best plan that it found.
#[derive(Drop)]
pub struct Run<J: Searched> {
    pub hand: Hand<J>,
    pub watch: Watch,
    pub pieces: Vec<Piece>,
    pub spared: Vec<Task>,
    pub room: Vec<Node>,
    /// How many workers there are.
    pub workers: usize,
    pub best: Option<FoundPlan>,
}

/// What a turn came to.
#[derive(Drop)]
pub enum Sweep {
    /// No task was found.
    Idle,
    Worked,
    /// A task was taken that needn't be worked.
    Spared,
    /// Memory was refused.
    Ended(Rest),
}

/// The children of a branch in the order in which they are pushed, the last first. So the first is worked first, which is most likely
/// to do without its decision: the least capacity, the order of two processes with more slack, the earlier rounds, the first channel. No
/// place is more so than another one, and the last is worked first.
fn in_turn(kind: Kind, tasks: Vec<Task>) -> Vec<Task>
    ensures { IsPermutation tasks.items result.items }
{
    let mut tasks = tasks;
    if is_of_places(kind) {
        tasks.reverse();
    }
    tasks
}

/// Pushes the children of a branch. Where memory is refused, those that are left come back.
fn push_all<J: Searched>(hand: &mut Hand<J>, kind: Kind, tasks: Vec<Task>) -> Vec<Task>
    requires { All (IsTask J.instance) tasks.items }
    ensures same { IsSameHand hand.old hand.new }
    ensures taken { taken hand.new ≡ taken hand.old }
    ensures pushes { Pushes (pushed hand.old) (pushed hand.new) tasks.items result.items }
    ensures left { All (IsTask J.instance) result.items }
{
    let mut left = in_turn(kind, tasks);
    while let Some(task) = left.pop() {
        if let Err((task, _)) = hand.push(task) {
            left.push_reserved(task);
            break;
        }
    }
    left
}

/// Asks for room for so many in a list: where there is less, for an eighth more.
fn widen<T: Drop>(list: &mut Vec<T>, all: usize) -> Result<(), MemoryFault>
    ensures items { list.new.items ≡ list.old.items }
    ensures room { OnOk result (all ≤ vec_capacity list.new) }
{
    if list.capacity() < all {
        let more = all.saturating_add(all / 8);
        list.reserve_exact(more.saturating_sub(list.len()))?;
    }
    Ok(())
}

/// Asks for room for one more piece, and for what all workers come to where none of them makes and leaves more than this one: in
/// its list of pieces for theirs and the leaves in the end, of which there is one for each task that is left, and beside it for
/// their nodes. So where memory runs out, all of it goes into the lists of the one that made most.
fn make_room(
    pieces: &mut Vec<Piece>,
    room: &mut Vec<Node>,
    left: usize,
    workers: usize,
) -> Result<(), MemoryFault>
    ensures same { pieces.new.items ≡ pieces.old.items }
    ensures one { OnOk result (vec_len pieces.new < vec_capacity pieces.new) }
    ensures pieces { OnOk result (room_kept (vec_len pieces.old + left) workers ≤ vec_capacity pieces.new) }
    ensures nodes { OnOk result (room_kept (vec_len pieces.old + left) workers ≤ vec_capacity room.new) }
{
    let ends = pieces.len().saturating_add(left);
    let all = ends.saturating_mul(workers).saturating_add(AHEAD);
    widen(pieces, all)?;
    widen(room, all)?;
    pieces.reserve(1)?;
    Ok(())
}

/// Whether decisions begin with others.
fn begins_with(decisions: &[Decision], front: &[Decision]) -> bool
    ensures { IsTrue result → (more : List Decision) × (decisions.now ≡ front.now ++ more) }
{
    if decisions.len() < front.len() {
        return false;
    }
    for k in 0..front.len() {
        if decisions[k] != front[k] {
            return false;
        }
    }
    true
}

/// Whether a task stands in the subtree to which these decisions lead; no where memory is refused.
fn stands_in(alloc: Global, task: &Task, front: &[Decision]) -> bool
    ensures { IsTrue result → (more : List Decision) × (task.now.decisions ≡ front.now ++ more) }
{
    match task.decisions(alloc) {
        Ok(decisions) => begins_with(decisions.as_slice(), front),
        Err(_) => false,
    }
}

/// Whether a task is left in this manner, since it needn't be worked.
fn is_left(alloc: Global, manner: Manner, needs: &Needs, task: &Task) -> bool
    ensures plain { manner ≡ Plain → result ≡ false }
    ensures spared { IsTrue result → (i : Instance) (made : List Piece)
        → ((low : ℕ) → IsReachedBy i low made → HoldUpTo i low needs.now) → IsSpared i made task.now }
{
    match manner {
        Manner::Plain => false,
        Manner::Sparing => match needs.proved() {
            Some(front) => stands_in(alloc, task, front),
            None => false,
        },
    }
}

/// Tells what is known of needs that a task is worked next; where memory is refused, nothing is known any more.
fn begin<'a>(alloc: Global, instance: &'a Instance, needs: &mut Needs<'a>, task: &Task)
    requires { HoldUpTo instance.now 0 needs.old }
    ensures at { AreAt instance.now task.now.decisions needs.new }
    ensures holds { (low : ℕ) → low ≤ instance.now.cluster.horizon + 1 → HoldUpTo instance.now low needs.old
        → HoldUpTo instance.now low needs.new }
{
    match task.decisions(alloc) {
        Ok(decisions) => needs.begin(alloc, instance, decisions.as_slice()),
        Err(_) => *needs = Needs::new(),
    }
}

/// Tells what is known of needs what the task that is worked became.
fn note(alloc: Global, needs: &mut Needs<'_>, node: &Node)
    requires { (i : Instance) × (task : Task) × IsTask i task × AreAt i task.decisions needs.old × IsSharp i (choice_of i task) node.now
        × IsRight i (choice_of i task) node.now }
    ensures { (i : Instance) (low : ℕ) → All (λ goal. low ≤ goal) (goals_at node.now) → HoldUpTo i low needs.old → HoldUpTo i low needs.new }
{
    match node {
        Node::Branch(branch) => needs.split(alloc, branch.kind, branch.children),
        Node::Leaf(leaf) => needs.close(alloc, leaf),
    }
}

impl<J: Searched> Run<J> {
    /// Works a task at the goal of the best delay so far, on from the last one, and pushes its children, or offers the delay of the plan
    /// that was found and tells the gate of it: what became of the task, and the children that couldn't be pushed. All memory is asked for before the
    /// task is worked, that for the end too; where it is refused, the task comes back.
    fn make<'a, G: Gate>(
        &mut self,
        site: &Site<'a, G>,
        word: &Incumbent,
        bench: &mut Workbench<'a>,
        needs: &mut Needs<'a>,
        aims: Aims,
        task: Task,
    ) -> Result<(Piece, Vec<Task>), Task>
        requires of { site.now.instance.now ≡ J.instance }
        requires task { IsTask site.now.instance.now task }
        requires watch { IsOther word.now self.old.watch }
        requires bench { IsWorkbenchOf site.now.instance.now bench.old }
        requires needs { HoldUpTo site.now.instance.now 0 needs.old }
        ensures holds { IfOk result (λ made. (low : ℕ) → low ≤ site.now.instance.now.cluster.horizon + 1 → All (λ goal. low ≤ goal) (goals_at made.0.node)
            → HoldUpTo site.now.instance.now low needs.old → HoldUpTo site.now.instance.now low needs.new) }
        ensures holds_still { OnErr result ((low : ℕ) → low ≤ site.now.instance.now.cluster.horizon + 1
            → HoldUpTo site.now.instance.now low needs.old → HoldUpTo site.now.instance.now low needs.new) }
        ensures made { IfOk result (λ made. Works site.now.instance.now aims self.old self.new (record { task = task; piece = made.0 }) made.1.items) }
        ensures room { OnOk result (vec_len self.new.pieces < vec_capacity self.new.pieces) }
        ensures back { IfErr result (λ back. (back ≡ task) × Refuses self.old self.new) }
        ensures bench { IsWorkbenchOf site.now.instance.now bench.new }
    {
        let alloc = site.alloc;
        let instance = site.instance;
        let seen = word.look(&mut self.watch);
        let goal = goal_of(instance, aims, seen);
        let left = self.spared.len();
        if make_room(&mut self.pieces, &mut self.room, left, self.workers).is_err() {
            return Err(task);
        }
        begin(alloc, instance, needs, &task);
        let (piece, gain) = work_task(alloc, instance, bench, task, goal)?;
        note(alloc, needs, &piece.node);
        match gain {
            Gain::Children(kind, tasks) => {
                let left = push_all(&mut self.hand, kind, tasks);
                Ok((piece, left))
            }
            Gain::Nothing => Ok((piece, Vec::new(alloc))),
            Gain::Found(found) => {
                word.offer(&mut self.watch, found.delay as u32);
                site.gate.found(instance, &found);
                self.best = Some(found);
                Ok((piece, Vec::new(alloc)))
            }
        }
    }

    /// Leaves a task that needn't be worked; where memory is refused, it is in hand.
    fn spare(&mut self, task: Task) -> Sweep
        requires { IsTask J.instance task }
        ensures spares { Spares task self.old self.new result }
        ensures spared { (made : List Piece) → All (IsSpared J.instance made) self.old.spared.items → IsSpared J.instance made task
            → All (IsSpared J.instance made) self.new.spared.items }
    {
        if self.spared.reserve(1).is_err() {
            let rest = Rest::One(task);
            return Sweep::Ended(rest);
        }
        self.spared.push_reserved(task);
        Sweep::Spared
    }

    /// Takes a task, where one is found, and works it, if that is needed. The gate is told of work and of plans.
    pub fn turn<'a, G: Gate>(
        &mut self,
        site: &Site<'a, G>,
        word: &Incumbent,
        bench: &mut Workbench<'a>,
        needs: &mut Needs<'a>,
        course: Course,
    ) -> Sweep
        requires of { site.now.instance.now ≡ J.instance }
        requires watch { IsOther word.now self.old.watch }
        requires bench { IsWorkbenchOf site.now.instance.now bench.old }
        requires spared { AreSpared site.now.instance.now self.old.pieces.items self.old.spared.items needs.old }
        ensures spared { AreSpared site.now.instance.now self.new.pieces.items self.new.spared.items needs.new }
        ensures goes_on { GoesOn site.now.instance.now course.aims self.old self.new (rest_after result) }
        ensures watch { IsOther word.now self.new.watch }
        ensures idle { result ≡ sweep.Idle → vec_len self.new.pieces ≡ vec_len self.old.pieces }
        ensures left { result ≡ sweep.Spared → vec_len self.new.pieces ≡ vec_len self.old.pieces }
        ensures worked { result ≡ sweep.Worked → vec_len self.new.pieces ≡ vec_len self.old.pieces + 1 }
        ensures plain { course.manner ≡ Plain → self.new.spared.items ≡ self.old.spared.items }
        ensures most { vec_len self.new.pieces ≤ vec_len self.old.pieces + 1 }
        ensures bench { IsWorkbenchOf site.now.instance.now bench.new }
    {
        let Some(task) = self.hand.take() else {
            return Sweep::Idle;
        };
        if is_left(site.alloc, course.manner, needs, &task) {
            return self.spare(task);
        }
        let worker = self.hand.number();
        site.gate.enter(worker, task.name());
        match self.make(site, word, bench, needs, course.aims, task) {
            Ok((piece, left)) => {
                site.gate.worked(worker, piece.node.children());
                site.gate.leave(worker, &piece.name);
                self.pieces.push_reserved(piece);
                if left.is_empty() {
                    Sweep::Worked
                } else {
                    Sweep::Ended(Rest::Children(left))
                }
            }
            Err(task) => {
                site.gate.leave(worker, task.name());
                Sweep::Ended(Rest::One(task))
            }
        }
    }
}
