//! What does a certificate's tree, node after node, make of the search that goes on from it?

ghost use Rattle.std.specs.Prelude.{◌≡◌, ◌<◌, ◌≤◌, ◌+◌, ◌++◌, ◌∷◌, ◌⊎◌, ◌↔◌, [], ℕ, List, Option, IfErr, IfOk, OnOk, IsFalse, IsTrue, length, reverse};
ghost use Rattle.tt_choice.specs.Choice.{IsChoice};
ghost use Rattle.tt_choice.specs.Branches.{IsBranch, IsOpen, root_choice};
ghost use Rattle.tt_choice.specs.Sizes.{size_left, Halves};
ghost use Rattle.tt_infer.specs.Leaves.{ClosesLeaf};
ghost use Rattle.certificate.specs.Limits.{most_branches_above};
ghost use Rattle.certificate.specs.Trees.{preorder};
ghost use Rattle.certificate.specs.declared.node.Node.{Node};
ghost use Rattle.search_workers.specs.Pieces.{IsRight};
ghost use Rattle.search_workers.specs.Task.{IsTask, choice_of};
ghost use Rattle.search_workers.specs.Searching.{aim_of, IsFound};
ghost use Rattle.search_workers.specs.declared.aims.Aims.{Aims};
ghost use Rattle.search_workers.specs.declared.found.FoundPlan.{FoundPlan};
ghost use Rattle.planner.specs.Begun.{IsBeginFault, IsDeep};
ghost use Rattle.planner.specs.Replay.{EndsAt, GoesThrough, IsNodeFault, IsReplay, ProveAll, Splits, StaysClosed, StaysOpen, Takes};

use crate::begun::Begun;
use crate::fault::BeginFault;
use crate::sharp::sharp_leaf;
use certificate::{Branch, Cert, MOST_BRANCHES_ABOVE, Node};
use search_workers::{FoundPlan, Piece, Search, Task, child_tasks};
use std::alloc::Global;
use tt_choice::Choice;
use ttp_model::{Instance, Kind, Leaf, MemoryFault};
use used_decisions::copy_of_leaf;

/// A certificate's tree as far as it was gone through.
#[derive(Drop)]
pub struct Replay {
    pieces: Vec<Piece>,
    /// The tasks that are open, and the certificate's leaf of each.
    tasks: Vec<Task>,
    leaves: Vec<Piece>,
    /// The tasks whose nodes are still to come, the next one last.
    next: Vec<Task>,
    /// The goal at which the search works, in ticks.
    aim: u32,
}

/// Whether a branch that is open leaves at most half of what it cuts, if that is a range.
fn halves(instance: &Instance, choice: &Choice, kind: &Kind) -> bool
    requires of { IsChoice instance.now choice.now }
    requires is_open { IsOpen instance.now choice.now kind.now }
    ensures { IsTrue result ↔ Halves choice.now kind.now }
{
    let _nodes = instance.nodes();
    match kind {
        Kind::Round(m, r) => {
            let lo = choice.lo(*m);
            let hi = choice.hi(*m);
            r - lo <= hi - r && hi - (r + 1) <= r + 1 - lo
        }
        Kind::Place | Kind::Cap(_) | Kind::Pair(_, _) | Kind::Chan(_) => true,
    }
}

/// Whether so many more branches than a task has above it may still be needed by a search.
fn has_room(task: &Task, more: usize) -> bool
    ensures { IsTrue result ↔ (length task.now.name + more ≤ most_branches_above) }
{
    match MOST_BRANCHES_ABOVE.checked_sub(more) {
        Some(most) => task.name().get(most).is_none(),
        None => false,
    }
}

/// Whether a search below the children of a task's branch could come to more branches one below another than a certificate may have.
fn is_deep(instance: &Instance, task: &Task, choice: &Choice, branch: &Branch) -> bool
    requires task { IsTask instance.now task.now }
    requires of { IsChoice instance.now choice.now }
    requires choice { choice.now ≡ choice_of instance.now task.now }
    requires right { IsBranch instance.now choice.now branch.now.kind branch.now.children }
    ensures deep { IsTrue result → IsDeep instance.now task.now branch.now }
    ensures fits { IsFalse result → Halves choice.now branch.now.kind
        ⊎ (length task.now.name + 1 + size_left instance.now choice.now ≤ most_branches_above) }
{
    if halves(instance, choice, &branch.kind) {
        return false;
    }
    let more = choice.size_left(instance) + 1;
    !has_room(task, more)
}

/// Puts tasks in front of those that come next.
fn put_in_front(next: &mut Vec<Task>, tasks: Vec<Task>) -> Result<(), MemoryFault>
    ensures { OnOk result (next.new.items ≡ next.old.items ++ reverse tasks.items) }
{
    let mut tasks = tasks;
    tasks.reverse();
    next.append(&mut tasks)?;
    Ok(())
}

impl Replay {
    /// In front of the root's node.
    pub fn new(alloc: Global, instance: &Instance, aim: u32) -> Result<Self, MemoryFault>
        ensures begins { IfOk result (λ r. (aims : Aims) (best : Option FoundPlan) (low : ℕ) (nodes : List Node) → IsFound instance.now best
            → aim ≡ aim_of instance.now aims best → ProveAll instance.now low (root_choice instance.now ∷ []) nodes
            → IsReplay instance.now aims best low r nodes) }
        ensures pieces { IfOk result (λ r. r.pieces.items ≡ []) }
        ensures leaves { IfOk result (λ r. r.leaves.items ≡ []) }
    {
        let root = Task::root(alloc, instance)?;
        let next = vec![in alloc; root]?;
        Ok(Replay {
            pieces: Vec::new(alloc),
            tasks: Vec::new(alloc),
            leaves: Vec::new(alloc),
            next,
            aim,
        })
    }

    /// Takes a branch that isn't too deep: it is a piece, and its children come next.
    fn split(
        &mut self,
        alloc: Global,
        instance: &Instance,
        task: Task,
        choice: &Choice,
        branch: &Branch,
    ) -> Result<(), MemoryFault>
        requires task { IsTask instance.now task }
        requires of { IsChoice instance.now choice.now }
        requires choice { choice.now ≡ choice_of instance.now task }
        requires right { IsBranch instance.now choice.now branch.now.kind branch.now.children }
        requires fits { Halves choice.now branch.now.kind
            ⊎ (length task.name + 1 + size_left instance.now choice.now ≤ most_branches_above) }
        ensures { OnOk result (Splits instance.now self.old self.new task branch.now) }
    {
        let _nodes = instance.nodes();
        let children = child_tasks(alloc, instance, choice, &task, &branch.kind)?;
        let name = task.into_name();
        let node = Node::Branch(*branch);
        self.pieces.push(Piece { name, node })?;
        put_in_front(&mut self.next, children)?;
        Ok(())
    }

    /// Takes a leaf that stays closed: without the steps after which no more is known it is a piece.
    fn close(
        &mut self,
        alloc: Global,
        instance: &Instance,
        task: Task,
        choice: &Choice,
        leaf: &Leaf,
    ) -> Result<(), MemoryFault>
        requires task { IsTask instance.now task }
        requires of { IsChoice instance.now choice.now }
        requires choice { choice.now ≡ choice_of instance.now task }
        requires closes { ClosesLeaf instance.now choice.now leaf.now }
        ensures { OnOk result (StaysClosed instance.now self.old self.new task leaf.now) }
    {
        let sharp = sharp_leaf(alloc, instance, choice, leaf)?;
        let name = task.into_name();
        let node = Node::Leaf(sharp);
        self.pieces.push(Piece { name, node })?;
        Ok(())
    }

    /// Takes a leaf that is open again: its task is left.
    fn leave(&mut self, alloc: Global, task: Task, leaf: &Leaf) -> Result<(), MemoryFault>
        ensures { OnOk result (StaysOpen self.old self.new task leaf.now) }
    {
        let name = task.name().copy(alloc)?;
        let copy = copy_of_leaf(alloc, leaf)?;
        let node = Node::Leaf(copy);
        self.leaves.push(Piece { name, node })?;
        self.tasks.push(task)?;
        Ok(())
    }

    /// Takes a leaf.
    fn end(
        &mut self,
        alloc: Global,
        instance: &Instance,
        task: Task,
        choice: &Choice,
        leaf: &Leaf,
    ) -> Result<(), MemoryFault>
        requires task { IsTask instance.now task }
        requires of { IsChoice instance.now choice.now }
        requires choice { choice.now ≡ choice_of instance.now task }
        requires closes { ClosesLeaf instance.now choice.now leaf.now }
        ensures { OnOk result (EndsAt instance.now self.old self.new task leaf.now) }
    {
        if leaf.goal < self.aim {
            self.leave(alloc, task, leaf)
        } else {
            self.close(alloc, instance, task, choice, leaf)
        }
    }

    /// Takes the node at a task, which stands on this line.
    fn take(
        &mut self,
        alloc: Global,
        instance: &Instance,
        task: Task,
        node: &Node,
        line: u64,
    ) -> Result<(), BeginFault>
        requires task { IsTask instance.now task }
        requires right { IsRight instance.now (choice_of instance.now task) node.now }
        ensures takes { OnOk result (Takes instance.now self.old self.new task node.now) }
        ensures err { IfErr result (IsNodeFault instance.now node.now line) }
    {
        let choice = task.choice(alloc, instance)?;
        match node {
            Node::Branch(branch) => {
                if is_deep(instance, &task, &choice, branch) {
                    return Err(BeginFault::TooDeep { line });
                }
                self.split(alloc, instance, task, &choice, branch)?;
                Ok(())
            }
            Node::Leaf(leaf) => {
                self.end(alloc, instance, task, &choice, leaf)?;
                Ok(())
            }
        }
    }

    /// Goes on by the next node, which stands on this line.
    fn go_on(
        &mut self,
        alloc: Global,
        instance: &Instance,
        node: &Node,
        line: u64,
    ) -> Result<(), BeginFault>
        requires { (aims : Aims) × (best : Option FoundPlan) × (low : ℕ) × (others : List Node) × IsReplay instance.now aims best low self.old (node.now ∷ others) }
        ensures on { OnOk result (GoesThrough instance.now self.old self.new (node.now ∷ [])) }
        ensures err { IfErr result (IsNodeFault instance.now node.now line) }
    {
        match self.next.pop() {
            Some(task) => self.take(alloc, instance, task, node, line),
            None => unreachable!(),
        }
    }

    /// Goes through the nodes of a certificate.
    pub fn go_through(
        &mut self,
        alloc: Global,
        instance: &Instance,
        cert: &Cert,
    ) -> Result<(), BeginFault>
        requires { (aims : Aims) × (best : Option FoundPlan) × (low : ℕ) × IsReplay instance.now aims best low self.old (preorder cert.now.tree) }
        ensures through { OnOk result (GoesThrough instance.now self.old self.new (preorder cert.now.tree)) }
        ensures err { IfErr result (IsBeginFault instance.now cert.now) }
    {
        let nodes = cert.nodes();
        let mut line = 3u64;
        for k in 0..nodes.len() {
            let node = &nodes[k];
            self.go_on(alloc, instance, node, line)?;
            line = line.saturating_add(node.lines());
        }
        Ok(())
    }

    /// The search, once no node is still to come.
    pub fn into_begun(self, alloc: Global, best: Option<FoundPlan>) -> Begun
        ensures pieces { result.search.pieces.items ≡ self.pieces.items }
        ensures tasks { result.search.tasks.items ≡ self.tasks.items }
        ensures best { result.search.best ≡ best }
        ensures leaves { result.leaves.items ≡ self.leaves.items }
    {
        let Replay {
            pieces,
            tasks,
            leaves,
            ..
        } = self;
        let search = Search {
            pieces,
            room: Vec::new(alloc),
            tasks,
            spared: 0,
            best,
        };
        Begun { search, leaves }
    }
}
