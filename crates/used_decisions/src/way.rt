//! What do subtrees that were closed use of the decisions that lead to the one at hand?

ghost use Rattle.std.specs.Prelude.{◌≡◌, ◌≤◌, ◌<◌, ◌+◌, ◌-◌, ◌^◌, ◌++◌, ◌∷◌, [], ℕ, min, length, take, map, IfOk, OnOk, OnErr, IfSome, IsTrue};
ghost use Rattle.tt_choice.specs.Branches.{IsBranch, root_choice};
ghost use Rattle.tt_choice.specs.Decisions.{AreOpenDecisions, chosen, decision_of};
ghost use Rattle.tt_infer.specs.Leaves.{ClosesSharply};
ghost use Rattle.tt_infer.specs.RuledOut.{IsRuledOut};
ghost use Rattle.used_decisions.specs.Levels.{has_level};
ghost use Rattle.used_decisions.specs.Proved.{all_kept, IsProvedBy};
ghost use Rattle.used_decisions.specs.Ways.{decisions_of, IsOpenBranch};

use crate::branch::OpenBranch;
use crate::children::{child_of, used_with};
use crate::levels::Levels;
use crate::path::Path;
use crate::reader::Reader;
use std::alloc::Global;
use std::marker::Model;
use tt_choice::Decision;
use ttp_model::{Instance, Kind, Leaf, MemoryFault};

/// A decision on the way to the subtree at hand.
#[derive(Drop)]
pub struct Taken {
    pub decision: Decision,
    /// Its branch, where it is known of each other child whether it is closed.
    pub branch: Option<OpenBranch>,
}

/// The way from the root to the subtree at hand.
#[derive(Drop)]
pub struct Way<'a> {
    path: Path<'a>,
    reader: Reader<'a>,
    taken: Vec<Taken>,
    /// The branch that the way leads to, once it was split there.
    ending: Option<OpenBranch>,
    /// What leads to a branch that one of its children proves, where others of them are left.
    proved: Option<Vec<Decision>>,
    /// The least goal of the leaves that closed subtrees, in ticks; one past the horizon where there are none.
    goal: u32,
}

impl<'a> Model for Way<'a> {
    ghost use Rattle.used_decisions.specs.Ways.{Way, IsWay, decisions_of};

    ghost Value = { Way };

    ghost view = { λ s. record { instance = s.path.instance; decisions = decisions_of s.taken.items; goal = s.goal } };

    ghost invariant = { λ s. IsWay s.path s.reader s.taken.items s.ending s.proved s.goal };
}

/// How many decisions at the beginning are the same.
fn shared(taken: &[Taken], decisions: &[Decision]) -> usize
    ensures same { take result (decisions_of taken.now) ≡ take result decisions.now }
    ensures first { result ≤ length taken.now }
    ensures second { result ≤ length decisions.now }
{
    let count = taken.len().min(decisions.len());
    for k in 0..count {
        if taken[k].decision != decisions[k] {
            return k;
        }
    }
    count
}

/// The decisions that were taken, in memory of their own.
fn copied(alloc: Global, taken: &[Taken]) -> Result<Vec<Decision>, MemoryFault>
    ensures { IfOk result (λ decisions. decisions.items ≡ decisions_of taken.now) }
{
    let mut decisions = Vec::with_capacity(alloc, taken.len())?;
    for one in taken {
        decisions.push(one.decision)?;
    }
    Ok(decisions)
}

impl<'a> Way<'a> {
    /// At the root.
    pub fn new(alloc: Global, instance: &'a Instance) -> Result<Way<'a>, MemoryFault>
        ensures { IfOk result (λ way. way ≡ record { instance = instance.now; decisions = []; goal = instance.now.cluster.horizon + 1 }) }
    {
        let _nodes = instance.nodes();
        let path = Path::new(alloc, instance)?;
        match Reader::new(alloc, instance) {
            Ok(reader) => Ok(Way {
                path,
                reader,
                taken: Vec::new(alloc),
                ending: None,
                proved: None,
                goal: instance.past_horizon(),
            }),
            Err(fault) => {
                drop(path);
                Err(fault)
            }
        }
    }

    /// What leads to a branch that one of its children proves, where others of them are left.
    pub fn proved(&self) -> Option<&[Decision]>
        ensures { IfSome result (λ front. (low : ℕ) → low ≤ self.now.goal → IsRuledOut self.now.instance low (all_kept front.now)) }
    {
        match &self.proved {
            Some(front) => Some(front.as_slice()),
            None => None,
        }
    }

    /// How many decisions the way has.
    fn depth(&self) -> u32
        ensures { result ≡ length self.now.decisions }
    {
        self.taken.len() as u32
    }

    /// Takes the last decision of the way back.
    fn go_up(&mut self) -> Option<Taken>
        ensures instance { self.new.instance ≡ self.old.instance }
        ensures goal { self.new.goal ≡ self.old.goal }
        ensures decisions { self.new.decisions ≡ take (length self.old.decisions - 1) self.old.decisions }
        ensures last { IfSome result (λ last. self.old.decisions ≡ self.new.decisions ++ last.decision ∷ []) }
        ensures branch { IfSome result (λ last. IfSome last.branch (λ branch. (low : ℕ) → low ≤ self.new.goal
            → IsOpenBranch self.new.instance low self.new.decisions branch)) }
    {
        let last = self.taken.pop()?;
        self.path.go_up();
        self.ending = None;
        Some(last)
    }

    /// Goes back to the branch of the last decision.
    fn go_back_one(&mut self)
        ensures instance { self.new.instance ≡ self.old.instance }
        ensures goal { self.new.goal ≡ self.old.goal }
        ensures decisions { self.new.decisions ≡ take (length self.old.decisions - 1) self.old.decisions }
    {
        if let Some(last) = self.go_up() {
            self.ending = last.branch;
        }
    }

    /// Goes back until so many decisions are left.
    fn go_back(&mut self, count: usize)
        requires { count ≤ length self.old.decisions }
        ensures instance { self.new.instance ≡ self.old.instance }
        ensures goal { self.new.goal ≡ self.old.goal }
        ensures decisions { self.new.decisions ≡ take count self.old.decisions }
    {
        while self.depth() as usize > count {
            self.go_back_one();
        }
    }

    /// Goes on to a child of the branch that the way leads to. Unchanged where memory is refused.
    fn go_down(&mut self, decision: Decision) -> Result<(), MemoryFault>
        requires { length self.old.decisions + 1 < 2 ^ 32 }
        ensures ok { OnOk result (self.new ≡ record self.old { decisions = self.old.decisions ++ decision ∷ [] }) }
        ensures err { OnErr result (self.new ≡ self.old) }
    {
        self.taken.reserve(1)?;
        let level = self.depth();
        self.path.go_down(decision, level)?;
        let branch = self.ending.take();
        self.taken.push_reserved(Taken { decision, branch });
        Ok(())
    }

    /// Goes on by these decisions, from the one of this number on.
    fn go_on(&mut self, decisions: &[Decision], count: usize) -> Result<(), MemoryFault>
        requires first { self.old.decisions ≡ take count decisions.now }
        requires within { count ≤ length decisions.now }
        requires few { length decisions.now < 2 ^ 32 }
        ensures { OnOk result (self.new ≡ record self.old { decisions = decisions.now }) }
    {
        for k in count..decisions.len() {
            self.go_down(decisions[k])?;
        }
        Ok(())
    }

    /// Goes to a subtree.
    pub fn begin(&mut self, decisions: &[Decision]) -> Result<(), MemoryFault>
        requires { length decisions.now < 2 ^ 32 }
        ensures { OnOk result (self.new ≡ record self.old { decisions = decisions.now }) }
    {
        let count = shared(self.taken.as_slice(), decisions);
        self.go_back(count);
        self.proved = None;
        self.go_on(decisions, count)
    }

    /// Splits the subtree at hand.
    pub fn split(&mut self, alloc: Global, kind: Kind, children: u32) -> Result<(), MemoryFault>
        requires { IsBranch self.old.instance (chosen self.old.instance self.old.decisions) kind children }
        ensures { OnOk result (self.new ≡ self.old) }
    {
        let branch = OpenBranch::of(alloc, kind, children, self.depth())?;
        self.ending = Some(branch);
        Ok(())
    }

    /// Closes the subtree at hand, and each above it whose children are closed with it, or which one of them proves.
    pub fn close(&mut self, alloc: Global, leaf: &Leaf) -> Result<(), MemoryFault>
        requires decisions { AreOpenDecisions self.old.instance (root_choice self.old.instance) self.old.decisions }
        requires closes { ClosesSharply self.old.instance (chosen self.old.instance self.old.decisions) leaf.now }
        ensures instance { OnOk result (self.new.instance ≡ self.old.instance) }
        ensures goal { OnOk result (self.new.goal ≡ min self.old.goal leaf.now.goal) }
    {
        let used = self.uses_of(alloc, leaf)?;
        self.end_at(leaf.goal);
        self.close_above(alloc, used)
    }

    /// The branches above the subtree at hand that a leaf uses which closes it.
    fn uses_of(&mut self, alloc: Global, leaf: &Leaf) -> Result<Levels, MemoryFault>
        requires decisions { AreOpenDecisions self.old.instance (root_choice self.old.instance) self.old.decisions }
        requires closes { ClosesSharply self.old.instance (chosen self.old.instance self.old.decisions) leaf.now }
        ensures same { self.new ≡ self.old }
        ensures proved { IfOk result (λ used. (low : ℕ) → low ≤ leaf.now.goal → IsProvedBy self.old.instance low used self.old.decisions) }
    {
        let _nodes = self.path.instance().nodes();
        let depth = self.depth();
        let used = self.reader.used_by(alloc, &self.path, leaf, depth)?;
        Ok(used)
    }

    /// The subtree at hand isn't split, and is closed at this goal.
    fn end_at(&mut self, goal: u32)
        ensures { self.new ≡ record self.old { goal = min self.old.goal goal } }
    {
        self.goal = self.goal.min(goal);
        self.ending = None;
    }

    /// Closes the subtree at hand, which uses these branches above it, and those above it that are closed with it.
    fn close_above(&mut self, alloc: Global, used: Levels) -> Result<(), MemoryFault>
        requires { (low : ℕ) → low ≤ self.old.goal → IsProvedBy self.old.instance low used self.old.decisions }
        ensures instance { self.new.instance ≡ self.old.instance }
        ensures goal { self.new.goal ≡ self.old.goal }
    {
        let mut used = used;
        for _ in 0..self.depth() {
            match self.close_child(alloc, used)? {
                Some(all) => used = all,
                None => return Ok(()),
            }
        }
        Ok(())
    }

    /// Closes the subtree at hand, which uses these branches above it, and goes up: what is used of the branches above the one
    /// there, where that is closed too.
    fn close_child(&mut self, alloc: Global, used: Levels) -> Result<Option<Levels>, MemoryFault>
        requires { (low : ℕ) → low ≤ self.old.goal → IsProvedBy self.old.instance low used self.old.decisions }
        ensures instance { self.new.instance ≡ self.old.instance }
        ensures goal { self.new.goal ≡ self.old.goal }
        ensures above { IfOk result (λ found. IfSome found (λ all. (low : ℕ) → low ≤ self.new.goal
            → IsProvedBy self.new.instance low all self.new.decisions)) }
    {
        let Some(last) = self.go_up() else {
            return Ok(None);
        };
        let Taken { decision, branch } = last;
        let Some(branch) = branch else {
            return Ok(None);
        };
        let Some(child) = child_of(&self.path, branch.kind, decision) else {
            return Ok(None);
        };
        if child < branch.children {
            self.close_of(alloc, branch, child, used)
        } else {
            Ok(None)
        }
    }

    /// The branch at hand is proved: where children of it are left, they needn't be worked.
    fn prove(&mut self, alloc: Global, is_closed: bool) -> Result<(), MemoryFault>
        requires { (low : ℕ) → low ≤ self.old.goal → IsRuledOut self.old.instance low (all_kept self.old.decisions) }
        ensures { self.new ≡ self.old }
    {
        if !is_closed {
            self.proved = Some(copied(alloc, self.taken.as_slice())?);
        }
        Ok(())
    }

    /// Takes in what a child of the branch at hand needs: what all need, where no child is left.
    fn take_in(&mut self, branch: OpenBranch, is_closed: bool) -> Option<Levels>
        requires branch { (low : ℕ) → low ≤ self.old.goal → IsOpenBranch self.old.instance low self.old.decisions branch }
        requires closed { IsTrue is_closed → (k : ℕ) → k < branch.children → IsTrue (has_level branch.closed k) }
        ensures same { self.new ≡ self.old }
        ensures above { IfSome result (λ all. (low : ℕ) → low ≤ self.new.goal → IsProvedBy self.new.instance low all self.new.decisions) }
    {
        if is_closed {
            return Some(used_with(&self.path, branch.kind, branch.used));
        }
        self.ending = Some(branch);
        None
    }

    /// Closes a child of the branch at hand, which uses these branches above it.
    fn close_of(
        &mut self,
        alloc: Global,
        branch: OpenBranch,
        child: u32,
        used: Levels,
    ) -> Result<Option<Levels>, MemoryFault>
        requires child { child < branch.children }
        requires branch { (low : ℕ) → low ≤ self.old.goal → IsOpenBranch self.old.instance low self.old.decisions branch }
        requires proved { (low : ℕ) → low ≤ self.old.goal → IsProvedBy self.old.instance low used (self.old.decisions
            ++ decision_of self.old.instance (chosen self.old.instance self.old.decisions) branch.kind child ∷ []) }
        ensures instance { self.new.instance ≡ self.old.instance }
        ensures goal { self.new.goal ≡ self.old.goal }
        ensures above { IfOk result (λ found. IfSome found (λ all. (low : ℕ) → low ≤ self.new.goal
            → IsProvedBy self.new.instance low all self.new.decisions)) }
    {
        let mut branch = branch;
        branch.closed.insert(child);
        let is_closed = branch.is_closed();
        let is_used = used.contains(self.depth());
        if is_used {
            branch.used.join(&used);
            Ok(self.take_in(branch, is_closed))
        } else {
            self.prove(alloc, is_closed)?;
            Ok(Some(used))
        }
    }
}
