//! What is kept between two subtrees?

ghost use Rattle.std.specs.Prelude.{◌≡◌, ◌≤◌, None, Some, IfOk, OnOk, IsTrue, length, take};
ghost use Rattle.tt_choice.specs.Branches.{root_choice};
ghost use Rattle.tt_choice.specs.Decisions.{AreOpenDecisions};
ghost use Rattle.branch_tree.specs.Workbench.{IsWorkbenchOf, IsAt, ComesTo};

use crate::lessons::Lessons;
use search_trees::Propagator;
use std::alloc::Global;
use std::mem;
use tt_choice::Decision;
use ttp_model::{Instance, MemoryFault};

/// The propagation that the last worked subtree came to, if one is kept: most of its decisions are mostly those of the next
/// one too.
#[derive(Drop)]
pub struct Workbench<'a> {
    kept: Option<Propagator<'a>>,
    lessons: Lessons,
}

/// How many decisions at the beginning are the same.
fn shared(a: &[Decision], b: &[Decision]) -> usize
    ensures same { take result a.now ≡ take result b.now }
    ensures first { result ≤ length a.now }
    ensures second { result ≤ length b.now }
{
    let count = a.len().min(b.len());
    for k in 0..count {
        if a[k] != b[k] {
            return k;
        }
    }
    count
}

/// Takes decisions back until those that are left are the first of these. Whether it came so far by what is kept.
fn take_back(kept: &mut Propagator, decisions: &[Decision]) -> bool
    ensures instance { kept.new.instance ≡ kept.old.instance }
    ensures goal { kept.new.goal ≡ kept.old.goal }
    ensures first { IsTrue result → kept.new.decisions ≡ take (length kept.new.decisions) decisions.now }
{
    while shared(kept.decisions(), decisions) < kept.decisions().len() {
        if !kept.undo() {
            return false;
        }
    }
    true
}

/// Makes the rest of these decisions, as long as a plan may be left.
fn go_on(alloc: Global, kept: &mut Propagator, decisions: &[Decision]) -> Result<(), MemoryFault>
    requires first { kept.old.decisions ≡ take (length kept.old.decisions) decisions.now }
    requires is_open { AreOpenDecisions kept.old.instance (root_choice kept.old.instance) decisions.now }
    ensures { OnOk result (ComesTo kept.old.instance kept.old.goal decisions.now kept.new) }
{
    let made = kept.decisions().len();
    for k in made..decisions.len() {
        if kept.facts().closed() {
            return Ok(());
        }
        kept.decide(alloc, decisions[k])?;
    }
    Ok(())
}

impl<'a> Workbench<'a> {
    /// Nothing is kept yet.
    pub fn new() -> Self
        ensures { result.kept ≡ None }
    {
        Workbench {
            kept: None,
            lessons: Lessons::none(),
        }
    }

    /// What is kept, where it is at this goal in ticks; else a propagation before any decision.
    fn take_up(
        &mut self,
        alloc: Global,
        instance: &'a Instance,
        goal: u32,
    ) -> Result<Propagator<'a>, MemoryFault>
        requires { IsWorkbenchOf instance.now self.old }
        ensures at { IfOk result (IsAt instance.now goal) }
        ensures nothing { self.new.kept ≡ None }
    {
        if let Some(kept) = self.kept.take() {
            if kept.goal() == goal {
                return Ok(kept);
            }
            drop(kept);
        }
        Propagator::start(alloc, instance, goal)
    }

    /// What is kept, where it is at this goal in ticks, as far as its decisions are the first of these; else a propagation before any.
    fn go_back(
        &mut self,
        alloc: Global,
        instance: &'a Instance,
        decisions: &[Decision],
        goal: u32,
    ) -> Result<Propagator<'a>, MemoryFault>
        requires { IsWorkbenchOf instance.now self.old }
        ensures at { IfOk result (IsAt instance.now goal) }
        ensures first { IfOk result (λ p. p.decisions ≡ take (length p.decisions) decisions.now) }
        ensures nothing { self.new.kept ≡ None }
    {
        let mut kept = self.take_up(alloc, instance, goal)?;
        if take_back(&mut kept, decisions) {
            return Ok(kept);
        }
        drop(kept);
        Propagator::start(alloc, instance, goal)
    }

    /// Goes on from what is kept to these decisions, as long as a plan may be left, at a goal in ticks. Nothing is kept until
    /// it is put back.
    pub(crate) fn reach(
        &mut self,
        alloc: Global,
        instance: &'a Instance,
        decisions: &[Decision],
        goal: u32,
    ) -> Result<Propagator<'a>, MemoryFault>
        requires of { IsWorkbenchOf instance.now self.old }
        requires is_open { AreOpenDecisions instance.now (root_choice instance.now) decisions.now }
        ensures comes { IfOk result (ComesTo instance.now goal decisions.now) }
        ensures nothing { self.new.kept ≡ None }
    {
        let mut kept = self.go_back(alloc, instance, decisions, goal)?;
        match go_on(alloc, &mut kept, decisions) {
            Ok(()) => Ok(kept),
            Err(fault) => {
                drop(kept);
                Err(fault)
            }
        }
    }

    /// What was learnt so far, to be kept again.
    pub(crate) fn take_lessons(&mut self) -> Lessons
        ensures { self.new.kept ≡ self.old.kept }
    {
        mem::replace(&mut self.lessons, Lessons::none())
    }

    /// Keeps a propagation for the next subtree, and what was learnt.
    pub(crate) fn keep(&mut self, kept: Propagator<'a>, lessons: Lessons)
        ensures { self.new.kept ≡ Some kept.entry }
    {
        drop(mem::replace(&mut self.kept, Some(kept)));
        self.lessons = lessons;
    }
}
