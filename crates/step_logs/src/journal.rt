//! What is known, and by which steps?

ghost use Rattle.std.specs.Prelude.{◌≡◌, ◌<◌, ◌++◌, [], All, IfOk, OnOk, IfNone, IfSome, IsTrue, IsFalse};
ghost use Rattle.tt_choice.specs.Choice.{IsChoice};
ghost use Rattle.tt_choice.specs.Branches.{IsUnorderedPair, order_pair};
ghost use Rattle.tt_choice.specs.Decisions.{choice_after, IsOpenDecision};
ghost use Rattle.tt_infer.specs.Known.{first_facts};
ghost use Rattle.tt_infer.specs.Conclusions.{GoesFirst, sharpened};
ghost use Rattle.tt_infer.specs.Facts.{after};
ghost use Rattle.tt_infer.specs.Table.{target};
ghost use Rattle.tt_infer.specs.Targets.{known_value};
ghost use Rattle.step_logs.specs.Journal.{Advances, Sharpens, SharpensNothing, slack_of};

use crate::copies::{push_copies, push_copy};
use std::alloc::Global;
use std::marker::Model;
use step_agenda::Written;
use tt_choice::{Choice, Decision};
use tt_infer::{Fact, Facts, target, value};
use ttp_model::{Instance, MemoryFault, Step};

/// What is known of the plans that are sought, with a log of the steps that sharpened it.
#[derive(Drop)]
pub struct Journal<'a> {
    facts: Facts<'a>,
    steps: Vec<Step>,
    /// What each step sharpened.
    written: Vec<Written>,
}

impl<'a> Model for Journal<'a> {
    ghost use Rattle.step_logs.specs.Journal.{Journal};

    ghost Value = { Journal };

    ghost view = { λ s. record { facts = s.facts; steps = s.steps.items } };
}

/// Takes a step that writes this fact, which is known so far. Whether it sharpened it.
fn sharpens(facts: &mut Facts, step: &Step, fact: Fact, before: u32) -> bool
    requires writes { fact ≡ target facts.old.instance step.now }
    requires known { before ≡ known_value facts.old.known fact }
    ensures others { facts.new ≡ after facts.old facts.new.known }
    ensures sharper { IsTrue result → Sharpens facts.old step.now facts.new.known }
    ensures same { IsFalse result → facts.new ≡ facts.old }
    ensures idle { IsFalse result → SharpensNothing facts.old step.now }
{
    let _instance = facts.instance();
    match facts.apply(step) {
        Ok(()) => value(facts, fact) != before,
        Err(_) => false,
    }
}

/// A log without steps, in the memory of these lists.
fn anew<'a>(facts: Facts<'a>, steps: Vec<Step>, written: Vec<Written>) -> Journal<'a>
    ensures { result ≡ record { facts = facts.entry; steps = [] } }
{
    let mut log = Journal::new(facts, steps, written);
    log.steps.clear();
    log.written.clear();
    log
}

impl<'a> Journal<'a> {
    /// Follows these steps, which may be of anything, with a log of its own: the last list is memory for what they sharpen.
    pub fn new(facts: Facts<'a>, steps: Vec<Step>, written: Vec<Written>) -> Self
        ensures { result ≡ record { facts = facts.entry; steps = steps.items } }
    {
        Journal {
            facts,
            steps,
            written,
        }
    }

    /// The log without steps of what is known at first after a decision on what another log is about, in the room of this one.
    pub fn after(
        self,
        alloc: Global,
        level: &Journal<'a>,
        decision: Decision,
    ) -> Result<Journal<'a>, MemoryFault>
        requires { IsOpenDecision level.now.facts.instance level.now.facts.choice decision }
        ensures { IfOk result (λ log. log ≡ record {
          facts = record {
            instance = level.now.facts.instance;
            choice = choice_after level.now.facts.instance level.now.facts.choice decision;
            goal = level.now.facts.goal;
            known = first_facts level.now.facts.instance (choice_after level.now.facts.instance level.now.facts.choice decision);
          };
          steps = [];
        }) }
    {
        let Journal {
            facts,
            steps,
            written,
        } = self;
        let facts = facts.after(alloc, level.facts(), decision)?;
        let mut log = anew(facts, steps, written);
        log.steps.reserve(level.steps.len())?;
        Ok(log)
    }

    /// The log without steps of what another log is about, where besides process `p` goes before `q`, in the room of this one.
    pub fn supposing(
        self,
        alloc: Global,
        level: &Journal<'a>,
        p: u32,
        q: u32,
    ) -> Result<Journal<'a>, MemoryFault>
        requires { IsUnorderedPair level.now.facts.instance level.now.facts.choice p q }
        ensures { IfOk result (λ log. log.facts ≡ record {
          instance = level.now.facts.instance;
          choice = order_pair level.now.facts.choice p q;
          goal = level.now.facts.goal;
          known = sharpened level.now.facts.instance level.now.facts.known (GoesFirst p q);
        }) }
    {
        let Journal {
            facts,
            steps,
            written,
        } = self;
        let facts = facts.supposing(alloc, level.facts(), p, q)?;
        Ok(anew(facts, steps, written))
    }

    /// The same with the steps of that log, whether they lead there or not.
    pub fn ordering(
        self,
        alloc: Global,
        level: &Journal<'a>,
        p: u32,
        q: u32,
    ) -> Result<Journal<'a>, MemoryFault>
        requires { IsUnorderedPair level.now.facts.instance level.now.facts.choice p q }
        ensures { IfOk result (λ log. log ≡ record {
          facts = record {
            instance = level.now.facts.instance;
            choice = order_pair level.now.facts.choice p q;
            goal = level.now.facts.goal;
            known = sharpened level.now.facts.instance level.now.facts.known (GoesFirst p q);
          };
          steps = level.now.steps;
        }) }
    {
        let mut log = self.supposing(alloc, level, p, q)?;
        log.take_steps(alloc, level)?;
        Ok(log)
    }

    /// Puts the steps of another log in place of its own, whether they lead to what is known or not.
    fn take_steps(&mut self, alloc: Global, level: &Journal<'a>) -> Result<(), MemoryFault>
        ensures facts { self.new.facts ≡ self.old.facts }
        ensures steps { OnOk result (self.new.steps ≡ level.now.steps) }
    {
        self.steps.clear();
        self.steps.reserve(level.steps.len())?;
        push_copies(alloc, &mut self.steps, level.steps())?;
        self.written.clear();
        self.written.extend_from_slice(level.written.as_slice())?;
        Ok(())
    }

    /// What is known, and the steps.
    pub fn into_parts(self) -> (Facts<'a>, Vec<Step>)
        ensures facts { result.0 ≡ self.entry.facts }
        ensures steps { result.1.items ≡ self.entry.steps }
    {
        let Journal { facts, steps, .. } = self;
        (facts, steps)
    }

    /// What it has memory for: what is known, the steps, and what they sharpened.
    pub fn into_memory(self) -> (Facts<'a>, Vec<Step>, Vec<Written>) {
        let Journal {
            facts,
            steps,
            written,
        } = self;
        (facts, steps, written)
    }

    /// The steps, where no plan is left after them.
    pub fn closing_steps(self) -> Option<Vec<Step>>
        ensures { IfSome result (λ steps. IsTrue self.entry.facts.known.closed
            × (steps.items ≡ self.entry.steps)) }
    {
        let is_closed = self.facts.closed();
        let steps = self.into_steps();
        if is_closed { Some(steps) } else { None }
    }

    /// The steps.
    fn into_steps(self) -> Vec<Step>
        ensures { result.items ≡ self.entry.steps }
    {
        let Journal { steps, .. } = self;
        steps
    }

    /// What is known.
    pub fn facts(&self) -> &Facts<'a>
        ensures { result.now ≡ self.now.facts }
    {
        &self.facts
    }

    /// The steps.
    pub fn steps(&self) -> &[Step]
        ensures { result.now ≡ self.now.steps }
    {
        self.steps.as_slice()
    }

    /// What each step sharpened.
    pub fn written(&self) -> &[Written] {
        self.written.as_slice()
    }

    /// Tries a step, and appends it where it sharpens what is known: the fact that it sharpened, where it does. Reserves room for it first.
    pub fn try_step(&mut self, step: Step) -> Result<Option<Fact>, MemoryFault>
        ensures advances { Advances self.old self.new }
        ensures sharper { IfOk result (λ sharpened. IfSome sharpened (λ fact.
            (fact ≡ target self.old.facts.instance step) × (slack_of self.new.facts < slack_of self.old.facts))) }
        ensures same { IfOk result (λ sharpened. IfNone sharpened (self.new ≡ self.old)) }
        ensures idle { IfOk result (λ sharpened. IfNone sharpened (SharpensNothing self.old.facts step)) }
    {
        let fact = target(self.facts.instance(), &step);
        let before = value(&self.facts, fact);
        if !self.append(step, fact, before)? {
            return Ok(None);
        }
        self.written.push(Written { fact, before })?;
        Ok(Some(fact))
    }

    /// Tries a step of another log, and appends a copy of it where it sharpens what is known. Whether it does.
    pub fn try_again(&mut self, alloc: Global, step: &Step) -> Result<bool, MemoryFault>
        ensures advances { Advances self.old self.new }
        ensures sharper { IfOk result (λ sharper.
            IsTrue sharper → slack_of self.new.facts < slack_of self.old.facts) }
        ensures same { IfOk result (λ sharper. IsFalse sharper → self.new ≡ self.old) }
        ensures idle { IfOk result (λ sharper. IsFalse sharper → SharpensNothing self.old.facts step.now) }
    {
        let fact = target(self.facts.instance(), step);
        let before = value(&self.facts, fact);
        let sharper = self.append_again(alloc, step, fact, before)?;
        if sharper {
            self.written.push(Written { fact, before })?;
        }
        Ok(sharper)
    }

    /// Appends a step where it sharpens the fact that it writes, which is known so far, but not that it did.
    #[tactic(auto, using(crate::proofs::Logs::advances_refl, crate::proofs::Logs::advances_step))]
    fn append(&mut self, step: Step, fact: Fact, before: u32) -> Result<bool, MemoryFault>
        requires writes { fact ≡ target self.old.facts.instance step }
        requires known { before ≡ known_value self.old.facts.known fact }
        ensures advances { Advances self.old self.new }
        ensures sharper { IfOk result (λ sharper.
            IsTrue sharper → slack_of self.new.facts < slack_of self.old.facts) }
        ensures same { IfOk result (λ sharper. IsFalse sharper → self.new ≡ self.old) }
        ensures idle { IfOk result (λ sharper. IsFalse sharper → SharpensNothing self.old.facts step) }
    {
        self.steps.try_reserve(1)?;
        if sharpens(&mut self.facts, &step, fact, before) {
            self.steps.push(step)?;
            return Ok(true);
        }
        Ok(false)
    }

    /// The same with a copy of a step.
    #[tactic(auto, using(crate::proofs::Logs::advances_refl, crate::proofs::Logs::advances_step))]
    fn append_again(
        &mut self,
        alloc: Global,
        step: &Step,
        fact: Fact,
        before: u32,
    ) -> Result<bool, MemoryFault>
        requires writes { fact ≡ target self.old.facts.instance step.now }
        requires known { before ≡ known_value self.old.facts.known fact }
        ensures advances { Advances self.old self.new }
        ensures sharper { IfOk result (λ sharper.
            IsTrue sharper → slack_of self.new.facts < slack_of self.old.facts) }
        ensures same { IfOk result (λ sharper. IsFalse sharper → self.new ≡ self.old) }
        ensures idle { IfOk result (λ sharper. IsFalse sharper → SharpensNothing self.old.facts step.now) }
    {
        let copy = step.copied(alloc)?;
        self.append(copy, fact, before)
    }

    /// Appends a copy of a step where it sharpens what is known, but not what it sharpened. Whether it does.
    pub fn append_copy(&mut self, alloc: Global, step: &Step) -> Result<bool, MemoryFault>
        ensures advances { Advances self.old self.new }
        ensures sharper { IfOk result (λ sharper.
            IsTrue sharper → slack_of self.new.facts < slack_of self.old.facts) }
        ensures same { IfOk result (λ sharper. IsFalse sharper → self.new ≡ self.old) }
        ensures idle { IfOk result (λ sharper. IsFalse sharper → SharpensNothing self.old.facts step.now) }
    {
        let fact = target(self.facts.instance(), step);
        let before = value(&self.facts, fact);
        self.append_again(alloc, step, fact, before)
    }

    /// Tries each of these steps once. Whether one sharpened what is known.
    #[tactic(auto, using(crate::proofs::Logs::advances_refl, crate::proofs::Logs::advances_trans))]
    pub fn sweep(&mut self, alloc: Global, steps: &[Step]) -> Result<bool, MemoryFault>
        ensures advances { Advances self.old self.new }
        ensures sharper { IfOk result (λ sharper.
            IsTrue sharper → slack_of self.new.facts < slack_of self.old.facts) }
        ensures same { IfOk result (λ sharper. IsFalse sharper → self.new ≡ self.old) }
        ensures idle { IfOk result (λ sharper.
            IsFalse sharper → All (SharpensNothing self.new.facts) steps.now) }
    {
        let mut sharper = false;
        for step in steps {
            let sharpens = self.try_again(alloc, step)?;
            if sharpens {
                sharper = true;
            }
        }
        Ok(sharper)
    }

    /// Tries these steps again and again, until none of them sharpens what is known.
    #[tactic(auto, using(crate::proofs::Logs::advances_refl, crate::proofs::Logs::advances_trans))]
    pub fn settle(&mut self, alloc: Global, steps: &[Step]) -> Result<(), MemoryFault>
        ensures advances { Advances self.old self.new }
        ensures idle { IfOk result (λ done. All (SharpensNothing self.new.facts) steps.now) }
    {
        'again: loop {
            if !self.sweep(alloc, steps)? {
                return Ok(());
            }
        }
    }
}
