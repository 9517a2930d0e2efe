//! What does a step say?

ghost use Rattle.std.specs.Prelude.{◌≡◌, IfOk, IsFalse, OnOk};
ghost use Rattle.sought_plans.specs.Known.{Known};
ghost use Rattle.tt_infer.specs.Facts.{after};
ghost use Rattle.tt_infer.specs.Table.{IsLawful, rule};
ghost use Rattle.certificate_reasons.specs.Steps.{IsStepReason, IsToldStep};

use crate::closers::{CloserReason, cycle, rounds, window};
use crate::conclusions::{Conclusion, conclusion_of};
use crate::dominance::{DominanceReason, late, mirror, settled, silent};
use crate::ends::{LatestEnd, before_end, link_end, message_end, own_end, send_end};
use crate::loads::{LoadReason, frame, frames, halves, load};
use crate::orders::{OrderReason, twin_order, window_order};
use crate::rounds::{RoundReason, arrive_round, send_round};
use crate::starts::{
    EarliestStart, arrival_start, behind_start, link_start, message_start, release,
};
use std::alloc::Global;
use std::fmt;
use std::fmt::Display;
use tt_infer::{Facts, target, value};
use ttp_model::{MemoryFault, Step};

/// Why a step concludes what it does.
#[derive(Drop)]
pub enum StepReason<'a> {
    Start(EarliestStart<'a>),
    End(LatestEnd<'a>),
    Round(RoundReason<'a>),
    Order(OrderReason<'a>),
    Closer(CloserReason<'a>),
    Load(LoadReason<'a>),
    Dominance(DominanceReason<'a>),
}

/// What a lawful step says: why, and what is known after it.
#[derive(Drop)]
pub struct ToldStep<'a> {
    pub reason: StepReason<'a>,
    pub conclusion: Conclusion<'a>,
}

/// Why a step concludes what it does, by what is known before it. Takes memory for the names of a circle.
fn step_reason<'a>(
    alloc: Global,
    facts: &Facts<'a>,
    step: &Step,
) -> Result<StepReason<'a>, MemoryFault>
    requires { (rule facts.now.instance facts.now.choice facts.now.goal facts.now.known step.now).there }
    ensures { IfOk result (IsStepReason facts.now.instance facts.now.choice facts.now.goal facts.now.known step.now) }
{
    let _instance = facts.instance();
    match step {
        Step::EsRelease(p) => Ok(StepReason::Start(release(facts, *p))),
        Step::EsLink(l) => Ok(StepReason::Start(link_start(facts, *l))),
        Step::EsBefore(p, q) => Ok(StepReason::Start(behind_start(facts, *p, *q))),
        Step::EsArrive(m, _) => Ok(StepReason::Start(arrival_start(facts, *m))),
        Step::EsMessage(m, _) => Ok(StepReason::Start(message_start(facts, *m))),
        Step::LoSend(m) => Ok(StepReason::Round(send_round(facts, *m))),
        Step::LeOwn(p) => Ok(StepReason::End(own_end(facts, *p))),
        Step::LeLink(l) => Ok(StepReason::End(link_end(facts, *l))),
        Step::LeBefore(p, q) => Ok(StepReason::End(before_end(facts, *p, *q))),
        Step::LeMessage(m, q) => Ok(StepReason::End(message_end(facts, *m, *q))),
        Step::LeSend(m) => Ok(StepReason::End(send_end(facts, *m))),
        Step::HiArrive(m, q) => Ok(StepReason::Round(arrive_round(facts, *m, *q))),
        Step::OrdWindow(p, q) => Ok(StepReason::Order(window_order(facts, *p, *q))),
        Step::OrdTwin(p, q) => Ok(StepReason::Order(twin_order(facts, *p, *q))),
        Step::UsSettled(p) => Ok(StepReason::Dominance(settled(facts, *p))),
        Step::XWindow(p) => Ok(StepReason::Closer(window(facts, *p))),
        Step::XRound(m) => Ok(StepReason::Closer(rounds(facts, *m))),
        Step::XCycle(ring) => Ok(StepReason::Closer(cycle(alloc, facts, ring.as_slice())?)),
        Step::XLoad(n, a, b) => Ok(StepReason::Load(load(facts, *n, *a, *b))),
        Step::XFrame(m) => Ok(StepReason::Load(frame(facts, *m))),
        Step::XFrames(n, a, b) => Ok(StepReason::Load(frames(facts, *n, *a, *b))),
        Step::XChannel(k, n, a, b) => Ok(StepReason::Load(halves(facts, *k, *n, *a, *b))),
        Step::XLate(m, r) => Ok(StepReason::Dominance(late(facts, *m, *r))),
        Step::XSilent(u, v) => Ok(StepReason::Dominance(silent(facts, *u, *v))),
        Step::XMirror(m) => Ok(StepReason::Dominance(mirror(facts, *m))),
    }
}

/// What a lawful step says, which is taken. Takes memory for the names of a circle.
pub fn told_step<'a>(
    alloc: Global,
    facts: &mut Facts<'a>,
    step: &Step,
) -> Result<ToldStep<'a>, MemoryFault>
    requires open { IsFalse facts.old.known.closed }
    requires lawful { (g : Known) × IsLawful facts.old.instance facts.old.choice facts.old.goal facts.old.known step.now g }
    ensures others { facts.new ≡ after facts.old facts.new.known }
    ensures taken { OnOk result (IsLawful facts.old.instance facts.old.choice facts.old.goal facts.old.known step.now facts.new.known) }
    ensures told { IfOk result (IsToldStep facts.old.instance facts.old.choice facts.old.goal facts.old.known facts.new.known step.now) }
{
    let reason = step_reason(alloc, facts, step)?;
    let instance = facts.instance();
    let fact = target(instance, step);
    let before = value(facts, fact);
    match facts.apply(step) {
        Ok(()) => {
            let after = value(facts, fact);
            let conclusion = conclusion_of(instance, fact, before, after);
            Ok(ToldStep { reason, conclusion })
        }
        Err(_) => unreachable!(),
    }
}

impl<'a> fmt::Display for StepReason<'a> {
    fn fmt<W: fmt::Write>(&self, f: &mut fmt::Formatter<W>) -> fmt::Result {
        match self {
            StepReason::Start(reason) => reason.fmt(f),
            StepReason::End(reason) => reason.fmt(f),
            StepReason::Round(reason) => reason.fmt(f),
            StepReason::Order(reason) => reason.fmt(f),
            StepReason::Closer(reason) => reason.fmt(f),
            StepReason::Load(reason) => reason.fmt(f),
            StepReason::Dominance(reason) => reason.fmt(f),
        }
    }
}

impl<'a> fmt::Display for ToldStep<'a> {
    fn fmt<W: fmt::Write>(&self, f: &mut fmt::Formatter<W>) -> fmt::Result {
        writeln!(f, "  as {}, {}", self.reason, self.conclusion)
    }
}
