//! What that a step asks for isn't known?

ghost use Rattle.tt_infer.specs.Table.{rule};
ghost use Rattle.certificate_reasons.specs.Premises.{IsLacking};

use crate::load_lacks::{LoadLack, frame_room, frames_room, halves_room, load_room};
use crate::move_lacks::{MoveLack, not_earlier, not_mirrored, not_turned};
use crate::order_lacks::{OrderLack, in_time, no_ring, not_first, not_twins};
use crate::time_lacks::{TimeLack, no_round, no_round_to, round_left, window_left};
use std::fmt;
use std::fmt::Display;
use tt_infer::Facts;
use ttp_model::Step;

/// What that a step asks for isn't known.
#[derive(Clone, Copy)]
pub enum Lacking<'a> {
    Order(OrderLack<'a>),
    Time(TimeLack<'a>),
    Load(LoadLack<'a>),
    Move(MoveLack<'a>),
}

/// What that a step asks for isn't known, which names what is there. At most a pass over the links and one over the messages for each
/// process of a circle.
pub fn lacking_of<'a>(facts: &Facts<'a>, step: &Step) -> Lacking<'a>
    requires there { (rule facts.now.instance facts.now.choice facts.now.goal facts.now.known step.now).there }
    requires lacks { ¬ (rule facts.now.instance facts.now.choice facts.now.goal facts.now.known step.now).premise }
    ensures { IsLacking facts.now.instance facts.now.choice facts.now.known step.now result }
{
    let _instance = facts.instance();
    match step {
        Step::EsRelease(_)
        | Step::EsLink(_)
        | Step::EsArrive(_, _)
        | Step::EsMessage(_, _)
        | Step::LoSend(_)
        | Step::LeOwn(_)
        | Step::LeLink(_)
        | Step::LeMessage(_, _)
        | Step::HiArrive(_, _) => unreachable!(),
        Step::EsBefore(p, q) => Lacking::Order(not_first(facts, *p, *q)),
        Step::LeBefore(p, q) => Lacking::Order(not_first(facts, *p, *q)),
        Step::LeSend(m) => Lacking::Time(no_round(facts, *m)),
        Step::OrdWindow(p, q) => Lacking::Order(in_time(facts, *p, *q)),
        Step::OrdTwin(p, q) => Lacking::Order(not_twins(facts, *p, *q)),
        Step::UsSettled(p) => Lacking::Time(no_round_to(facts, *p)),
        Step::XWindow(p) => Lacking::Time(window_left(facts, *p)),
        Step::XRound(m) => Lacking::Time(round_left(facts, *m)),
        Step::XCycle(ring) => Lacking::Order(no_ring(facts, ring)),
        Step::XLoad(n, a, b) => Lacking::Load(load_room(facts, *n, *a, *b)),
        Step::XFrame(m) => Lacking::Load(frame_room(facts, *m)),
        Step::XFrames(n, a, b) => Lacking::Load(frames_room(facts, *n, *a, *b)),
        Step::XChannel(k, n, a, b) => Lacking::Load(halves_room(facts, *k, *n, *a, *b)),
        Step::XLate(m, r) => Lacking::Move(not_earlier(facts, *m, *r)),
        Step::XSilent(u, v) => Lacking::Move(not_turned(facts, *u, *v)),
        Step::XMirror(m) => Lacking::Move(not_mirrored(facts, *m)),
    }
}

impl<'a> fmt::Display for Lacking<'a> {
    fn fmt<W: fmt::Write>(&self, f: &mut fmt::Formatter<W>) -> fmt::Result {
        match self {
            Lacking::Order(lack) => lack.fmt(f),
            Lacking::Time(lack) => lack.fmt(f),
            Lacking::Load(lack) => lack.fmt(f),
            Lacking::Move(lack) => lack.fmt(f),
        }
    }
}
