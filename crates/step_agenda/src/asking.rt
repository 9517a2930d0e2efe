//! How sharp has what a step reads to be, may it say more than is known, and on which node can't something be?

use crate::closers::{
    ask_earlier, ask_frames, ask_load, ask_mirror, ask_no_round, ask_ring, ask_window,
};
use crate::ends::{
    ask_missed, ask_receiver_start, ask_second_start, ask_sending, ask_settled, ask_start,
};
use crate::homes::{home, source};
use crate::idle::{has_no_round, has_no_time, is_too_late, pulls, pushes};
use crate::moment::Moment;
use crate::needs::Needs;
use crate::starts::{ask_arrival, ask_end, ask_first_end, ask_passage, ask_ready};
use tt_infer::{Facts, link_after, link_before};
use ttp_model::{Instance, Step};

/// Asks for what a step reads: so sharp that it can be taken, and that it says of its own fact what is needed.
pub fn ask(needs: &mut Needs, moment: &Moment, step: &Step, need: u32) {
    let need = u64::from(need);
    match step {
        Step::EsRelease(_) | Step::LeOwn(_) | Step::OrdTwin(_, _) => {}
        Step::XFrame(_) | Step::XSilent(_, _) => {}
        Step::EsLink(l) => ask_end(needs, moment, link_before(moment.instance(), *l), need),
        Step::EsBefore(p, q) => ask_first_end(needs, moment, *p, *q, need),
        Step::EsArrive(m, _) => ask_arrival(needs, moment, *m, need),
        Step::EsMessage(m, _) => ask_passage(needs, moment, *m, need),
        Step::LoSend(m) => ask_ready(needs, moment, *m, need),
        Step::LeLink(l) => ask_start(needs, moment, link_after(moment.instance(), *l), need),
        Step::LeBefore(p, q) => ask_second_start(needs, moment, *p, *q, need),
        Step::LeMessage(m, q) => ask_receiver_start(needs, moment, *m, *q, need),
        Step::LeSend(m) => ask_sending(needs, moment, *m, need),
        Step::HiArrive(m, q) => ask_missed(needs, moment, *m, *q, need),
        Step::UsSettled(p) => ask_settled(needs, moment, *p, need),
        Step::OrdWindow(p, q) => {
            let ticks = moment.wcet(*p).saturating_add(moment.wcet(*q));
            ask_window(needs, moment, *p, *q, ticks);
        }
        Step::XWindow(p) => ask_window(needs, moment, *p, *p, moment.wcet(*p)),
        Step::XRound(m) => ask_no_round(needs, moment, *m),
        Step::XCycle(ring) => ask_ring(needs, ring.as_slice()),
        Step::XLoad(n, a, b) => ask_load(needs, moment, *n, *a, *b),
        Step::XFrames(n, a, b) => ask_frames(needs, moment, None, *n, *a, *b),
        Step::XChannel(k, n, a, b) => ask_frames(needs, moment, Some(*k), *n, *a, *b),
        Step::XLate(m, r) => ask_earlier(needs, moment, *m, *r),
        Step::XMirror(m) => ask_mirror(needs, moment, *m),
    }
}

/// Whether a step may say more than is known: not where two numbers show that it doesn't.
pub fn may_say_more(facts: &Facts, step: &Step) -> bool {
    let instance = facts.instance();
    match step {
        Step::EsLink(l) => pushes(facts, link_before(instance, *l), link_after(instance, *l)),
        Step::LeLink(l) => pulls(facts, link_before(instance, *l), link_after(instance, *l)),
        Step::EsBefore(p, q) => facts.bef(*p, *q) && pushes(facts, *p, *q),
        Step::LeBefore(p, q) => facts.bef(*p, *q) && pulls(facts, *p, *q),
        Step::OrdWindow(p, q) => is_too_late(facts, *q, *p),
        Step::XWindow(p) => has_no_time(facts, *p),
        Step::XRound(m) => has_no_round(facts, *m),
        Step::EsRelease(_) | Step::EsArrive(_, _) | Step::EsMessage(_, _) => true,
        Step::LoSend(_) | Step::HiArrive(_, _) | Step::OrdTwin(_, _) => true,
        Step::LeOwn(_) | Step::LeMessage(_, _) | Step::LeSend(_) | Step::UsSettled(_) => true,
        Step::XCycle(_) | Step::XLoad(_, _, _) | Step::XFrame(_) | Step::XFrames(_, _, _) => true,
        Step::XChannel(_, _, _, _) | Step::XLate(_, _) | Step::XSilent(_, _) => true,
        Step::XMirror(_) => true,
    }
}

/// The node of which a closer says that something can't be.
pub fn node_of(instance: &Instance, closer: &Step) -> Option<u32> {
    match closer {
        Step::XWindow(p) => home(instance, *p),
        Step::XRound(m) | Step::XFrame(m) | Step::XLate(m, _) => source(instance, *m),
        Step::XMirror(m) => source(instance, *m),
        Step::XLoad(n, _, _) | Step::XFrames(n, _, _) | Step::XChannel(_, n, _, _) => Some(*n),
        Step::XCycle(_) | Step::XSilent(_, _) => None,
        // They don't close.
        Step::EsRelease(_) | Step::EsLink(_) | Step::EsBefore(_, _) => None,
        Step::EsArrive(_, _) | Step::EsMessage(_, _) | Step::LoSend(_) => None,
        Step::LeOwn(_) | Step::LeLink(_) | Step::LeBefore(_, _) => None,
        Step::LeMessage(_, _) | Step::LeSend(_) | Step::HiArrive(_, _) => None,
        Step::OrdWindow(_, _) | Step::OrdTwin(_, _) | Step::UsSettled(_) => None,
    }
}
