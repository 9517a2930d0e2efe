//! What that a step names isn't there?

ghost use Rattle.tt_infer.specs.Table.{rule};
ghost use Rattle.certificate_reasons.specs.Absent.{IsAbsent};

use crate::absent::{
    Absent, no_half, no_link, no_message, no_node, no_nodes, no_pair, no_process, no_receiver,
    no_ring,
};
use tt_infer::Facts;
use ttp_model::Step;

/// What that a step names isn't there. At most a pass over the processes of a circle.
pub fn absent_of<'a>(facts: &Facts<'a>, step: &Step) -> Absent<'a>
    requires { ¬ (rule facts.now.instance facts.now.choice facts.now.goal facts.now.known step.now).there }
    ensures { IsAbsent facts.now.instance step.now result }
{
    let instance = facts.instance();
    match step {
        Step::EsRelease(p) => no_process(instance, *p),
        Step::EsLink(l) => no_link(instance, *l),
        Step::EsBefore(p, q) => no_pair(instance, *p, *q),
        Step::EsArrive(m, q) => no_receiver(instance, *m, *q),
        Step::EsMessage(m, q) => no_receiver(instance, *m, *q),
        Step::LoSend(m) => no_message(instance, *m),
        Step::LeOwn(p) => no_process(instance, *p),
        Step::LeLink(l) => no_link(instance, *l),
        Step::LeBefore(p, q) => no_pair(instance, *p, *q),
        Step::LeMessage(m, q) => no_receiver(instance, *m, *q),
        Step::LeSend(m) => no_message(instance, *m),
        Step::HiArrive(m, q) => no_receiver(instance, *m, *q),
        Step::OrdWindow(p, q) => no_pair(instance, *p, *q),
        Step::OrdTwin(p, q) => no_pair(instance, *p, *q),
        Step::UsSettled(p) => no_process(instance, *p),
        Step::XWindow(p) => no_process(instance, *p),
        Step::XRound(m) => no_message(instance, *m),
        Step::XCycle(ring) => no_ring(instance, ring),
        Step::XLoad(n, _, _) => no_node(instance, *n),
        Step::XFrame(m) => no_message(instance, *m),
        Step::XFrames(n, _, _) => no_node(instance, *n),
        Step::XChannel(k, n, _, _) => no_half(instance, *n, *k),
        Step::XLate(m, _) => no_message(instance, *m),
        Step::XSilent(u, v) => no_nodes(instance, *u, *v),
        Step::XMirror(m) => no_message(instance, *m),
    }
}
