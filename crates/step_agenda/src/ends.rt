//! What does a step read that says when something ends at most?

use crate::moment::Moment;
use crate::needs::Needs;
use crate::slots::{copy_in, copy_out, end_least, least_passage, rounds_arrived, rounds_begun};
use ttp_model::has_link;

/// Asks that a process has to start by a time.
pub fn ask_start(needs: &mut Needs, moment: &Moment, p: u32, time: u64) {
    needs.end_until(p, time.saturating_add(moment.wcet(p)));
}

/// Asks that process `p` goes before `q`, which has to start by a time.
pub fn ask_second_start(needs: &mut Needs, moment: &Moment, p: u32, q: u32, time: u64) {
    ask_start(needs, moment, q, time);
    needs.go_first(p, q);
}

/// Asks that process `q` has to start before message `m` can have arrived that is ready after a time.
pub fn ask_receiver_start(needs: &mut Needs, moment: &Moment, m: u32, q: u32, time: u64) {
    let started = time.saturating_add(least_passage(moment.facts, m));
    ask_start(needs, moment, q, started);
}

/// Asks that message `m` is sent in no round that begins so late that its sender may end after a time.
pub fn ask_sending(needs: &mut Needs, moment: &Moment, m: u32, time: u64) {
    let begun = time.saturating_add(copy_out(moment.facts));
    let rounds = rounds_begun(moment.facts, m, begun);
    ask_rounds(needs, moment, m, rounds);
}

/// Asks that a message is sent in one of so many rounds; where none would do, in one of those that are known.
fn ask_rounds(needs: &mut Needs, moment: &Moment, m: u32, rounds: u64) {
    let known = u64::from(moment.now.late_round(m));
    needs.sent_before(m, rounds.max(known));
}

/// Asks that process `q` has to start before a message of this round has arrived.
pub fn ask_missed(needs: &mut Needs, moment: &Moment, m: u32, q: u32, round: u64) {
    let round = round.min(u64::from(u32::MAX)) as u32;
    let arrived = end_least(moment.facts, m, round).saturating_add(copy_in(moment.facts));
    ask_start(needs, moment, q, arrived.saturating_sub(1));
}

/// Asks that process `p` has nothing to wait for that would let it end later.
pub fn ask_settled(needs: &mut Needs, moment: &Moment, p: u32, end: u64) {
    let instance = moment.instance();
    if p as usize >= instance.processes().len() {
        return;
    }
    let start = end.saturating_sub(moment.wcet(p));
    for x in instance.processes_on(instance.node_of(p as usize)) {
        if *x != p {
            ask_ended(needs, moment, p, *x, start);
        }
    }
    ask_arrived(needs, moment, p, start);
}

/// Asks that the messages to process `p` have arrived by a time.
fn ask_arrived(needs: &mut Needs, moment: &Moment, p: u32, start: u64) {
    for m in moment.instance().received_by(p) {
        let rounds = rounds_arrived(moment.facts, *m, start);
        ask_rounds(needs, moment, *m, rounds);
    }
}

/// Asks that process `x` of its node doesn't keep process `p` from starting by a time: it ends by then, or goes after it.
fn ask_ended(needs: &mut Needs, moment: &Moment, p: u32, x: u32, time: u64) {
    if u64::from(moment.first.end(x)) <= time {
        return;
    }
    if moment.facts.choice().is_before(p, x) || has_link(moment.instance(), p, x) {
        return;
    }
    if u64::from(moment.now.end(x)) <= time {
        needs.end_until(x, time);
    } else {
        needs.go_first(p, x);
    }
}
