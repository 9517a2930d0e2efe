//! What does a step read that says when something begins at least?

use crate::moment::Moment;
use crate::needs::Needs;
use crate::slots::{begin_most, copy_out, least_passage, round_arriving};
use tt_infer::sender;

/// Asks that a process doesn't end before a time.
pub fn ask_end(needs: &mut Needs, moment: &Moment, p: u32, time: u64) {
    needs.start_from(p, time.saturating_sub(moment.wcet(p)));
}

/// Asks that process `p` goes before `q` and doesn't end before a time.
pub fn ask_first_end(needs: &mut Needs, moment: &Moment, p: u32, q: u32, time: u64) {
    ask_end(needs, moment, p, time);
    needs.go_first(p, q);
}

/// Asks that message `m` is sent in no round in which it arrives before a time.
pub fn ask_arrival(needs: &mut Needs, moment: &Moment, m: u32, time: u64) {
    let round = round_arriving(moment.facts, m, time);
    needs.sent_from(m, round);
}

/// Asks that the sender of message `m` doesn't end so early that the message, sent at once, arrives before a time.
pub fn ask_passage(needs: &mut Needs, moment: &Moment, m: u32, time: u64) {
    let ended = time.saturating_sub(least_passage(moment.facts, m));
    ask_end(needs, moment, sender(moment.instance(), m), ended);
}

/// Asks that message `m` isn't ready in the round before this one.
pub fn ask_ready(needs: &mut Needs, moment: &Moment, m: u32, round: u64) {
    if round == 0 || round > u64::from(u32::MAX) {
        return;
    }
    let missed = begin_most(moment.facts, m, (round - 1) as u32).saturating_add(1);
    let ended = missed.saturating_sub(copy_out(moment.facts));
    ask_end(needs, moment, sender(moment.instance(), m), ended);
}
