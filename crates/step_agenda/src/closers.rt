//! What does a step read that compares what is known?

ghost use Rattle.std.specs.Prelude.{◌<◌, length};

use crate::moment::Moment;
use crate::needs::Needs;
use crate::slots::{begin_least, copy_out};
use tt_infer::{Facts, sender};
use ttp_model::{BOTH_CHANNELS, Instance, is_on};

/// Asks that process `p` has to end before `q` can have started and both have run, or `p` alone where it is `q`.
pub fn ask_window(needs: &mut Needs, moment: &Moment, p: u32, q: u32, ticks: u64) {
    let end = u64::from(moment.now.end(p));
    let start = u64::from(moment.now.start(q));
    let spare = start
        .saturating_add(ticks)
        .saturating_sub(end)
        .saturating_sub(1);
    let first_end = u64::from(moment.first.end(p));
    let first_start = u64::from(moment.first.start(q));
    if first_end <= end.saturating_add(spare) {
        needs.start_from(q, first_end.saturating_add(1).saturating_sub(ticks));
    } else if first_start.saturating_add(spare) >= start {
        needs.end_until(p, first_start.saturating_add(ticks).saturating_sub(1));
    } else {
        needs.start_from(q, start);
        needs.end_until(p, end.saturating_add(spare));
    }
}

/// Asks that message `early` has no round from the first one of message `late` on; that `early` has no round at all, where it is `late`.
fn ask_in_turn(needs: &mut Needs, moment: &Moment, early: u32, late: u32) {
    let first_late = u64::from(moment.first.late_round(early));
    let first_round = u64::from(moment.first.first_round(late));
    let round = u64::from(moment.now.first_round(late));
    if first_late <= round {
        needs.sent_from(late, first_late);
    } else if first_round >= u64::from(moment.now.late_round(early)) {
        needs.sent_before(early, first_round);
    } else {
        needs.sent_from(late, round);
        needs.sent_before(early, round);
    }
}

/// Asks that message `m` has no round.
pub fn ask_no_round(needs: &mut Needs, moment: &Moment, m: u32) {
    ask_in_turn(needs, moment, m, m);
}

/// Asks that each lower message of the node of message `m` is in none of its rounds, but for those that are on both channels.
pub fn ask_mirror(needs: &mut Needs, moment: &Moment, m: u32) {
    let facts = moment.facts;
    let instance = facts.instance();
    if m as usize >= instance.messages().len() {
        return;
    }
    for k in instance.messages_of(instance.source_of(m as usize)) {
        if *k < m && !is_on_both(facts, *k) {
            ask_apart(needs, moment, m, *k);
        }
    }
}

/// Whether message `k` is fixed to both channels.
fn is_on_both(facts: &Facts, k: u32) -> bool
    requires { k < length facts.now.instance.messages }
{
    match facts.choice().channel(k) {
        Some(fixed) => fixed == BOTH_CHANNELS,
        None => false,
    }
}

/// Asks that messages `m` and `k` are in no round together, in the turn that is known of them.
fn ask_apart(needs: &mut Needs, moment: &Moment, m: u32, k: u32) {
    if moment.now.late_round(k) <= moment.now.first_round(m) {
        ask_in_turn(needs, moment, k, m);
    } else {
        ask_in_turn(needs, moment, m, k);
    }
}

/// Asks for the orders of a ring: of each process before the next, and of the last before the first.
pub fn ask_ring(needs: &mut Needs, ring: &[u32]) {
    let Some(last) = ring.last() else {
        return;
    };
    let mut before = *last;
    for p in ring {
        needs.go_first(before, *p);
        before = *p;
    }
}

/// Whether process `p` runs from `a` to `b`.
fn runs_within(moment: &Moment, a: u32, b: u32, p: u32) -> bool {
    moment.now.start(p) >= a && moment.now.end(p) <= b
}

/// How long the processes of node `n` run that run from `a` to `b`, in ticks.
fn ticks_within(moment: &Moment, n: u32, a: u32, b: u32) -> u64 {
    let mut ticks = 0u64;
    for p in moment.instance().processes_on(n) {
        if runs_within(moment, a, b, *p) {
            ticks = ticks.saturating_add(moment.wcet(*p));
        }
    }
    ticks
}

/// Asks that the processes of node `n` that run from `a` to `b` are too many: without those that needn't be among them.
pub fn ask_load(needs: &mut Needs, moment: &Moment, n: u32, a: u32, b: u32) {
    let room = u64::from(b.saturating_sub(a));
    let ticks = ticks_within(moment, n, a, b);
    let mut spare = ticks.saturating_sub(room).saturating_sub(1);
    for p in moment.instance().processes_on(n) {
        if runs_within(moment, a, b, *p) {
            let free = moment.first.start(*p) >= a && moment.first.end(*p) <= b;
            if !free && moment.wcet(*p) <= spare {
                spare = spare.saturating_sub(moment.wcet(*p));
            } else {
                needs.start_from(*p, u64::from(a));
                needs.end_until(*p, u64::from(b));
            }
        }
    }
}

/// The bytes of a message.
fn bytes_of(instance: &Instance, m: u32) -> u64
    requires { m < length instance.now.messages }
{
    u64::from(instance.message_at(m as usize).bytes)
}

/// Whether message `m` is sent from round `a` on and before `b`.
fn sent_within(moment: &Moment, a: u32, b: u32, m: u32) -> bool {
    moment.now.first_round(m) >= a && moment.now.late_round(m) <= b
}

/// The bytes with which message `m` counts on a channel, where it is known to be on it, or on all together where none is named, as often
/// as it is known to be sent.
pub fn bytes_counted(facts: &Facts, channel: Option<u32>, m: u32) -> u64
    requires { m < length facts.now.instance.messages }
{
    let bytes = bytes_of(facts.instance(), m);
    match (channel, facts.choice().channel(m)) {
        (Some(k), Some(fixed)) if is_on(k, fixed) => bytes,
        (Some(_), _) => 0,
        (None, Some(fixed)) if fixed == BOTH_CHANNELS => bytes.saturating_mul(2),
        (None, _) => bytes,
    }
}

/// The bytes that frames of node `n` carry at most in so many rounds on a channel, or on all together where none is named.
pub fn most_carried(facts: &Facts, channel: Option<u32>, n: u32, rounds: u32) -> u64 {
    let instance = facts.instance();
    if n as usize >= instance.nodes().len() {
        return 0;
    }
    let carried = u64::from(facts.setting().cap_most(n)).saturating_mul(u64::from(rounds));
    match channel {
        Some(_) => carried,
        None => carried.saturating_mul(u64::from(instance.cluster().channels)),
    }
}

/// The bytes that frames of node `n` carry at least.
fn least_carried(facts: &Facts, n: u32) -> u64 {
    let instance = facts.instance();
    if (n as usize) < instance.nodes().len() {
        u64::from(facts.setting().cap_least(n))
    } else {
        0
    }
}

/// How many bytes the messages of node `n` have on a channel, or on all together, that are sent from round `a` on and before `b`.
fn bytes_within(moment: &Moment, channel: Option<u32>, n: u32, a: u32, b: u32) -> u64 {
    let facts = moment.facts;
    let mut bytes = 0u64;
    for m in facts.instance().messages_of(n) {
        if sent_within(moment, a, b, *m) {
            bytes = bytes.saturating_add(bytes_counted(facts, channel, *m));
        }
    }
    bytes
}

/// Asks that the messages of node `n` that are sent from round `a` on and before `b` are too many on a channel, or on all together: without
/// those that needn't be among them.
pub fn ask_frames(
    needs: &mut Needs,
    moment: &Moment,
    channel: Option<u32>,
    n: u32,
    a: u32,
    b: u32,
) {
    let facts = moment.facts;
    let bytes = bytes_within(moment, channel, n, a, b);
    let room = most_carried(facts, channel, n, b.saturating_sub(a));
    let mut spare = bytes.saturating_sub(room).saturating_sub(1);
    for m in facts.instance().messages_of(n) {
        let bytes = bytes_counted(facts, channel, *m);
        if bytes > 0 && sent_within(moment, a, b, *m) {
            let free = moment.first.first_round(*m) >= a && moment.first.late_round(*m) <= b;
            if !free && bytes <= spare {
                spare = spare.saturating_sub(bytes);
            } else {
                needs.sent_from(*m, u64::from(a));
                needs.sent_before(*m, u64::from(b));
            }
        }
    }
}

/// Whether message `k` may be in the frame of round `r` in which another one of its node would be.
fn may_be_beside(moment: &Moment, r: u32, k: u32) -> bool {
    moment.now.first_round(k) <= r && r < moment.now.late_round(k)
}

/// How many bytes beside message `m` of node `n` may be in the frame of round `r` in which it would be.
fn bytes_beside(moment: &Moment, n: u32, m: u32, r: u32) -> u64 {
    let instance = moment.instance();
    let mut bytes = 0u64;
    for k in instance.messages_of(n) {
        if *k != m && may_be_beside(moment, r, *k) {
            bytes = bytes.saturating_add(bytes_of(instance, *k));
        }
    }
    bytes
}

/// Asks that message `m` could be sent in round `r`, which is earlier than those in which it is: it is ready, and its frame has
/// room for it beside those that may be there.
pub fn ask_earlier(needs: &mut Needs, moment: &Moment, m: u32, r: u32) {
    let instance = moment.instance();
    if m as usize >= instance.messages().len() {
        return;
    }
    let n = instance.source_of(m as usize);
    needs.sent_from(m, u64::from(r).saturating_add(1));
    let begins = begin_least(moment.facts, m, r);
    needs.end_until(
        sender(instance, m),
        begins.saturating_sub(copy_out(moment.facts)),
    );
    let bytes = bytes_of(instance, m).saturating_add(bytes_beside(moment, n, m, r));
    let mut spare = least_carried(moment.facts, n).saturating_sub(bytes);
    for k in instance.messages_of(n) {
        if *k != m && went_elsewhere(moment, r, *k) {
            if bytes_of(instance, *k) <= spare {
                spare = spare.saturating_sub(bytes_of(instance, *k));
            } else {
                ask_elsewhere(needs, moment, r, *k);
            }
        }
    }
}

/// Whether message `k` could be sent in round `r` at first, and can't be.
fn went_elsewhere(moment: &Moment, r: u32, k: u32) -> bool {
    moment.first.first_round(k) <= r
        && r < moment.first.late_round(k)
        && !may_be_beside(moment, r, k)
}

/// Asks that message `k` isn't sent in round `r`.
fn ask_elsewhere(needs: &mut Needs, moment: &Moment, r: u32, k: u32) {
    if moment.now.first_round(k) > r {
        needs.sent_from(k, u64::from(r).saturating_add(1));
    } else {
        needs.sent_before(k, u64::from(r));
    }
}
