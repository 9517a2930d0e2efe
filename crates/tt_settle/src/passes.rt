//! In which order do processes and messages go earlier? By the time at which processes start, each
//! with the messages that it sends: what a process waits for has then gone earlier before it.

ghost use Rattle.std.specs.Prelude.{◌≡◌, ◌<◌, ◌≤◌, ℕ, length, slice_index};
ghost use Rattle.ttp_model.specs.Lists.{EachBelow};
ghost use Rattle.ttp_model.specs.Instance.{message_at};
ghost use Rattle.ttp_model.specs.Rules.{IsInstance};
ghost use Rattle.ttp_model.specs.Plans.{IsValid, start_of};
ghost use Rattle.tt_settle.specs.Settling.{IsNextStart, IsTried, RestsInRound, RestsInTime, RestsWithMessages};

use crate::rounds::send_one;
use crate::starts::start_one;
use ttp_model::{Instance, Plan};

/// Lets each process start and each message be sent as early as it can, and tells whether one goes
/// earlier than before.
pub fn go_earlier(instance: &Instance, mut plan: Plan) -> (Plan, bool)
    requires { IsValid instance.now plan }
    ensures { IsTried instance.now plan (RestsInTime instance.now) result.0 result.1 }
{
    let horizon = u64::from(instance.cluster().horizon);
    let mut moved = false;
    let mut from = 0;
    while from < horizon {
        let time = next_start(plan.starts.as_slice(), from, horizon);
        let (next, earlier) = go_earlier_from(instance, plan, time);
        plan = next;
        moved |= earlier;
        from = time + 1;
    }
    (plan, moved)
}

/// The least of the starts from this tick on that is before the horizon, or else the horizon.
fn next_start(starts: &[u32], from: u64, horizon: u64) -> u64
    requires { from ≤ horizon }
    ensures late { from ≤ result }
    ensures bound { result ≤ horizon }
    ensures each { IsNextStart starts.now from (length starts.now) result }
{
    let mut next = horizon;
    for k in 0..starts.len() {
        let start = u64::from(starts[k]);
        if start >= from {
            next = next.min(start);
        }
    }
    next
}

/// The same of the processes that start at this time.
fn go_earlier_from(instance: &Instance, mut plan: Plan, time: u64) -> (Plan, bool)
    requires { IsValid instance.now plan }
    ensures { IsTried instance.now plan
        (λ q. EachBelow (length instance.now.processes)
        (λ p. start_of q p ≡ time → RestsWithMessages instance.now q p))
        result.0 result.1 }
{
    let mut moved = false;
    for p in 0..instance.processes().len() {
        let (next, earlier) = go_earlier_if(instance, plan, p, time);
        plan = next;
        moved |= earlier;
    }
    (plan, moved)
}

/// The same of a process, where it starts at this time.
fn go_earlier_if(instance: &Instance, plan: Plan, p: usize, time: u64) -> (Plan, bool)
    requires instance { IsInstance instance.now }
    requires valid { IsValid instance.now plan }
    requires inside { p < length instance.now.processes }
    ensures { IsTried instance.now plan
        (λ q. start_of q p ≡ time → RestsWithMessages instance.now q p)
        result.0 result.1 }
{
    if u64::from(plan.starts.as_slice()[p]) != time {
        return (plan, false);
    }
    let (plan, started) = start_one(instance, plan, p);
    let (plan, sent) = send_all_of(instance, plan, p);
    (plan, started | sent)
}

/// Sends each message of process `p` as early as it can be, and tells whether one is sent earlier
/// than before.
fn send_all_of(instance: &Instance, mut plan: Plan, p: usize) -> (Plan, bool)
    requires { IsValid instance.now plan }
    ensures { IsTried instance.now plan
        (λ q. EachBelow (length instance.now.messages)
        (λ m. (message_at instance.now m).sender ≡ p → RestsInRound instance.now q m))
        result.0 result.1 }
{
    let mut moved = false;
    for m in 0..instance.messages().len() {
        let (next, earlier) = send_if(instance, plan, m, p);
        plan = next;
        moved |= earlier;
    }
    (plan, moved)
}

/// Sends message `m` as early as it can be, where process `p` sends it.
fn send_if(instance: &Instance, plan: Plan, m: usize, p: usize) -> (Plan, bool)
    requires instance { IsInstance instance.now }
    requires valid { IsValid instance.now plan }
    requires inside { m < length instance.now.messages }
    ensures { IsTried instance.now plan
        (λ q. (message_at instance.now m).sender ≡ p → RestsInRound instance.now q m)
        result.0 result.1 }
{
    if instance.message_at(m).sender as usize == p {
        send_one(instance, plan, m)
    } else {
        (plan, false)
    }
}
