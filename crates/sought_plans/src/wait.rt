//! How long may a process have to wait?

ghost use Rattle.std.specs.Prelude.{◌≡◌, ◌^◌, ◌<◌, ◌≤◌, ◌↔◌, IfNone, IfSome, IsTrue, length};
ghost use Rattle.ttp_model.specs.Instance.{process_at};
ghost use Rattle.ttp_model.specs.Raising.{IsRaised};
ghost use Rattle.sought_plans.specs.Known.{Fits, le_of, top_of};
ghost use Rattle.sought_plans.specs.Dominance.{HasRounds, IsGreatestWait, IsSentTo, MayGoBefore, last_arrival};

use crate::known::Known;
use crate::setting::Setting;
use ttp_model::{Instance, has_link};

/// Whether process `x` may run before process `p`: it is another of its node, and `p` isn't known to
/// go before it. A pass over the links where all else allows it.
fn may_go_before(known: &Known, instance: &Instance, p: u32, x: u32) -> bool
    requires first { p < length instance.now.processes }
    requires second { x < length instance.now.processes }
    ensures { IsTrue result ↔ MayGoBefore instance.now known.now p x }
{
    x != p
        && instance.node_of(x as usize) == instance.node_of(p as usize)
        && !known.bef(p, x)
        && !has_link(instance, p, x)
}

/// The release of process `p`, or the latest end of those that may run before it. One pass over the
/// processes of its node; links are looked at where one of them ends later than all before.
fn last_end(known: &Known, instance: &Instance, p: u32) -> u32
    requires fits { Fits instance.now known.now }
    requires process { p < length instance.now.processes }
    ensures { IsRaised (length instance.now.processes) (MayGoBefore instance.now known.now p)
        (le_of known.now) (process_at instance.now p).release result }
{
    let mut time = instance.process_at(p as usize).release;
    for x in instance.processes_on(instance.node_of(p as usize)) {
        let end = known.le(*x);
        if end > time && may_go_before(known, instance, p, *x) {
            time = end;
        }
    }
    time
}

/// When message `m` has arrived at most, in ticks: after the slot of its greatest round, and the copy.
fn last_arrival(known: &Known, setting: &Setting, m: u32) -> u64
    requires fits { Fits setting.now.instance known.now }
    requires message { m < length setting.now.instance.messages }
    requires round { 1 ≤ top_of known.now m }
    ensures value { result ≡ last_arrival setting.now.instance setting.now.choice known.now m }
    ensures bound { result < 2 ^ 60 }
{
    let instance = setting.instance();
    let end = setting.end_most(instance.source_of(m as usize), known.top(m) - 1);
    end + u64::from(instance.cluster().copy_in)
}

/// The time given, or the last at which a message to process `p` has arrived: none where one of them
/// has no round. One pass over those messages.
fn all_arrived(known: &Known, setting: &Setting, p: u32, ended: u64) -> Option<u64>
    requires fits { Fits setting.now.instance known.now }
    requires short { ended < 2 ^ 60 }
    ensures rounds { IfSome result (λ time. HasRounds setting.now.instance known.now p) }
    ensures last { IfSome result (λ time. IsRaised (length setting.now.instance.messages)
        (IsSentTo setting.now.instance p)
        (last_arrival setting.now.instance setting.now.choice known.now) ended time) }
    ensures bound { IfSome result (λ time. time < 2 ^ 60) }
    ensures none { IfNone result (¬ HasRounds setting.now.instance known.now p) }
{
    let instance = setting.instance();
    let mut time = ended;
    for m in instance.received_by(p) {
        if known.top(*m) == 0 {
            return None;
        }
        time = time.max(last_arrival(known, setting, *m));
    }
    Some(time)
}

/// When all is over that process `p` may have to wait for, in ticks: none where a message to it has
/// no round. One pass over the processes of its node, and one over the messages to it.
pub fn greatest_wait(known: &Known, setting: &Setting, p: u32) -> Option<u64>
    requires fits { Fits setting.now.instance known.now }
    requires process { p < length setting.now.instance.processes }
    ensures rounds { IfSome result (λ time. HasRounds setting.now.instance known.now p) }
    ensures wait { IfSome result
        (λ time. IsGreatestWait setting.now.instance setting.now.choice known.now p time) }
    ensures bound { IfSome result (λ time. time < 2 ^ 60) }
    ensures none { IfNone result (¬ HasRounds setting.now.instance known.now p) }
{
    let ended = last_end(known, setting.instance(), p);
    all_arrived(known, setting, p, u64::from(ended))
}
