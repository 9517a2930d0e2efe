//! Could a message be sent earlier than it is?

ghost use Rattle.std.specs.Prelude.{◌≡◌, ◌+◌, ◌≤◌, ◌<◌, ◌↔◌, IsTrue, length};
ghost use Rattle.ttp_model.specs.declared.limits.TheConstants.{MOST_BYTES};
ghost use Rattle.ttp_model.specs.Totals.{total};
ghost use Rattle.sought_plans.specs.Known.{Fits, le_of};
ghost use Rattle.sought_plans.specs.Premises.{sender_of};
ghost use Rattle.sought_plans.specs.Dominance.{CouldBeEarlier, bytes_beside};

use crate::known::Known;
use crate::setting::Setting;
use ttp_model::Instance;

/// How many bytes message `k` can put into the frame of round `r` in which message `m` would be: all
/// of its own where it is `m`, and where it is of the same node and can be sent in that round.
fn bytes_beside(known: &Known, instance: &Instance, m: u32, r: u32, k: u32) -> u64
    requires fits { Fits instance.now known.now }
    requires first { m < length instance.now.messages }
    requires second { k < length instance.now.messages }
    ensures value { result ≡ bytes_beside instance.now known.now m r k }
    ensures bound { result ≤ MOST_BYTES }
{
    let one_node = instance.source_of(k as usize) == instance.source_of(m as usize);
    if k == m || (one_node && known.lo(k) <= r && r < known.top(k)) {
        u64::from(instance.message_at(k as usize).bytes)
    } else {
        0
    }
}

/// How many bytes are in that frame at most. One pass over the messages of its node.
pub fn bytes_in_frame(known: &Known, instance: &Instance, m: u32, r: u32) -> u64
    requires fits { Fits instance.now known.now }
    requires message { m < length instance.now.messages }
    ensures { result ≡ total (bytes_beside instance.now known.now m r) (length instance.now.messages) }
{
    let mut sum = 0;
    for k in instance.messages_of(instance.source_of(m as usize)) {
        sum += bytes_beside(known, instance, m, r, *k);
    }
    sum
}

/// When message `m` has been copied out at the latest.
pub fn ready_by(known: &Known, instance: &Instance, m: u32) -> u64
    requires fits { Fits instance.now known.now }
    requires message { m < length instance.now.messages }
    ensures { result ≡ le_of known.now (sender_of instance.now m) + instance.now.cluster.copy_out }
{
    let sender = instance.message_at(m as usize).sender;
    u64::from(known.le(sender)) + u64::from(instance.cluster().copy_out)
}

/// Whether message `m` could be sent in round `r`, which is earlier than any in which it is: it is
/// ready then, and its frame has room for it. One pass over the messages of its node.
pub fn could_be_earlier(known: &Known, setting: &Setting, m: u32, r: u32) -> bool
    requires fits { Fits setting.now.instance known.now }
    requires message { m < length setting.now.instance.messages }
    ensures { IsTrue result ↔ CouldBeEarlier setting.now.instance setting.now.choice known.now m r }
{
    let instance = setting.instance();
    let n = instance.source_of(m as usize);
    r < known.lo(m)
        && ready_by(known, instance, m) <= setting.start_least(n, r)
        && bytes_in_frame(known, instance, m, r) <= u64::from(setting.cap_least(n))
}
