//! How many bytes have to go into the frames of some rounds?

ghost use Rattle.std.specs.Prelude.{◌≡◌, ◌*◌, ◌≤◌, ◌<◌, length};
ghost use Rattle.ttp_model.specs.declared.limits.TheConstants.{MOST_BYTES};
ghost use Rattle.ttp_model.specs.Totals.{total};
ghost use Rattle.sought_plans.specs.Known.{Fits};
ghost use Rattle.sought_plans.specs.Premises.{bytes_copied, bytes_counted, bytes_within, copies, counts_on};

use crate::known::Known;
use crate::setting::Setting;
use tt_choice::Choice;
use ttp_model::{BOTH_CHANNELS, Instance, is_on};

/// In how many halves of a frame message `m` is at least: in two where it is fixed to both channels.
pub fn copies(choice: &Choice, m: u32) -> u32
    requires { m < length choice.now.channels }
    ensures value { result ≡ copies choice.now m }
    ensures bound { result ≤ 2 }
{
    match choice.channel(m) {
        Some(channel) => { if channel == BOTH_CHANNELS { 2 } else { 1 } }
        None => 1,
    }
}

/// Whether message `m` is fixed to channel `k`, or to both.
pub fn counts_on(choice: &Choice, k: u32, m: u32) -> bool
    requires { m < length choice.now.channels }
    ensures { result ≡ counts_on choice.now k m }
{
    match choice.channel(m) {
        Some(channel) => is_on(k, channel),
        None => false,
    }
}

/// How many bytes message `m` puts into frames of node `n` from round `a` on and before `b`: 0 where
/// it is another's, or may be sent earlier or later.
fn bytes_within(known: &Known, instance: &Instance, n: u32, a: u32, b: u32, m: u32) -> u64
    requires fits { Fits instance.now known.now }
    requires message { m < length instance.now.messages }
    ensures value { result ≡ bytes_within instance.now known.now n a b m }
    ensures bound { result ≤ MOST_BYTES }
{
    if instance.source_of(m as usize) == n && a <= known.lo(m) && known.top(m) <= b {
        u64::from(instance.message_at(m as usize).bytes)
    } else {
        0
    }
}

/// The same, twice where the message is fixed to both channels.
fn bytes_copied(known: &Known, setting: &Setting, n: u32, a: u32, b: u32, m: u32) -> u64
    requires fits { Fits setting.now.instance known.now }
    requires message { m < length setting.now.instance.messages }
    ensures value { result ≡ bytes_copied setting.now.instance setting.now.choice known.now n a b m }
    ensures bound { result ≤ 2 * MOST_BYTES }
{
    let bytes = bytes_within(known, setting.instance(), n, a, b, m);
    u64::from(copies(setting.choice(), m)) * bytes
}

/// How many bytes go into frames of node `n` from round `a` on and before `b`, on all channels. One
/// pass over its messages.
pub fn bytes_in_frames(known: &Known, setting: &Setting, n: u32, a: u32, b: u32) -> u64
    requires { Fits setting.now.instance known.now }
    ensures { result
        ≡ total (bytes_copied setting.now.instance setting.now.choice known.now n a b) (length setting.now.instance.messages) }
{
    let mut sum = 0;
    for m in setting.instance().messages_of(n) {
        sum += bytes_copied(known, setting, n, a, b, *m);
    }
    sum
}

/// How many bytes message `m` puts into those frames on channel `k`: 0 where it isn't fixed to it.
fn bytes_counted(known: &Known, setting: &Setting, k: u32, n: u32, a: u32, b: u32, m: u32) -> u64
    requires fits { Fits setting.now.instance known.now }
    requires message { m < length setting.now.instance.messages }
    ensures value { result ≡ bytes_counted setting.now.instance setting.now.choice known.now k n a b m }
    ensures bound { result ≤ MOST_BYTES }
{
    if counts_on(setting.choice(), k, m) {
        bytes_within(known, setting.instance(), n, a, b, m)
    } else {
        0
    }
}

/// How many bytes go into them on channel `k`, of messages that are fixed to it. One pass over the
/// messages of the node.
pub fn bytes_on_channel(known: &Known, setting: &Setting, k: u32, n: u32, a: u32, b: u32) -> u64
    requires { Fits setting.now.instance known.now }
    ensures { result
        ≡ total (bytes_counted setting.now.instance setting.now.choice known.now k n a b) (length setting.now.instance.messages) }
{
    let mut sum = 0;
    for m in setting.instance().messages_of(n) {
        sum += bytes_counted(known, setting, k, n, a, b, *m);
    }
    sum
}
