//! Does a message lead a turned frame, wherever it is sent?

ghost use Rattle.std.specs.Prelude.{◌≡◌, ◌<◌, ◌↔◌, IsTrue, Some, length};
ghost use Rattle.ttp_model.specs.Instance.{source_of};
ghost use Rattle.ttp_model.specs.Lists.{EachBelow};
ghost use Rattle.tt_choice.specs.Choice.{fixed_channel};
ghost use Rattle.sought_plans.specs.Known.{Fits};
ghost use Rattle.sought_plans.specs.Dominance.{IsMirrored, KeepsAside};

use crate::known::Known;
use crate::setting::Setting;
use tt_choice::Choice;
use ttp_model::BOTH_CHANNELS;

/// Whether this channel is fixed for message `m`, or both where it is 2.
fn is_fixed_to(choice: &Choice, m: u32, number: u32) -> bool
    requires { m < length choice.now.channels }
    ensures { IsTrue result ↔ (fixed_channel choice.now m ≡ Some number) }
{
    match choice.channel(m) {
        Some(channel) => channel == number,
        None => false,
    }
}

/// Whether message `k` is fixed to both channels, or in none of the rounds in which message `m` is.
fn keeps_aside(known: &Known, setting: &Setting, m: u32, k: u32) -> bool
    requires fits { Fits setting.now.instance known.now }
    requires first { m < length setting.now.instance.messages }
    requires second { k < length setting.now.instance.messages }
    ensures { IsTrue result ↔ KeepsAside setting.now.choice known.now m k }
{
    is_fixed_to(setting.choice(), k, BOTH_CHANNELS)
        || known.top(k) <= known.lo(m)
        || known.top(m) <= known.lo(k)
}

/// Whether each lower message of the node of message `m` keeps aside. One pass over them.
fn keep_aside(known: &Known, setting: &Setting, m: u32) -> bool
    requires fits { Fits setting.now.instance known.now }
    requires message { m < length setting.now.instance.messages }
    ensures { IsTrue result ↔ EachBelow m (λ k. source_of setting.now.instance k ≡ source_of setting.now.instance m
        → KeepsAside setting.now.choice known.now m k) }
{
    let instance = setting.instance();
    let node = instance.source_of(m as usize);
    for k in 0..m {
        if instance.source_of(k as usize) == node && !keeps_aside(known, setting, m, k) {
            return false;
        }
    }
    true
}

/// Whether message `m` is fixed to channel 1, and each lower message of its node is fixed to both or in none of its rounds: the
/// frame that it is sent in is turned, whichever that is. One pass over the messages below it.
pub fn is_mirrored(known: &Known, setting: &Setting, m: u32) -> bool
    requires fits { Fits setting.now.instance known.now }
    requires message { m < length setting.now.instance.messages }
    ensures { IsTrue result ↔ IsMirrored setting.now.instance setting.now.choice known.now m }
{
    is_fixed_to(setting.choice(), m, 1) && keep_aside(known, setting, m)
}
