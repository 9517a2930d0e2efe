//! When do processes end at least and start at most?

ghost use Rattle.std.specs.Prelude.{◌≡◌, ◌^◌, ◌<◌, length};
ghost use Rattle.sought_plans.specs.Known.{Fits};
ghost use Rattle.sought_plans.specs.Premises.{least_end, least_ready, most_start};

use crate::known::Known;
use ttp_model::Instance;

/// When process `p` ends at least, in ticks.
pub fn least_end(known: &Known, instance: &Instance, p: u32) -> u64
    requires fits { Fits instance.now known.now }
    requires process { p < length instance.now.processes }
    ensures value { result ≡ least_end instance.now known.now p }
    ensures bound { result < 2 ^ 33 }
{
    u64::from(known.es(p)) + u64::from(instance.process_at(p as usize).wcet)
}

/// When message `m` is copied out at least, in ticks.
pub fn least_ready(known: &Known, instance: &Instance, m: u32) -> u64
    requires fits { Fits instance.now known.now }
    requires message { m < length instance.now.messages }
    ensures value { result ≡ least_ready instance.now known.now m }
    ensures bound { result < 2 ^ 34 }
{
    let sender = instance.message_at(m as usize).sender;
    least_end(known, instance, sender) + u64::from(instance.cluster().copy_out)
}

/// When process `p` starts at most, in ticks: 0 where it can't end in time.
pub fn most_start(known: &Known, instance: &Instance, p: u32) -> u32
    requires fits { Fits instance.now known.now }
    requires process { p < length instance.now.processes }
    ensures { result ≡ most_start instance.now known.now p }
{
    known
        .le(p)
        .saturating_sub(instance.process_at(p as usize).wcet)
}
