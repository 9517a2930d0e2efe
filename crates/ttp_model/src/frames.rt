//! Which messages are in a frame, and how much do they put into it?

ghost use Rattle.std.specs.Prelude.{◌≡◌, ◌<◌, ◌≤◌, length};
ghost use Rattle.ttp_model.specs.Plans.{HasChannelsLength, HasLengths, HasRoundsLength, bytes_in, bytes_on, is_in_frame_on, is_on};

use crate::instance::Instance;
use crate::limits::{BOTH_CHANNELS, MOST_BYTES};
use crate::plan::Plan;

/// Whether a message whose number in a plan is this one is on channel `c`: on that one alone, or on both.
pub fn is_on(c: u32, number: u32) -> bool
    ensures { result ≡ is_on c number }
{
    number == c || number == BOTH_CHANNELS
}

/// Whether message `m` is in the frame of node `n` in round `r` on channel `c`. One step.
pub fn is_in_frame_on(instance: &Instance, plan: &Plan, n: u32, r: u32, c: u32, m: usize) -> bool
    requires lengths { HasLengths instance.now plan.now }
    requires inside { m < length instance.now.messages }
    ensures { result ≡ is_in_frame_on instance.now plan.now n r c m }
{
    let round = plan.rounds.as_slice()[m];
    let number = plan.channels.as_slice()[m];
    instance.source_of(m) == n && round == r && is_on(c, number)
}

/// The bytes that message `m` puts into the frame of node `n` in round `r`, on whatever channel: none
/// where it isn't sent in it. One step.
pub fn bytes_in(instance: &Instance, plan: &Plan, n: u32, r: u32, m: usize) -> u32
    requires rounds { HasRoundsLength instance.now plan.now }
    requires inside { m < length instance.now.messages }
    ensures value { result ≡ bytes_in instance.now plan.now n r m }
    ensures bound { result ≤ MOST_BYTES }
{
    let round = plan.rounds.as_slice()[m];
    if instance.source_of(m) == n && round == r {
        instance.message_at(m).bytes
    } else {
        0
    }
}

/// The bytes that message `m` puts into the frame of node `n` in round `r` on channel `c`: none where it
/// isn't sent in it there. One step.
pub fn bytes_on(instance: &Instance, plan: &Plan, n: u32, r: u32, c: u32, m: usize) -> u32
    requires rounds { HasRoundsLength instance.now plan.now }
    requires channels { HasChannelsLength instance.now plan.now }
    requires inside { m < length instance.now.messages }
    ensures value { result ≡ bytes_on instance.now plan.now n r c m }
    ensures bound { result ≤ MOST_BYTES }
{
    let number = plan.channels.as_slice()[m];
    if is_on(c, number) {
        bytes_in(instance, plan, n, r, m)
    } else {
        0
    }
}
