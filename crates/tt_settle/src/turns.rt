//! Which frames are turned, so that exchanging their channels puts the first message that is on one alone onto channel 0?

ghost use Rattle.std.specs.Prelude.{◌≡◌, ◌==◌, ◌&&◌, ◌<◌, if◌then◌else◌, length, map, slice_index};
ghost use Rattle.std.specs.List.{range_with_len};
ghost use Rattle.ttp_model.specs.Lists.{EachBelow};
ghost use Rattle.ttp_model.specs.Instance.{source_of};
ghost use Rattle.ttp_model.specs.Rules.{IsInstance};
ghost use Rattle.ttp_model.specs.Plans.{IsValid};
ghost use Rattle.ttp_model.specs.Moves.{first_alone, is_alone_in, leads_turned, other_channel, turned};
ghost use Rattle.tt_settle.specs.Settling.{IsTried, RestsOnChannel};

use ttp_model::{BOTH_CHANNELS, Instance, Numbers, Plan};

/// Exchanges the channels of each turned frame, and tells whether there was one. An exchange keeps a plan valid.
pub fn turn_frames(instance: &Instance, mut plan: Plan) -> (Plan, bool)
    requires { IsValid instance.now plan }
    ensures { IsTried instance.now plan
        (λ q. EachBelow (length instance.now.messages) (RestsOnChannel instance.now q))
        result.0 result.1 }
{
    let mut moved = false;
    for m in 0..instance.messages().len() {
        let (next, exchanged) = turn_one(instance, plan, m);
        plan = next;
        moved |= exchanged;
    }
    (plan, moved)
}

/// The same of the frame that message `m` leads, where it leads a turned one.
fn turn_one(instance: &Instance, plan: Plan, m: usize) -> (Plan, bool)
    requires instance { IsInstance instance.now }
    requires valid { IsValid instance.now plan }
    requires inside { m < length instance.now.messages }
    ensures { IsTried instance.now plan (λ q. RestsOnChannel instance.now q m) result.0 result.1 }
{
    if leads_turned(instance, &plan, m) {
        (turn_frame(instance, plan, m), true)
    } else {
        (plan, false)
    }
}

/// Whether message `m` is on channel 1, and the first of its frame that is on one channel alone.
fn leads_turned(instance: &Instance, plan: &Plan, m: usize) -> bool
    requires valid { IsValid instance.now plan.now }
    requires inside { m < length instance.now.messages }
    ensures { result ≡ leads_turned instance.now plan.now m }
{
    let round = plan.rounds.as_slice()[m];
    plan.channels.as_slice()[m] == 1
        && first_alone(instance, plan, instance.source_of(m), round) == m
}

/// The first message of a frame that is on one channel alone: the number of messages where none is.
fn first_alone(instance: &Instance, plan: &Plan, n: u32, r: u32) -> usize
    requires { IsValid instance.now plan.now }
    ensures { result ≡ first_alone instance.now plan.now n r }
{
    let count = instance.messages().len();
    for k in 0..count {
        if is_alone_in(instance, plan, n, r, k) {
            return k;
        }
    }
    count
}

/// Whether message `k` is in a frame, on one channel alone.
fn is_alone_in(instance: &Instance, plan: &Plan, n: u32, r: u32, k: usize) -> bool
    requires valid { IsValid instance.now plan.now }
    requires inside { k < length instance.now.messages }
    ensures { result ≡ is_alone_in instance.now plan.now n r k }
{
    let channel = plan.channels.as_slice()[k];
    is_sent_in(instance, plan.rounds.as_slice(), n, r, k) && channel != BOTH_CHANNELS
}

/// Whether message `k` is of this node, and its round is this one.
fn is_sent_in(instance: &Instance, rounds: &[u32], n: u32, r: u32, k: usize) -> bool
    requires rounds { length rounds.now ≡ length instance.now.messages }
    requires inside { k < length instance.now.messages }
    ensures { result ≡ (source_of instance.now k == n && slice_index rounds.now k == r) }
{
    instance.source_of(k) == n && rounds[k] == r
}

/// The plan with channels 0 and 1 exchanged in the frame of message `m`. Takes no memory.
fn turn_frame(instance: &Instance, plan: Plan, m: usize) -> Plan
    requires valid { IsValid instance.now plan }
    requires inside { m < length instance.now.messages }
    ensures { result ≡ turned instance.now plan m }
{
    let Plan {
        order,
        caps,
        starts,
        rounds,
        channels,
    } = plan;
    let channels = exchange(instance, rounds.as_slice(), channels.into_vec(), m);
    let channels = Numbers::new(channels);
    Plan {
        order,
        caps,
        starts,
        rounds,
        channels,
    }
}

/// The channels with 0 and 1 exchanged for each message in the frame of message `m`.
fn exchange(instance: &Instance, rounds: &[u32], mut channels: Vec<u32>, m: usize) -> Vec<u32>
    requires rounds { length rounds.now ≡ length instance.now.messages }
    requires channels { length channels.items ≡ length instance.now.messages }
    requires inside { m < length instance.now.messages }
    ensures { result.items ≡ map
        (λ k. if source_of instance.now k == source_of instance.now m && slice_index rounds.now k == slice_index rounds.now m
        then other_channel (slice_index channels.items k) else slice_index channels.items k)
        (range_with_len 0 (length instance.now.messages)) }
{
    let n = instance.source_of(m);
    let round = rounds[m];
    for k in 0..channels.len() {
        channels[k] = exchanged_where(is_sent_in(instance, rounds, n, round, k), channels[k]);
    }
    channels
}

/// The other one of channels 0 and 1, where it is to be exchanged.
fn exchanged_where(there: bool, number: u32) -> u32
    ensures { result ≡ (if there then other_channel number else number) }
{
    match number {
        0 if there => 1,
        1 if there => 0,
        _ => number,
    }
}
