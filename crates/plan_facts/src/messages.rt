//! When is a message ready, and when is it there?

ghost use Rattle.std.specs.Prelude.{◌≡◌, ◌^◌, ◌<◌, length};
ghost use Rattle.ttp_model.specs.Plans.{HasLengths};
ghost use Rattle.tt_layout.specs.Layout.{timing};
ghost use Rattle.plan_facts.specs.Messages.{IsFirstInTime, arrival, ready_at};

use tt_layout::Layout;
use ttp_model::{Instance, Plan, end_of};

/// When message `m` has been copied out, in ticks. One step.
pub fn ready_at(instance: &Instance, plan: &Plan, m: usize) -> u64
    requires lengths { HasLengths instance.now plan.now }
    requires inside { m < length instance.now.messages }
    ensures value { result ≡ ready_at instance.now plan.now m }
    ensures bound { result < 2 ^ 34 }
{
    let end = end_of(instance, plan, instance.message_at(m).sender as usize);
    end + u64::from(instance.cluster().copy_out)
}

/// When message `m` has been copied in, in ticks. One pass over the slots before it.
pub fn arrival(instance: &Instance, plan: &Plan, layout: &Layout, m: usize) -> u64
    requires lengths { HasLengths instance.now plan.now }
    requires layout { layout.now ≡ timing instance.now.cluster plan.now.order plan.now.caps }
    requires inside { m < length instance.now.messages }
    ensures { result ≡ arrival instance.now plan.now m }
{
    let round = plan.rounds.as_slice()[m];
    layout.slot_end(instance.source_of(m), round) + u64::from(instance.cluster().copy_in)
}

/// The first round whose slot begins once message `m` is ready. It may be one past 4,294,967,295, which no plan can name. One
/// pass over the slots before it.
pub fn first_in_time(instance: &Instance, plan: &Plan, layout: &Layout, m: usize) -> u64
    requires lengths { HasLengths instance.now plan.now }
    requires layout { layout.now ≡ timing instance.now.cluster plan.now.order plan.now.caps }
    requires inside { m < length instance.now.messages }
    ensures { IsFirstInTime instance.now plan.now m result }
{
    layout.first_round_at(instance.source_of(m), ready_at(instance, plan, m))
}
