//! Is each message copied out before its slot begins, and copied in before its receivers start?

ghost use Rattle.std.specs.Prelude.{◌≡◌, ◌<◌, MatchOption, length};
ghost use Rattle.ttp_model.specs.Lists.{EachBelow, FindsFailure};
ghost use Rattle.ttp_model.specs.Instance.{message_at};
ghost use Rattle.ttp_model.specs.Plans.{HasArrivedAt, HasArrivedEverywhere, HasLengths, IsReady};
ghost use Rattle.ttp_model.specs.Faults.{IsFirstLate};
ghost use Rattle.tt_layout.specs.Layout.{timing};

use plan_facts::{arrival, ready_at};
use tt_layout::Layout;
use ttp_model::{Instance, Plan};

/// The first message that isn't copied out when its slot begins.
pub fn first_not_ready(instance: &Instance, plan: &Plan, layout: &Layout) -> Option<u32>
    requires lengths { HasLengths instance.now plan.now }
    requires layout { layout.now ≡ timing instance.now.cluster plan.now.order plan.now.caps }
    ensures { FindsFailure (length instance.now.messages) (IsReady instance.now plan.now) result }
{
    let rounds = plan.rounds.as_slice();
    for m in 0..instance.messages().len() {
        if ready_at(instance, plan, m) > layout.slot_start(instance.source_of(m), rounds[m]) {
            return Some(m as u32);
        }
    }
    None
}

/// The first message that arrives late, with its first receiver that starts before.
pub fn first_not_arrived(instance: &Instance, plan: &Plan, layout: &Layout) -> Option<(u32, u32)>
    requires lengths { HasLengths instance.now plan.now }
    requires layout { layout.now ≡ timing instance.now.cluster plan.now.order plan.now.caps }
    ensures { MatchOption result
        (EachBelow (length instance.now.messages) (HasArrivedEverywhere instance.now plan.now))
        (λ late. IsFirstLate instance.now plan.now late.0 late.1) }
{
    for m in 0..instance.messages().len() {
        if let Some(k) = first_early_receiver(instance, plan, layout, m) {
            return Some((m as u32, instance.message_at(m).receivers.as_slice()[k]));
        }
    }
    None
}

/// The place of the first receiver that starts before the message is copied in.
fn first_early_receiver(
    instance: &Instance,
    plan: &Plan,
    layout: &Layout,
    m: usize,
) -> Option<usize>
    requires lengths { HasLengths instance.now plan.now }
    requires layout { layout.now ≡ timing instance.now.cluster plan.now.order plan.now.caps }
    requires inside { m < length instance.now.messages }
    ensures { FindsFailure (length (message_at instance.now m).receivers)
        (HasArrivedAt instance.now plan.now m) result }
{
    let starts = plan.starts.as_slice();
    let receivers = instance.message_at(m).receivers.as_slice();
    let there = arrival(instance, plan, layout, m);
    for k in 0..receivers.len() {
        if there > u64::from(starts[receivers[k] as usize]) {
            return Some(k);
        }
    }
    None
}
