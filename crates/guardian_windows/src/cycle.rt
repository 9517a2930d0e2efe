//! Which windows do the slots of a plan's cycle have?

ghost use Rattle.std.specs.Prelude.{◌≡◌, ◌+◌, ◌-◌, ◌^◌, ◌<◌, ◌≤◌, ◌++◌, All, IfOk, OnOk, length};
ghost use Rattle.ttp_model.specs.declared.limits.TheConstants.{MOST_TICKS};
ghost use Rattle.ttp_model.specs.Plans.{IsValid};
ghost use Rattle.ttp_model.specs.Slots.{duration, slot_start};
ghost use Rattle.tt_layout.specs.Layout.{timing};
ghost use Rattle.guardian_windows.specs.Windows.{cycle_windows, round_windows, window_of};
ghost use Rattle.guardian_windows.specs.Clocks.{AdmitFrames, AreNeverOpenTogether};

use crate::window::Window;
use std::alloc::Global;
use tt_layout::{Layout, cycle_rounds};
use ttp_model::{Cluster, Instance, MemoryFault, Plan};

/// The window of each slot of a valid plan's cycle, in order of time. One step for each window, and
/// one allocation, of their size.
pub fn windows(alloc: Global, instance: &Instance, plan: &Plan) -> Result<Vec<Window>, MemoryFault>
    requires { IsValid instance.now plan.now }
    ensures ok { IfOk result (λ v. v.items ≡ cycle_windows instance.now plan.now) }
    ensures nodes { IfOk result (λ v. All (λ w. w.node < length instance.now.nodes) v.items) }

    // The two facts that guardians are for, at all readings of synchronized clocks.
    ensures frames { IfOk result (λ v. AdmitFrames instance.now plan.now v.items) }
    ensures apart { IfOk result (λ v. AreNeverOpenTogether instance.now.cluster.precision v.items) }
{
    let layout = Layout::of(instance, plan.order.as_slice(), plan.caps.as_slice());
    let rounds = cycle_rounds(instance, plan);
    let mut windows = Vec::with_capacity(alloc, rounds as usize * instance.nodes().len())?;
    for round in 0..rounds {
        push_round(&mut windows, instance, plan, &layout, round)?;
    }
    Ok(windows)
}

/// Adds the windows of a round, in the order of its slots.
fn push_round(
    windows: &mut Vec<Window>,
    instance: &Instance,
    plan: &Plan,
    layout: &Layout,
    round: u32,
) -> Result<(), MemoryFault>
    requires valid { IsValid instance.now plan.now }
    requires layout { layout.now ≡ timing instance.now.cluster plan.now.order plan.now.caps }
    requires few { round < MOST_TICKS }
    ensures { OnOk result
        (windows.new.items ≡ windows.old.items ++ round_windows instance.now plan.now round) }
{
    let cluster = instance.cluster();
    let order = plan.order.as_slice();
    let mut start = u64::from(round) * layout.round_length();
    for n in order {
        windows.push(window_at(cluster, layout, round, *n, start))?;
        start += layout.duration(*n);
    }
    Ok(())
}

/// The window of the slot of node `n`, which begins at this tick.
fn window_at(cluster: &Cluster, layout: &Layout, round: u32, n: u32, start: u64) -> Window
    requires inside { n < length layout.now.caps }
    requires cluster { layout.now.cluster ≡ cluster.now }
    requires lead { cluster.now.precision ≤ cluster.now.lead }
    requires start { start < 2 ^ 57 }
    ensures { result ≡ record {
      round = round;
      node = n;
      from = start + cluster.now.lead - cluster.now.precision;
      until = start + duration cluster.now layout.now.caps n - cluster.now.trail
          + cluster.now.precision;
    } }
{
    let end = start + layout.duration(n);
    Window {
        round,
        node: n,
        from: start + u64::from(cluster.lead) - u64::from(cluster.precision),
        until: end - u64::from(cluster.trail) + u64::from(cluster.precision),
    }
}
