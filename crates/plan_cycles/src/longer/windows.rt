//! Which guardian windows do so many rounds have?

ghost use Rattle.std.specs.Prelude.{◌≡◌, ◌^◌, ◌<◌, ◌≤◌, ◌++◌, All, IfOk, OnOk, length, map, take};
ghost use Rattle.ttp_model.specs.Plans.{IsValid};
ghost use Rattle.tt_layout.specs.Cycle.{cycle_rounds};
ghost use Rattle.plan_cycles.specs.Rounds.{IsOverBy, later_window, windows_in};

use guardian_windows::{Window, windows};
use std::alloc::{AllocError, Global};
use tt_layout::{Layout, cycle_rounds};
use ttp_model::{Instance, MOST_ROUND, MemoryFault, Plan};

/// The windows of a valid plan in so many rounds, in order of time: those of its cycle, and in each further round those of round 0, so
/// many rounds later. A step for each window.
pub fn windows_in(
    alloc: Global,
    instance: &Instance,
    plan: &Plan,
    rounds: u32,
) -> Result<Vec<Window>, MemoryFault>
    requires valid { IsValid instance.now plan.now }
    requires enough { cycle_rounds instance.now plan.now ≤ rounds }
    ensures windows { IfOk result (λ v. v.items ≡ windows_in rounds instance.now plan.now) }
    ensures nodes { IfOk result (λ v. All (λ w. w.node < length instance.now.nodes) v.items) }
{
    let layout = Layout::of(instance, plan.order.as_slice(), plan.caps.as_slice());
    let slots = instance.nodes().len();
    let mut windows = windows(alloc, instance, plan)?;
    for round in cycle_rounds(instance, plan)..rounds {
        let ticks = u64::from(round) * layout.round_length();
        push_round(&mut windows, slots, round, ticks)?;
    }
    Ok(windows)
}

/// Adds the windows of a round that begins at this tick.
fn push_round(
    windows: &mut Vec<Window>,
    slots: usize,
    round: u32,
    ticks: u64,
) -> Result<(), AllocError>
    requires inside { slots ≤ length windows.old.items }
    requires early { All (IsOverBy MOST_ROUND) (take slots windows.old.items) }
    requires ticks { ticks < 2 ^ 57 }
    ensures { OnOk result
        (windows.new.items ≡ windows.old.items ++ map (later_window round ticks) (take slots windows.old.items)) }
{
    for k in 0..slots {
        let window = later(&windows[k], round, ticks);
        windows.push(window)?;
    }
    Ok(())
}

/// A window in another round, so many ticks later.
fn later(window: &Window, round: u32, ticks: u64) -> Window
    requires early { IsOverBy MOST_ROUND window.now }
    requires ticks { ticks < 2 ^ 57 }
    ensures { result ≡ later_window round ticks window.now }
{
    Window {
        round,
        node: window.node,
        from: window.from + ticks,
        until: window.until + ticks,
    }
}
