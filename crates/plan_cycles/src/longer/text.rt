//! How are node tables and guardian windows of so many rounds written?

ghost use Rattle.std.specs.Prelude.{◌≡◌, ◌≤◌, IfOk};
ghost use Rattle.ttp_model.specs.Plans.{IsValid};
ghost use Rattle.tt_layout.specs.Cycle.{cycle_rounds};
ghost use Rattle.guardian_windows.specs.Text.{windows_text};
ghost use Rattle.plan_cycles.specs.Rounds.{loads_in, too_many_slots, windows_in};

use crate::longer::tables::tables_text;
use crate::longer::windows::windows_in;
use std::alloc::Global;
use ttp_model::{Instance, MemoryFault, Plan};

/// How many slots are told of, at most.
pub const MOST_SLOTS: u64 = 1_000_000;

/// How many slots so many rounds have, where these are too many.
pub fn too_many_slots(instance: &Instance, rounds: u32) -> Option<u64>
    ensures { result ≡ too_many_slots instance.now rounds }
{
    let slots = u64::from(rounds) * instance.nodes().len() as u64;
    if MOST_SLOTS < slots {
        Some(slots)
    } else {
        None
    }
}

/// The guardian windows of a valid plan in so many rounds.
fn windows_text(
    alloc: Global,
    instance: &Instance,
    plan: &Plan,
    rounds: u32,
) -> Result<Vec<u8>, MemoryFault>
    requires valid { IsValid instance.now plan.now }
    requires enough { cycle_rounds instance.now plan.now ≤ rounds }
    ensures { IfOk result (λ text. text.items ≡ windows_text instance.now (windows_in rounds instance.now plan.now)) }
{
    let windows = windows_in(alloc, instance, plan, rounds)?;
    guardian_windows::print(alloc, instance, windows.as_slice())
}

/// The node tables of a valid plan in so many rounds, and then its guardian windows: as many as its cycle has, or more. Linear in the
/// text.
pub fn print(
    alloc: Global,
    instance: &Instance,
    plan: &Plan,
    rounds: u32,
) -> Result<Vec<u8>, MemoryFault>
    requires valid { IsValid instance.now plan.now }
    requires enough { cycle_rounds instance.now plan.now ≤ rounds }
    ensures { IfOk result (λ text. text.items ≡ loads_in rounds instance.now plan.now) }
{
    let mut text = tables_text(alloc, instance, plan, rounds)?;
    let windows = windows_text(alloc, instance, plan, rounds)?;
    text.extend_from_slice(windows.as_slice())?;
    Ok(text)
}
