//! When is each process released and has all its messages?

ghost use Rattle.std.specs.Prelude.{◌≡◌, ℕ, ◌+◌, ◌^◌, ◌<◌, ◌≤◌, ◌⊎◌, All, Contains, IfOk, length, slice_index};
ghost use Rattle.ttp_model.specs.Lists.{EachBelow};
ghost use Rattle.ttp_model.specs.Instance.{process_at};
ghost use Rattle.tt_choice.specs.Choice.{IsChoice};
ghost use Rattle.tt_layout.specs.Layout.{timing};
ghost use Rattle.earliest_starts.specs.Fixed.{fixed_caps, sends_until};
ghost use Rattle.earliest_starts.specs.Starts.{AreFloors};

use std::alloc::Global;
use tt_choice::Choice;
use tt_layout::Layout;
use ttp_model::{Instance, MemoryFault};

/// For each process the time, in ticks, from which it is released and has all its messages. One
/// pass over the messages and their receivers, with a look at the layout for each message.
pub fn floors(
    alloc: Global,
    instance: &Instance,
    choice: &Choice,
    layout: &Layout,
) -> Result<Vec<u64>, MemoryFault>
    requires of { IsChoice instance.now choice.now }
    requires layout { layout.now
        ≡ timing instance.now.cluster choice.now.prefix (fixed_caps choice.now) }
    ensures { IfOk result (λ floors.
        AreFloors instance.now choice.now (length instance.now.messages) floors.items) }
{
    let mut floors = releases(alloc, instance)?;
    let count = instance.messages().len() as u32;
    for m in 0..count {
        let time = arrival(instance, choice, layout, m);
        let receivers = instance.message_at(m as usize).receivers.as_slice();
        raise(&mut floors, receivers, time);
    }
    Ok(floors)
}

/// When each process is released, in ticks.
fn releases(alloc: Global, instance: &Instance) -> Result<Vec<u64>, MemoryFault>
    ensures all { IfOk result (λ times. length times.items ≡ length instance.now.processes) }
    ensures each { IfOk result (λ times. EachBelow (length instance.now.processes)
        (λ p. slice_index times.items p ≡ (process_at instance.now p).release)) }
{
    let mut times = Vec::new(alloc);
    for p in 0..instance.processes().len() {
        times.push(u64::from(instance.process_at(p).release))?;
    }
    Ok(times)
}

/// When message `m` has arrived at its receivers, in ticks.
fn arrival(instance: &Instance, choice: &Choice, layout: &Layout, m: u32) -> u64
    requires of { IsChoice instance.now choice.now }
    requires layout { layout.now
        ≡ timing instance.now.cluster choice.now.prefix (fixed_caps choice.now) }
    requires message { m < length instance.now.messages }
    ensures value { result ≡ sends_until instance.now choice.now m + instance.now.cluster.copy_in }
    ensures small { result < 2 ^ 59 }
{
    let slot_end = layout.slot_end(instance.source_of(m as usize), choice.lo(m));
    slot_end + u64::from(instance.cluster().copy_in)
}

/// Raises the times of these processes to a time that they wait for.
fn raise(times: &mut Vec<u64>, processes: &[u32], time: u64)
    requires { All (λ p. p < length times.old.items) processes.now }
    ensures all { length times.new.items ≡ length times.old.items }
    ensures kept { (p : ℕ) → slice_index times.old.items p ≤ slice_index times.new.items p }
    ensures raised { (p : ℕ) → Contains processes.now p → time ≤ slice_index times.new.items p }
    ensures cause { (p : ℕ) → (slice_index times.new.items p ≡ slice_index times.old.items p)
        ⊎ (Contains processes.now p × (slice_index times.new.items p ≡ time)) }
{
    for p in processes {
        if times[*p as usize] < time {
            times[*p as usize] = time;
        }
    }
}
