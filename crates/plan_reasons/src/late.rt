//! Which processes end too late, whatever the plan?

ghost use Rattle.std.specs.Prelude.{◌≡◌, ◌++◌, ◌+◌, ◌^◌, ◌<◌, All, IfOk, OnOk, length};
ghost use Rattle.std.specs.List.{flat_map, range_with_len};
ghost use Rattle.plan_facts.specs.Longest.{AreLongest};
ghost use Rattle.plan_reasons.specs.Late.{arrived_late, late_part, late_parts, linked_late, receivers_late, released_late};
ghost use Rattle.plan_reasons.specs.PathThere.{IsPartThere};
ghost use Rattle.plan_reasons.specs.Runs.{HasCause};

use crate::path_causes::arrival_of;
use crate::path_parts::ChainPart;
use crate::runs::StartCause;
use plan_facts::must_end_by;
use std::alloc::{AllocError, Global};
use ttp_model::{Instance, MemoryFault};

/// Adds process `p`, where it ends too late if it begins at this tick.
fn push_late(
    parts: &mut Vec<ChainPart>,
    instance: &Instance,
    p: u32,
    from: u64,
    cause: StartCause,
) -> Result<(), AllocError>
    requires inside { p < length instance.now.processes }
    requires small { from < 2 ^ 33 }
    requires cause { HasCause instance.now cause }
    requires there { All (IsPartThere instance.now) parts.old.items }
    ensures parts { OnOk result (parts.new.items ≡ parts.old.items ++ late_part instance.now p from cause) }
    ensures there { OnOk result (All (IsPartThere instance.now) parts.new.items) }
{
    let until = from + u64::from(instance.process_at(p as usize).wcet);
    if until <= u64::from(must_end_by(instance, p as usize)) {
        return Ok(());
    }
    parts.push(ChainPart {
        process: p,
        from,
        until,
        cause,
    })?;
    Ok(())
}

/// Adds process `p`, where it ends too late behind its release.
fn push_release(parts: &mut Vec<ChainPart>, instance: &Instance, p: usize) -> Result<(), AllocError>
    requires inside { p < length instance.now.processes }
    requires there { All (IsPartThere instance.now) parts.old.items }
    ensures parts { OnOk result (parts.new.items ≡ parts.old.items ++ released_late instance.now p) }
    ensures there { OnOk result (All (IsPartThere instance.now) parts.new.items) }
{
    let _processes = instance.processes();
    let release = u64::from(instance.process_at(p).release);
    push_late(parts, instance, p as u32, release, StartCause::Release)
}

/// Adds all that do.
fn push_released(parts: &mut Vec<ChainPart>, instance: &Instance) -> Result<(), AllocError>
    requires there { All (IsPartThere instance.now) parts.old.items }
    ensures parts { OnOk result (parts.new.items ≡ parts.old.items ++ flat_map (released_late instance.now) (range_with_len 0 (length instance.now.processes))) }
    ensures there { OnOk result (All (IsPartThere instance.now) parts.new.items) }
{
    let count = instance.processes().len();
    for p in 0..count {
        push_release(parts, instance, p)?;
    }
    Ok(())
}

/// Adds the second process of link `l`, where it ends too late behind the first.
fn push_link(
    parts: &mut Vec<ChainPart>,
    instance: &Instance,
    ends: &[u64],
    l: usize,
) -> Result<(), AllocError>
    requires longest { AreLongest instance.now ends.now }
    requires inside { l < length instance.now.links }
    requires there { All (IsPartThere instance.now) parts.old.items }
    ensures parts { OnOk result (parts.new.items ≡ parts.old.items ++ linked_late instance.now ends.now l) }
    ensures there { OnOk result (All (IsPartThere instance.now) parts.new.items) }
{
    let _processes = instance.processes();
    let link = instance.link_at(l);
    let end = ends[link.before as usize];
    push_late(parts, instance, link.after, end, StartCause::Link(l as u32))
}

/// Adds all that do behind one that is linked to them.
fn push_linked(
    parts: &mut Vec<ChainPart>,
    instance: &Instance,
    ends: &[u64],
) -> Result<(), AllocError>
    requires longest { AreLongest instance.now ends.now }
    requires there { All (IsPartThere instance.now) parts.old.items }
    ensures parts { OnOk result (parts.new.items ≡ parts.old.items ++ flat_map (linked_late instance.now ends.now) (range_with_len 0 (length instance.now.links))) }
    ensures there { OnOk result (All (IsPartThere instance.now) parts.new.items) }
{
    let count = instance.links().len();
    for l in 0..count {
        push_link(parts, instance, ends, l)?;
    }
    Ok(())
}

/// Adds those of these receivers of message `m` that end too late where it is there at this tick.
fn push_arrived(
    parts: &mut Vec<ChainPart>,
    instance: &Instance,
    m: u32,
    from: u64,
    receivers: &[u32],
) -> Result<(), AllocError>
    requires message { m < length instance.now.messages }
    requires small { from < 2 ^ 33 }
    requires inside { All (λ q. q < length instance.now.processes) receivers.now }
    requires there { All (IsPartThere instance.now) parts.old.items }
    ensures parts { OnOk result (parts.new.items ≡ parts.old.items ++ flat_map (arrived_late instance.now m from) receivers.now) }
    ensures there { OnOk result (All (IsPartThere instance.now) parts.new.items) }
{
    for q in receivers {
        push_late(parts, instance, *q, from, StartCause::Arrival(m))?;
    }
    Ok(())
}

/// Adds the receivers of message `m` that end too late once it is there.
fn push_receivers(
    parts: &mut Vec<ChainPart>,
    instance: &Instance,
    ends: &[u64],
    m: usize,
) -> Result<(), AllocError>
    requires longest { AreLongest instance.now ends.now }
    requires inside { m < length instance.now.messages }
    requires there { All (IsPartThere instance.now) parts.old.items }
    ensures parts { OnOk result (parts.new.items ≡ parts.old.items ++ receivers_late instance.now ends.now m) }
    ensures there { OnOk result (All (IsPartThere instance.now) parts.new.items) }
{
    let _messages = instance.messages();
    let from = arrival_of(instance, ends, m);
    let receivers = instance.message_at(m).receivers.as_slice();
    push_arrived(parts, instance, m as u32, from, receivers)
}

/// Adds all that do once a message to them is there.
fn push_receiving(
    parts: &mut Vec<ChainPart>,
    instance: &Instance,
    ends: &[u64],
) -> Result<(), AllocError>
    requires longest { AreLongest instance.now ends.now }
    requires there { All (IsPartThere instance.now) parts.old.items }
    ensures parts { OnOk result (parts.new.items ≡ parts.old.items ++ flat_map (receivers_late instance.now ends.now) (range_with_len 0 (length instance.now.messages))) }
    ensures there { OnOk result (All (IsPartThere instance.now) parts.new.items) }
{
    let count = instance.messages().len();
    for m in 0..count {
        push_receivers(parts, instance, ends, m)?;
    }
    Ok(())
}

/// Those that end too late, for each thing that they wait for and that alone makes them late, by when the longest chain to each
/// process ends. Takes memory for them.
pub fn late_parts(
    alloc: Global,
    instance: &Instance,
    ends: &[u64],
) -> Result<Vec<ChainPart>, MemoryFault>
    requires { AreLongest instance.now ends.now }
    ensures parts { IfOk result (λ parts. parts.items ≡ late_parts instance.now ends.now) }
    ensures there { IfOk result (λ parts. All (IsPartThere instance.now) parts.items) }
{
    let mut parts = Vec::new(alloc);
    push_released(&mut parts, instance)?;
    push_linked(&mut parts, instance, ends)?;
    push_receiving(&mut parts, instance, ends)?;
    Ok(parts)
}
