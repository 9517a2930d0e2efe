//! What is fixed for nodes and messages, and which messages miss their slots?

ghost use Rattle.std.specs.Prelude.{◌≡◌, ◌<◌, ◌≤◌, IfOk, IfSome, IfNone, length};
ghost use Rattle.ttp_model.specs.Lists.{EachBelow};
ghost use Rattle.tt_choice.specs.Choice.{IsChoice};
ghost use Rattle.tt_layout.specs.Layout.{timing};
ghost use Rattle.earliest_starts.specs.Fixed.{fixed_caps, fixed_channels, copied_out, sends_from};

use std::alloc::Global;
use tt_choice::Choice;
use tt_layout::Layout;
use ttp_model::{Instance, MemoryFault};

/// The capacity of each node in bytes: 0 where none is fixed.
pub fn fixed_caps(
    alloc: Global,
    instance: &Instance,
    choice: &Choice,
) -> Result<Vec<u32>, MemoryFault>
    requires { IsChoice instance.now choice.now }
    ensures { IfOk result (λ caps. caps.items ≡ fixed_caps choice.now) }
{
    let count = instance.nodes().len() as u32;
    let mut caps = Vec::new(alloc);
    for n in 0..count {
        caps.push(choice.fixed_cap(n).unwrap_or(0))?;
    }
    Ok(caps)
}

/// The channel of each message, 2 for both: 0 where none is fixed.
pub fn fixed_channels(
    alloc: Global,
    instance: &Instance,
    choice: &Choice,
) -> Result<Vec<u32>, MemoryFault>
    requires { IsChoice instance.now choice.now }
    ensures { IfOk result (λ channels. channels.items ≡ fixed_channels choice.now) }
{
    let count = instance.messages().len() as u32;
    let mut channels = Vec::new(alloc);
    for m in 0..count {
        channels.push(choice.channel(m).unwrap_or(0))?;
    }
    Ok(channels)
}

/// A message whose slot begins before it is copied out. One pass over the messages.
pub fn late_message(
    instance: &Instance,
    choice: &Choice,
    layout: &Layout,
    starts: &[u32],
) -> Option<u32>
    requires of { IsChoice instance.now choice.now }
    requires layout { layout.now
        ≡ timing instance.now.cluster choice.now.prefix (fixed_caps choice.now) }
    requires all { length starts.now ≡ length instance.now.processes }
    ensures found { IfSome result (λ m. (m < length instance.now.messages)
        × (sends_from instance.now choice.now m < copied_out instance.now starts.now m)) }
    ensures none { IfNone result (EachBelow (length instance.now.messages)
        (λ m. copied_out instance.now starts.now m ≤ sends_from instance.now choice.now m)) }
{
    let count = instance.messages().len() as u32;
    for m in 0..count {
        let slot_start = layout.slot_start(instance.source_of(m as usize), choice.lo(m));
        if slot_start < copied_out(instance, starts, m) {
            return Some(m);
        }
    }
    None
}

/// When the sender of message `m` has ended and the message is copied out, in ticks.
fn copied_out(instance: &Instance, starts: &[u32], m: u32) -> u64
    requires all { length starts.now ≡ length instance.now.processes }
    requires message { m < length instance.now.messages }
    ensures { result ≡ copied_out instance.now starts.now m }
{
    let sender = instance.message_at(m as usize).sender as usize;
    let wcet = instance.process_at(sender).wcet;
    u64::from(starts[sender]) + u64::from(wcet) + u64::from(instance.cluster().copy_out)
}
