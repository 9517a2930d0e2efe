//! How are the names of a slot's messages written, and how much room do they have?

ghost use Rattle.std.specs.Prelude.{◌≡◌, ◌++◌, ◌<◌, All, OnOk, length, string_bytes};
ghost use Rattle.ttp_model.specs.Plans.{IsValid};
ghost use Rattle.tt_layout.specs.Layout.{timing};
ghost use Rattle.plan_sheets.specs.Slots.{IsSlotRow};
ghost use Rattle.plan_sheets.specs.Names.{beside_front, beside_names, beside_text, name_room, name_text, names_text, room_of, ticks_to};

use crate::pictures::canvas::Canvas;
use crate::pictures::rectangle::{Rectangle, put_opening};
use crate::slots::Slot;
use std::alloc::AllocError;
use tt_layout::Layout;
use ttp_model::{Instance, Plan, is_on};

/// The ticks from a slot to that of message `m`, where this one comes later in the same row; else as many as the cycle
/// has.
fn ticks_to(
    canvas: &Canvas,
    instance: &Instance,
    plan: &Plan,
    layout: &Layout,
    slot: &Slot,
    m: usize,
) -> u64
    requires valid { IsValid instance.now plan.now }
    requires layout { layout.now ≡ timing instance.now.cluster plan.now.order plan.now.caps }
    requires inside { m < length instance.now.messages }
    ensures { result ≡ ticks_to canvas.now instance.now plan.now slot.now m }
{
    let sent = layout.slot_start(instance.source_of(m), plan.rounds.as_slice()[m]);
    let channel = plan.channels.as_slice()[m];
    if is_on(slot.channel, channel) && slot.start < sent {
        sent - slot.start
    } else {
        canvas.cycle
    }
}

/// The ticks to the next slot of the row that carries a message. A step for each message.
fn room_of(canvas: &Canvas, instance: &Instance, plan: &Plan, slot: &Slot) -> u64
    requires { IsValid instance.now plan.now }
    ensures { result ≡ room_of canvas.now instance.now plan.now slot.now }
{
    let layout = Layout::of(instance, plan.order.as_slice(), plan.caps.as_slice());
    let count = instance.messages().len();
    let mut room = canvas.cycle;
    for m in 0..count {
        room = room.min(ticks_to(canvas, instance, plan, &layout, slot, m));
    }
    room
}

/// The room for the names of a slot.
fn name_room(canvas: &Canvas, instance: &Instance, plan: &Plan, slot: &Slot) -> Rectangle
    requires { IsValid instance.now plan.now }
    ensures { result ≡ name_room canvas.now instance.now plan.now slot.now }
{
    Rectangle {
        row: slot.channel,
        node: slot.node,
        start: slot.start,
        length: room_of(canvas, instance, plan, slot),
    }
}

/// Adds what begins the names in a room.
#[tactic(auto, unfolding(crate::specs::Names::beside_front))]
fn put_beside_front(text: &mut String) -> Result<(), AllocError>
    ensures { OnOk result (string_bytes text.new ≡ string_bytes text.old ++ beside_front) }
{
    text.push_str("<g class=\"beside\">")
}

/// Adds the names of a slot in their room, before its rectangle covers their beginning.
#[tactic(auto, unfolding(crate::specs::Names::beside_text))]
pub fn put_beside(
    text: &mut String,
    canvas: &Canvas,
    instance: &Instance,
    plan: &Plan,
    slot: &Slot,
) -> Result<(), AllocError>
    requires valid { IsValid instance.now plan.now }
    requires there { IsSlotRow instance.now slot.now }
    ensures { OnOk result (string_bytes text.new ≡ string_bytes text.old ++ beside_text canvas.now instance.now plan.now slot.now) }
{
    let room = name_room(canvas, instance, plan, slot);
    put_beside_front(text)?;
    put_opening(text, canvas, &room)?;
    put_beside_names(text, instance, slot.messages.as_slice())
}

/// Adds the names, and what ends them in a room.
#[tactic(auto, unfolding(crate::specs::Names::beside_names))]
fn put_beside_names(
    text: &mut String,
    instance: &Instance,
    messages: &[u32],
) -> Result<(), AllocError>
    requires { All (λ m. m < length instance.now.messages) messages.now }
    ensures { OnOk result (string_bytes text.new ≡ string_bytes text.old ++ beside_names instance.now messages.now) }
{
    put_names(text, instance, messages)?;
    text.push_str("</text></svg></svg></g>")
}

/// Adds the names of messages, each with a space before it.
#[tactic(auto, unfolding(crate::specs::Names::name_text))]
pub fn put_names(text: &mut String, instance: &Instance, messages: &[u32]) -> Result<(), AllocError>
    requires { All (λ m. m < length instance.now.messages) messages.now }
    ensures { OnOk result (string_bytes text.new ≡ string_bytes text.old ++ names_text instance.now messages.now) }
{
    for m in messages {
        let name = instance.message_at(*m as usize).name.as_str();
        write!(text, " {name}")?;
    }
    Ok(())
}
