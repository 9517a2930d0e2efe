//! How are the slots drawn, in the rows of the channels?

ghost use Rattle.std.specs.Prelude.{◌≡◌, ◌≤◌, ◌++◌, ◌<◌, ◌↔◌, Contains, IsTrue, OnOk, Some, length, string_bytes};
ghost use Rattle.ttp_model.specs.Plans.{IsValid};
ghost use Rattle.tt_layout.specs.Layout.{timing};
ghost use Rattle.plan_sheets.specs.Slots.{IsSlotRow};
ghost use Rattle.plan_sheets.specs.SlotRectangles.{band_text, bands_text, has_load, hollow_slot_text, position_slots, round_slots, slot_box_text, slot_piece, slot_rectangle, slot_title_text, slot_words, slots_text, title_front, used_slot_text};

use crate::pictures::canvas::{Canvas, top_of};
use crate::pictures::names::{put_beside, put_names};
use crate::pictures::rectangle::{Rectangle, put_opened};
use crate::slots::{Slot, slot_of};
use std::alloc::{AllocError, Global};
use std::fmt;
use tt_layout::{Layout, cycle_rounds};
use ttp_model::{Instance, MOST_NODES, MemoryFault, Plan};

/// Which slots.
#[derive(Clone, Copy, PartialEq, Eq)]
pub enum Load {
    /// Those that carry nothing.
    Nothing,
    /// Those that carry a message.
    Messages,
}

impl Load {
    /// Whether a slot has it.
    fn is_of(self, slot: &Slot) -> bool
        ensures { result ≡ has_load self slot.now }
    {
        match self {
            Load::Nothing => slot.used == 0,
            Load::Messages => slot.used != 0,
        }
    }
}

/// The rectangle of a slot.
pub fn slot_rectangle(slot: &Slot) -> Rectangle
    requires { slot.now.start ≤ slot.now.end }
    ensures { result ≡ slot_rectangle slot.now }
{
    Rectangle {
        row: slot.channel,
        node: slot.node,
        start: slot.start,
        length: slot.end - slot.start,
    }
}

/// A slot in words, with the name of its node.
#[derive(Drop)]
struct SlotWords<'a> {
    name: &'a str,
    slot: &'a Slot,
}

impl<'a> fmt::Display for SlotWords<'a> {
    ghost output = { λ x. Some (slot_words x.name.now x.slot.now) };

    #[tactic(auto, unfolding(crate::specs::SlotRectangles::slot_words))]
    fn fmt<W: fmt::Write>(&self, f: &mut fmt::Formatter<W>) -> fmt::Result {
        let (name, slot) = (self.name, self.slot);
        let (round, start, end) = (slot.round, slot.start, slot.end);
        let (used, capacity) = (slot.used, slot.capacity);
        write!(
            f,
            "{name} in round {round}: {start} to {end}, {used} of {capacity} bytes"
        )
    }
}

/// Draws the slots with such a load, round by round.
pub fn put_slots(
    alloc: Global,
    text: &mut String,
    canvas: &Canvas,
    instance: &Instance,
    plan: &Plan,
    load: Load,
) -> Result<(), MemoryFault>
    requires { IsValid instance.now plan.now }
    ensures { OnOk result (string_bytes text.new ≡ string_bytes text.old ++ slots_text canvas.now instance.now plan.now load) }
{
    let rounds = cycle_rounds(instance, plan);
    for round in 0..rounds {
        put_round(alloc, text, canvas, instance, plan, load, round)?;
    }
    Ok(())
}

/// Draws those of a round.
fn put_round(
    alloc: Global,
    text: &mut String,
    canvas: &Canvas,
    instance: &Instance,
    plan: &Plan,
    load: Load,
    round: u32,
) -> Result<(), MemoryFault>
    requires { IsValid instance.now plan.now }
    ensures { OnOk result (string_bytes text.new ≡ string_bytes text.old ++ round_slots canvas.now instance.now plan.now load round) }
{
    let layout = Layout::of(instance, plan.order.as_slice(), plan.caps.as_slice());
    let count = instance.nodes().len();
    let sends = plan.rounds.contains(round);
    for k in 0..count {
        put_position(
            alloc, text, canvas, instance, plan, &layout, load, round, k, sends,
        )?;
    }
    Ok(())
}

/// Draws the slot at position `k` of a round on each channel. Whether any message is sent in the round is known.
fn put_position(
    alloc: Global,
    text: &mut String,
    canvas: &Canvas,
    instance: &Instance,
    plan: &Plan,
    layout: &Layout,
    load: Load,
    round: u32,
    k: usize,
    sends: bool,
) -> Result<(), MemoryFault>
    requires valid { IsValid instance.now plan.now }
    requires layout { layout.now ≡ timing instance.now.cluster plan.now.order plan.now.caps }
    requires inside { k < length instance.now.nodes }
    requires few { k < MOST_NODES }
    requires sends { IsTrue sends ↔ Contains plan.now.rounds round }
    ensures { OnOk result (string_bytes text.new ≡ string_bytes text.old ++ position_slots canvas.now instance.now plan.now load round k) }
{
    let channels = instance.cluster().channels;
    for channel in 0..channels {
        let slot = slot_of(alloc, instance, plan, layout, round, k, channel, sends)?;
        put_slot(text, canvas, instance, plan, &slot, load)?;
    }
    Ok(())
}

/// Covers the inside of the rectangles in the channels' rows with white.
pub fn put_bands(text: &mut String, canvas: &Canvas, instance: &Instance) -> Result<(), AllocError>
    ensures { OnOk result (string_bytes text.new ≡ string_bytes text.old ++ bands_text canvas.now instance.now) }
{
    let channels = instance.cluster().channels;
    for channel in 0..channels {
        put_band(text, canvas, channel)?;
    }
    Ok(())
}

/// Does so in the row of a channel.
#[tactic(auto, unfolding(crate::specs::SlotRectangles::band_text))]
fn put_band(text: &mut String, canvas: &Canvas, channel: u32) -> Result<(), AllocError>
    ensures { OnOk result (string_bytes text.new ≡ string_bytes text.old ++ band_text canvas.now channel) }
{
    let (top, cycle) = (top_of(channel) + 3, canvas.cycle);
    writeln!(
        text,
        "<rect y=\"{top}\" width=\"{cycle}\" height=\"18\" fill=\"#fff\" pointer-events=\"none\"/>"
    )
}

/// Draws a slot with such a load, and no other.
fn put_slot(
    text: &mut String,
    canvas: &Canvas,
    instance: &Instance,
    plan: &Plan,
    slot: &Slot,
    load: Load,
) -> Result<(), AllocError>
    requires valid { IsValid instance.now plan.now }
    requires there { IsSlotRow instance.now slot.now }
    requires order { slot.now.start ≤ slot.now.end }
    ensures { OnOk result (string_bytes text.new ≡ string_bytes text.old ++ slot_piece canvas.now instance.now plan.now load slot.now) }
{
    if !load.is_of(slot) {
        return Ok(());
    }
    match load {
        Load::Nothing => put_hollow_slot(text, instance, slot),
        Load::Messages => put_used_slot(text, canvas, instance, plan, slot),
    }
}

/// Draws a slot that carries nothing.
#[tactic(auto, unfolding(crate::specs::SlotRectangles::hollow_slot_text))]
fn put_hollow_slot(text: &mut String, instance: &Instance, slot: &Slot) -> Result<(), AllocError>
    requires there { IsSlotRow instance.now slot.now }
    requires order { slot.now.start ≤ slot.now.end }
    ensures { OnOk result (string_bytes text.new ≡ string_bytes text.old ++ hollow_slot_text instance.now slot.now (slot_rectangle slot.now)) }
{
    let name = instance.nodes()[slot.node as usize].name.as_str();
    let words = SlotWords { name, slot };
    let rectangle = slot_rectangle(slot);
    writeln!(text, "<g><title>{words}</title>{rectangle}</g>")
}

/// Draws a slot with the names of its messages.
#[tactic(auto, unfolding(crate::specs::SlotRectangles::used_slot_text))]
fn put_used_slot(
    text: &mut String,
    canvas: &Canvas,
    instance: &Instance,
    plan: &Plan,
    slot: &Slot,
) -> Result<(), AllocError>
    requires valid { IsValid instance.now plan.now }
    requires there { IsSlotRow instance.now slot.now }
    requires order { slot.now.start ≤ slot.now.end }
    ensures { OnOk result (string_bytes text.new ≡ string_bytes text.old ++ used_slot_text canvas.now instance.now plan.now slot.now (slot_rectangle slot.now)) }
{
    put_slot_title(text, instance, slot)?;
    put_beside(text, canvas, instance, plan, slot)?;
    put_slot_box(text, canvas, instance, slot)
}

/// Adds the title of a slot that carries messages.
#[tactic(auto, unfolding(crate::specs::SlotRectangles::slot_title_text))]
fn put_slot_title(text: &mut String, instance: &Instance, slot: &Slot) -> Result<(), AllocError>
    requires there { IsSlotRow instance.now slot.now }
    ensures { OnOk result (string_bytes text.new ≡ string_bytes text.old ++ slot_title_text instance.now slot.now) }
{
    put_title_front(text, instance, slot)?;
    put_names(text, instance, slot.messages.as_slice())?;
    text.push_str("</title>")
}

/// Adds what begins the title of a slot that carries messages.
#[tactic(auto, unfolding(crate::specs::SlotRectangles::title_front))]
fn put_title_front(text: &mut String, instance: &Instance, slot: &Slot) -> Result<(), AllocError>
    requires { IsSlotRow instance.now slot.now }
    ensures { OnOk result (string_bytes text.new ≡ string_bytes text.old ++ title_front instance.now slot.now) }
{
    let name = instance.nodes()[slot.node as usize].name.as_str();
    let words = SlotWords { name, slot };
    write!(text, "<g><title>{words}:")
}

/// Adds its rectangle, with their names.
#[tactic(auto, unfolding(crate::specs::SlotRectangles::slot_box_text))]
fn put_slot_box(
    text: &mut String,
    canvas: &Canvas,
    instance: &Instance,
    slot: &Slot,
) -> Result<(), AllocError>
    requires there { IsSlotRow instance.now slot.now }
    requires order { slot.now.start ≤ slot.now.end }
    ensures { OnOk result (string_bytes text.new ≡ string_bytes text.old ++ slot_box_text canvas.now instance.now slot.now (slot_rectangle slot.now)) }
{
    let rectangle = slot_rectangle(slot);
    put_opened(text, canvas, &rectangle)?;
    put_names(text, instance, slot.messages.as_slice())?;
    text.push_str("</text></svg></svg></g>\n")
}
