//! What does each slot carry, and when?

ghost use Rattle.std.specs.Prelude.{◌≡◌, ◌<◌, ◌≤◌, ◌++◌, ◌↔◌, ◌*◌, [], ◌∷◌, All, Contains, IfOk, IsTrue, OnOk, drop, length};
ghost use Rattle.ttp_model.specs.declared.limits.TheConstants.{MOST_BYTES, MOST_MESSAGES};
ghost use Rattle.ttp_model.specs.Plans.{HasLengths, IsValid, load_on};
ghost use Rattle.tt_layout.specs.Layout.{timing};
ghost use Rattle.plan_facts.specs.Frames.{messages_on};
ghost use Rattle.plan_sheets.specs.Lines.{IsLineStart, IsSheet, IsTidy, cells_of, text_of};
ghost use Rattle.plan_sheets.specs.Slots.{IsSlotRow, position_text, round_text, slot_line, slot_of, slots_text, spaced_names};

use crate::sheet::Sheet;
use line_text::push_word;
use plan_facts::{load_on, messages_on};
use std::alloc::Global;
use tt_layout::{Layout, cycle_rounds};
use ttp_model::{Instance, MOST_NODES, MOST_TICKS, MemoryFault, Numbers, Plan};

/// A slot of the cycle, on a channel.
#[derive(Drop)]
pub struct Slot {
    /// The round, from 0.
    pub round: u32,
    /// The position of the slot in the order, from 0.
    pub position: u32,
    /// The channel.
    pub channel: u32,
    /// The node that sends in it, by its index in the instance.
    pub node: u32,
    /// When it begins, in ticks.
    pub start: u64,
    /// When its frame begins.
    pub frame: u64,
    /// When its frame ends: the first tick after it.
    pub frame_end: u64,
    /// When it ends.
    pub end: u64,
    /// How many bytes the frame may carry.
    pub capacity: u32,
    /// How many it carries on the channel.
    pub used: u32,
    /// The messages of the frame in the instance's order, by their indices.
    pub messages: Numbers,
}

/// The table of slots, in order of time, with a row for each channel. Messages are looked at in the rounds in which one is sent.
pub fn slots(alloc: Global, instance: &Instance, plan: &Plan) -> Result<Vec<u8>, MemoryFault>
    requires { IsValid instance.now plan.now }
    ensures { IfOk result (λ text. text.items ≡ slots_text instance.now plan.now) }
{
    let rounds = cycle_rounds(instance, plan);
    let mut sheet = Sheet::new(
        alloc,
        b"round,position,channel,node,start,frame,frame_end,end,capacity,used,messages\n",
    )?;
    for round in 0..rounds {
        put_round(alloc, &mut sheet, instance, plan, round)?;
    }
    sheet.into_text()
}

/// Adds the lines of a round.
fn put_round(
    alloc: Global,
    sheet: &mut Sheet,
    instance: &Instance,
    plan: &Plan,
    round: u32,
) -> Result<(), MemoryFault>
    requires valid { IsValid instance.now plan.now }
    requires start { IsLineStart sheet.old }
    ensures { OnOk result (IsSheet sheet.new (text_of sheet.old ++ round_text instance.now plan.now round) []) }
{
    let layout = Layout::of(instance, plan.order.as_slice(), plan.caps.as_slice());
    let count = instance.nodes().len();
    let sends = plan.rounds.contains(round);
    for k in 0..count {
        put_position(alloc, sheet, instance, plan, &layout, round, k, sends)?;
    }
    Ok(())
}

/// Adds the lines of the slot at position `k` of a round, one for each channel. Whether any message is
/// sent in the round is known.
fn put_position(
    alloc: Global,
    sheet: &mut Sheet,
    instance: &Instance,
    plan: &Plan,
    layout: &Layout,
    round: u32,
    k: usize,
    sends: bool,
) -> Result<(), MemoryFault>
    requires valid { IsValid instance.now plan.now }
    requires layout { layout.now ≡ timing instance.now.cluster plan.now.order plan.now.caps }
    requires inside { k < length instance.now.nodes }
    requires few { k < MOST_NODES }
    requires sends { IsTrue sends ↔ Contains plan.now.rounds round }
    requires start { IsLineStart sheet.old }
    ensures { OnOk result (IsSheet sheet.new (text_of sheet.old ++ position_text instance.now plan.now round k) []) }
{
    let channels = instance.cluster().channels;
    for channel in 0..channels {
        let row = slot_of(alloc, instance, plan, layout, round, k, channel, sends)?;
        put_slot(alloc, sheet, instance, &row)?;
    }
    Ok(())
}

/// The slot at position `k` of a round, on a channel. Whether any message is sent in the round is known.
pub fn slot_of(
    alloc: Global,
    instance: &Instance,
    plan: &Plan,
    layout: &Layout,
    round: u32,
    k: usize,
    channel: u32,
    sends: bool,
) -> Result<Slot, MemoryFault>
    requires valid { IsValid instance.now plan.now }
    requires layout { layout.now ≡ timing instance.now.cluster plan.now.order plan.now.caps }
    requires inside { k < length instance.now.nodes }
    requires few { k < MOST_NODES }
    requires sends { IsTrue sends ↔ Contains plan.now.rounds round }
    ensures { IfOk result (λ row. row ≡ slot_of instance.now plan.now round k channel) }
{
    let cluster = instance.cluster();
    let node = plan.order.as_slice()[k];
    let start = layout.slot_start(node, round);
    let end = start + layout.duration(node);
    Ok(Slot {
        round,
        position: k as u32,
        channel,
        node,
        start,
        frame: start + u64::from(cluster.lead),
        frame_end: end - u64::from(cluster.trail),
        end,
        capacity: plan.caps.as_slice()[node as usize],
        used: used_in(instance, plan, node, round, channel, sends),
        messages: carried_in(alloc, instance, plan, node, round, channel, sends)?,
    })
}

/// How many bytes the messages of a frame have. Where no message is sent in the round, none is looked at.
fn used_in(instance: &Instance, plan: &Plan, n: u32, r: u32, channel: u32, sends: bool) -> u32
    requires lengths { HasLengths instance.now plan.now }
    requires sends { IsTrue sends ↔ Contains plan.now.rounds r }
    ensures { result ≡ load_on instance.now plan.now n r channel }
{
    if !sends {
        return 0;
    }
    load_on(instance, plan, n, r, channel) as u32
}

/// The messages of a frame. Where no message is sent in the round, none is looked at.
fn carried_in(
    alloc: Global,
    instance: &Instance,
    plan: &Plan,
    n: u32,
    r: u32,
    channel: u32,
    sends: bool,
) -> Result<Numbers, MemoryFault>
    requires lengths { HasLengths instance.now plan.now }
    requires sends { IsTrue sends ↔ Contains plan.now.rounds r }
    ensures { IfOk result (λ messages. messages ≡ messages_on instance.now plan.now n r channel) }
{
    if !sends {
        let none = Vec::new(alloc);
        return Ok(Numbers::new(none));
    }
    messages_on(alloc, instance, plan, n, r, channel)
}

/// Adds the line of a slot.
fn put_slot(
    alloc: Global,
    sheet: &mut Sheet,
    instance: &Instance,
    row: &Slot,
) -> Result<(), MemoryFault>
    requires there { IsSlotRow instance.now row.now }
    requires start { IsLineStart sheet.old }
    ensures { OnOk result (IsSheet sheet.new (text_of sheet.old ++ slot_line instance.now row.now) []) }
{
    let node = instance.nodes()[row.node as usize].name.as_bytes();
    sheet.put_numbers(&[row.round as u64, row.position as u64, row.channel as u64])?;
    sheet.put(node)?;
    sheet.put_numbers(&[
        row.start,
        row.frame,
        row.frame_end,
        row.end,
        row.capacity as u64,
        row.used as u64,
    ])?;
    put_names(alloc, sheet, instance, row.messages.as_slice())?;
    sheet.end_line()?;
    Ok(())
}

/// Adds a cell with the names of messages, parted by spaces.
fn put_names(
    alloc: Global,
    sheet: &mut Sheet,
    instance: &Instance,
    messages: &[u32],
) -> Result<(), MemoryFault>
    requires tidy { IsTidy sheet.old }
    requires there { All (λ m. m < length instance.now.messages) messages.now }
    ensures { let names = drop 1 (spaced_names instance.now messages.now) in
        OnOk result (IsSheet sheet.new (text_of sheet.old) (cells_of sheet.old ++ names ∷ [])) }
{
    let names = spaced_names(alloc, instance, messages)?;
    sheet.put(without_first(names.as_slice()))
}

/// The names of messages, each with a space before it.
fn spaced_names(
    alloc: Global,
    instance: &Instance,
    messages: &[u32],
) -> Result<Vec<u8>, MemoryFault>
    requires { All (λ m. m < length instance.now.messages) messages.now }
    ensures { IfOk result (λ names. names.items ≡ spaced_names instance.now messages.now) }
{
    let mut names = Vec::new(alloc);
    for m in messages {
        push_word(&mut names, instance.message_at(*m as usize).name.as_bytes())?;
    }
    Ok(names)
}

/// What stands behind the first byte.
fn without_first(bytes: &[u8]) -> &[u8]
    ensures { result.now ≡ drop 1 bytes.now }
{
    if bytes.is_empty() { bytes } else { &bytes[1..] }
}
