//! When is each message ready, sent, and there?

ghost use Rattle.std.specs.Prelude.{◌≡◌, ◌<◌, ◌++◌, ◌∷◌, [], All, IfOk, OnOk, length};
ghost use Rattle.ttp_model.specs.Plans.{IsValid};
ghost use Rattle.tt_layout.specs.Layout.{timing};
ghost use Rattle.plan_sheets.specs.Deliveries.{IsDeliveryRow, channel_word, deliveries_text, delivery_line, delivery_of, message_text};
ghost use Rattle.plan_sheets.specs.Lines.{IsLineStart, IsSheet, IsTidy, cells_of, text_of};

use crate::sheet::Sheet;
use plan_facts::{arrival, ready_at};
use std::alloc::Global;
use tt_layout::Layout;
use ttp_model::{BOTH_CHANNELS, Instance, MemoryFault, Plan};

/// A message on its way to one of its receivers.
#[derive(Clone, Copy)]
pub struct Delivery {
    /// The message, by its index in the instance.
    pub message: u32,
    /// The process that sends it.
    pub sender: u32,
    /// The process that receives it.
    pub receiver: u32,
    /// How many bytes it has.
    pub bytes: u32,
    /// The round in which it is sent, from 0.
    pub round: u32,
    /// The channel on which it is sent: 0, 1, or 2 for both.
    pub channel: u32,
    /// The node that sends it.
    pub node: u32,
    /// When it is copied out, in ticks.
    pub ready: u64,
    /// When its slot begins.
    pub slot: u64,
    /// When its slot ends.
    pub slot_end: u64,
    /// When it is copied in.
    pub arrived: u64,
    /// When the receiver starts.
    pub needed: u32,
}

/// The table of messages, each with each of its receivers.
pub fn deliveries(alloc: Global, instance: &Instance, plan: &Plan) -> Result<Vec<u8>, MemoryFault>
    requires { IsValid instance.now plan.now }
    ensures { IfOk result (λ text. text.items ≡ deliveries_text instance.now plan.now) }
{
    let count = instance.messages().len();
    let mut sheet = Sheet::new(
        alloc,
        b"message,sender,receiver,bytes,round,channel,node,ready,slot,slot_end,arrived,needed\n",
    )?;
    for m in 0..count {
        put_message(&mut sheet, instance, plan, m)?;
    }
    sheet.into_text()
}

/// Adds the lines of a message.
fn put_message(
    sheet: &mut Sheet,
    instance: &Instance,
    plan: &Plan,
    m: usize,
) -> Result<(), MemoryFault>
    requires valid { IsValid instance.now plan.now }
    requires inside { m < length instance.now.messages }
    requires start { IsLineStart sheet.old }
    ensures { OnOk result (IsSheet sheet.new (text_of sheet.old ++ message_text instance.now plan.now m) []) }
{
    let layout = Layout::of(instance, plan.order.as_slice(), plan.caps.as_slice());
    let receivers = instance.message_at(m).receivers.as_slice();
    for q in receivers {
        let row = delivery_of(instance, plan, &layout, m, *q as usize);
        put_delivery(sheet, instance, &row)?;
    }
    Ok(())
}

/// Message `m` on its way to process `q`.
fn delivery_of(instance: &Instance, plan: &Plan, layout: &Layout, m: usize, q: usize) -> Delivery
    requires valid { IsValid instance.now plan.now }
    requires layout { layout.now ≡ timing instance.now.cluster plan.now.order plan.now.caps }
    requires inside { m < length instance.now.messages }
    requires receiver { q < length instance.now.processes }
    ensures row { result ≡ delivery_of instance.now plan.now m q }
    ensures there { IsDeliveryRow instance.now result }
{
    let _nodes = instance.nodes();
    let message = instance.message_at(m);
    let node = instance.source_of(m);
    let round = plan.rounds.as_slice()[m];
    let channel = plan.channels.as_slice()[m];
    Delivery {
        message: m as u32,
        sender: message.sender,
        receiver: q as u32,
        bytes: message.bytes,
        round,
        channel,
        node,
        ready: ready_at(instance, plan, m),
        slot: layout.slot_start(node, round),
        slot_end: layout.slot_end(node, round),
        arrived: arrival(instance, plan, layout, m),
        needed: plan.starts.as_slice()[q],
    }
}

/// Adds the line of a message and a receiver.
fn put_delivery(sheet: &mut Sheet, instance: &Instance, row: &Delivery) -> Result<(), MemoryFault>
    requires there { IsDeliveryRow instance.now row.now }
    requires start { IsLineStart sheet.old }
    ensures { OnOk result (IsSheet sheet.new (text_of sheet.old ++ delivery_line instance.now row.now) []) }
{
    let message = instance.message_at(row.message as usize).name.as_bytes();
    let sender = instance.process_at(row.sender as usize).name.as_bytes();
    let receiver = instance.process_at(row.receiver as usize).name.as_bytes();
    let node = instance.nodes()[row.node as usize].name.as_bytes();
    sheet.put(message)?;
    sheet.put(sender)?;
    sheet.put(receiver)?;
    sheet.put_numbers(&[row.bytes as u64, row.round as u64])?;
    put_channel(sheet, row.channel)?;
    sheet.put(node)?;
    sheet.put_numbers(&[
        row.ready,
        row.slot,
        row.slot_end,
        row.arrived,
        row.needed as u64,
    ])?;
    sheet.end_line()?;
    Ok(())
}

/// Adds a cell with a message's channel: 0, 1 or both.
#[tactic(auto, unfolding(crate::specs::Deliveries::channel_word))]
fn put_channel(sheet: &mut Sheet, number: u32) -> Result<(), MemoryFault>
    requires { IsTidy sheet.old }
    ensures { OnOk result (IsSheet sheet.new (text_of sheet.old) (cells_of sheet.old ++ channel_word number ∷ [])) }
{
    if number == BOTH_CHANNELS {
        sheet.put(b"both")
    } else {
        sheet.put_number(number as u64)
    }
}
