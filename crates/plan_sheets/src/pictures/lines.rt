//! How are the lines of messages drawn?

ghost use Rattle.std.specs.Prelude.{◌≡◌, ◌+◌, ◌++◌, ◌<◌, OnOk, Some, length, string_bytes};
ghost use Rattle.ttp_model.specs.Plans.{IsValid};
ghost use Rattle.plan_sheets.specs.Canvas.{IsCanvas};
ghost use Rattle.plan_sheets.specs.DeliveryLines.{IsNear, deliveries_text, delivery_of, delivery_text, delivery_title, line_text, lines_text, sending_of, sending_text, sending_title, sent_bottom};

use crate::pictures::canvas::{Canvas, place_of, row_of, top_of};
use std::alloc::AllocError;
use std::fmt;
use tt_layout::Layout;
use ttp_model::{Instance, Plan, end_of};

/// A line of a message, from a tick to another: up from its sender's row to the channel's, or down from there to a
/// receiver's.
#[derive(Clone, Copy)]
pub struct Line {
    /// Where it begins, in ticks.
    pub from: u64,
    /// How far down it begins, in pixels.
    pub from_height: u64,
    /// Where it ends, in ticks.
    pub to: u64,
    /// How far down it ends, in pixels.
    pub to_height: u64,
}

/// How far down the rectangles end in the row of a message's channel, in pixels; of one on both, in the lower of the two.
fn sent_bottom(instance: &Instance, plan: &Plan, m: usize) -> u64
    requires valid { IsValid instance.now plan.now }
    requires inside { m < length instance.now.messages }
    ensures { result ≡ sent_bottom instance.now plan.now m }
{
    let last = instance.cluster().channels - 1;
    let row = plan.channels.as_slice()[m].min(last);
    top_of(row) + 24
}

/// The line from the end of a message's sender to the start of its slot.
pub fn sending_of(instance: &Instance, plan: &Plan, m: usize) -> Line
    requires valid { IsValid instance.now plan.now }
    requires inside { m < length instance.now.messages }
    ensures { result ≡ sending_of instance.now plan.now m }
{
    let layout = Layout::of(instance, plan.order.as_slice(), plan.caps.as_slice());
    let node = instance.source_of(m);
    Line {
        from: end_of(instance, plan, instance.message_at(m).sender as usize),
        from_height: top_of(row_of(instance, node)),
        to: layout.slot_start(node, plan.rounds.as_slice()[m]),
        to_height: sent_bottom(instance, plan, m),
    }
}

/// The line from the end of a message's slot to the start of its receiver `q`.
pub fn delivery_of(instance: &Instance, plan: &Plan, m: usize, q: usize) -> Line
    requires valid { IsValid instance.now plan.now }
    requires inside { m < length instance.now.messages }
    requires receiver { q < length instance.now.processes }
    ensures { result ≡ delivery_of instance.now plan.now m q }
{
    let layout = Layout::of(instance, plan.order.as_slice(), plan.caps.as_slice());
    let node = instance.source_of(m);
    Line {
        from: layout.slot_end(node, plan.rounds.as_slice()[m]),
        from_height: sent_bottom(instance, plan, m),
        to: plan.starts.as_slice()[q] as u64,
        to_height: top_of(row_of(instance, instance.node_of(q))),
    }
}

/// Adds the beginning of a line, behind which a title may stand.
#[tactic(auto, unfolding(crate::specs::DeliveryLines::line_text))]
pub fn put_line(text: &mut String, canvas: &Canvas, line: &Line) -> Result<(), AllocError>
    requires sound { IsCanvas canvas.now }
    requires near { IsNear line.now }
    ensures { OnOk result (string_bytes text.new ≡ string_bytes text.old ++ line_text canvas.now line.now) }
{
    let (from, to) = (place_of(canvas, line.from), place_of(canvas, line.to));
    let (from_height, to_height) = (line.from_height, line.to_height);
    write!(
        text,
        "<line x1=\"{from}\" y1=\"{from_height}\" x2=\"{to}\" y2=\"{to_height}\">"
    )
}

/// Draws the lines of all messages.
pub fn put_lines(
    text: &mut String,
    canvas: &Canvas,
    instance: &Instance,
    plan: &Plan,
) -> Result<(), AllocError>
    requires sound { IsCanvas canvas.now }
    requires valid { IsValid instance.now plan.now }
    ensures { OnOk result (string_bytes text.new ≡ string_bytes text.old ++ lines_text canvas.now instance.now plan.now) }
{
    let count = instance.messages().len();
    for m in 0..count {
        put_sending(text, canvas, instance, plan, m)?;
        put_deliveries(text, canvas, instance, plan, m)?;
    }
    Ok(())
}

/// Draws the line of a message to its slot.
#[tactic(auto, unfolding(crate::specs::DeliveryLines::sending_text))]
fn put_sending(
    text: &mut String,
    canvas: &Canvas,
    instance: &Instance,
    plan: &Plan,
    m: usize,
) -> Result<(), AllocError>
    requires sound { IsCanvas canvas.now }
    requires valid { IsValid instance.now plan.now }
    requires inside { m < length instance.now.messages }
    ensures { OnOk result (string_bytes text.new ≡ string_bytes text.old ++ sending_text canvas.now instance.now plan.now m) }
{
    let _nodes = instance.nodes();
    let line = sending_of(instance, plan, m);
    let message = instance.message_at(m);
    let (name, sender) = (
        message.name.as_str(),
        instance.process_at(message.sender as usize).name.as_str(),
    );
    put_line(text, canvas, &line)?;
    put_sending_title(text, name, sender, &line)
}

/// Adds the title of a line from a sender.
#[tactic(auto, unfolding(crate::specs::DeliveryLines::sending_title))]
fn put_sending_title(
    text: &mut String,
    name: &str,
    sender: &str,
    line: &Line,
) -> Result<(), AllocError>
    ensures { OnOk result (string_bytes text.new ≡ string_bytes text.old ++ sending_title name.now sender.now line.now) }
{
    let (end, slot) = (line.from, line.to);
    writeln!(
        text,
        "<title>{name}: {sender} ends at {end}, slot at {slot}</title></line>"
    )
}

/// Draws the lines of a message to its receivers.
fn put_deliveries(
    text: &mut String,
    canvas: &Canvas,
    instance: &Instance,
    plan: &Plan,
    m: usize,
) -> Result<(), AllocError>
    requires sound { IsCanvas canvas.now }
    requires valid { IsValid instance.now plan.now }
    requires inside { m < length instance.now.messages }
    ensures { OnOk result (string_bytes text.new ≡ string_bytes text.old ++ deliveries_text canvas.now instance.now plan.now m) }
{
    let receivers = instance.message_at(m).receivers.as_slice();
    for q in receivers {
        put_delivery(text, canvas, instance, plan, m, *q as usize)?;
    }
    Ok(())
}

/// Draws the line of a message to a receiver.
#[tactic(auto, unfolding(crate::specs::DeliveryLines::delivery_text))]
fn put_delivery(
    text: &mut String,
    canvas: &Canvas,
    instance: &Instance,
    plan: &Plan,
    m: usize,
    q: usize,
) -> Result<(), AllocError>
    requires sound { IsCanvas canvas.now }
    requires valid { IsValid instance.now plan.now }
    requires inside { m < length instance.now.messages }
    requires receiver { q < length instance.now.processes }
    ensures { OnOk result (string_bytes text.new ≡ string_bytes text.old ++ delivery_text canvas.now instance.now plan.now m q) }
{
    let _nodes = instance.nodes();
    let line = delivery_of(instance, plan, m, q);
    let name = instance.message_at(m).name.as_str();
    let receiver = instance.process_at(q).name.as_str();
    put_line(text, canvas, &line)?;
    put_delivery_title(text, name, receiver, &line)
}

/// Adds the title of a line to a receiver.
#[tactic(auto, unfolding(crate::specs::DeliveryLines::delivery_title))]
fn put_delivery_title(
    text: &mut String,
    name: &str,
    receiver: &str,
    line: &Line,
) -> Result<(), AllocError>
    ensures { OnOk result (string_bytes text.new ≡ string_bytes text.old ++ delivery_title name.now receiver.now line.now) }
{
    let (slot_end, start) = (line.from, line.to);
    writeln!(
        text,
        "<title>{name}: slot ends at {slot_end}, {receiver} starts at {start}</title></line>"
    )
}
