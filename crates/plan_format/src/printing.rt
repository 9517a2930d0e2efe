//! How is a plan written?

ghost use Rattle.std.specs.Prelude.{◌≡◌, ◌++◌, ◌∷◌, [], ◌<◌, length, All, IfOk, OnOk};
ghost use Rattle.ttp_model.specs.Plans.{IsValid};
ghost use Rattle.ttp_model.specs.Delays.{delay};
ghost use Rattle.plan_format.specs.Names.{part_of};
ghost use Rattle.ttp_model.specs.Names.{names_in};
ghost use Rattle.plan_format.specs.Channels.{first_line};
ghost use Rattle.plan_format.specs.Spelling.{value_word, number_line, numbered, channel_lines, delay_line, order_line, SpellsPlan};

use crate::channels::{channel_word, first_line, has_two_channels};
use crate::column::{Column, keyword_of, part_of};
use line_text::push_number;
use std::alloc::{AllocError, Global};
use ttp_model::{Instance, MemoryFault, Plan, delay};

fn push_head(text: &mut Vec<u8>, instance: &Instance, delay: u64) -> Result<(), AllocError>
    ensures { OnOk result (text.new.items ≡
        text.old.items ++ (first_line instance.now ++ 10 ∷ (delay_line delay ++ 10 ∷ []))) }
{
    text.extend_from_slice(first_line(instance))?;
    text.extend_from_slice(b"\ndelay ")?;
    push_number(text, delay)?;
    text.push(b'\n')?;
    Ok(())
}

fn push_order(text: &mut Vec<u8>, instance: &Instance, order: &[u32]) -> Result<(), AllocError>
    requires some { 0 < length order.now }
    requires nodes { All (λ n. n < length instance.now.nodes) order.now }
    ensures { OnOk result (text.new.items ≡
        text.old.items ++ (order_line instance.now order.now ++ 10 ∷ [])) }
{
    text.extend_from_slice(b"order")?;
    for n in order {
        text.push(b' ')?;
        text.extend_from_slice(instance.nodes()[*n as usize].name.as_bytes())?;
    }
    text.push(b'\n')?;
    Ok(())
}

/// Adds the word of a number in a line behind the order.
pub fn push_value(text: &mut Vec<u8>, column: Column, number: u32) -> Result<(), AllocError>
    ensures { OnOk result (text.new.items ≡ text.old.items ++ value_word column number) }
{
    match column {
        Column::Capacity | Column::Start | Column::Round => push_number(text, number as u64),
        Column::Channel => text.extend_from_slice(channel_word(number)),
    }
}

fn push_line(text: &mut Vec<u8>, column: Column, name: &[u8], number: u32) -> Result<(), AllocError>
    ensures { OnOk result (text.new.items ≡
        text.old.items ++ (number_line column name.now number ++ 10 ∷ [])) }
{
    text.extend_from_slice(keyword_of(column))?;
    text.extend_from_slice(name)?;
    text.push(b' ')?;
    push_value(text, column, number)?;
    text.push(b'\n')?;
    Ok(())
}

fn push_lines(
    text: &mut Vec<u8>,
    instance: &Instance,
    column: Column,
    numbers: &[u32],
) -> Result<(), AllocError>
    requires { length numbers.now ≡ length (names_in instance.now (part_of column)) }
    ensures { OnOk result (text.new.items ≡
        text.old.items ++ numbered column (names_in instance.now (part_of column)) numbers.now) }
{
    let part = part_of(column);
    for k in 0..numbers.len() {
        push_line(text, column, instance.name_in(part, k), numbers[k])?;
    }
    Ok(())
}

#[tactic(auto, unfolding(crate::specs::Spelling::channel_lines))]
fn push_channels(
    text: &mut Vec<u8>,
    instance: &Instance,
    channels: &[u32],
) -> Result<(), AllocError>
    requires { length channels.now ≡ length instance.now.messages }
    ensures { OnOk result (text.new.items ≡ text.old.items ++ channel_lines instance.now channels.now) }
{
    if !has_two_channels(instance) {
        return Ok(());
    }
    push_lines(text, instance, Column::Channel, channels)?;
    Ok(())
}

/// Writes the lines of a valid plan, which state its own delay in ticks.
fn push_plan(text: &mut Vec<u8>, instance: &Instance, plan: &Plan) -> Result<(), MemoryFault>
    requires valid { IsValid instance.now plan.now }
    requires empty { text.old.items ≡ [] }
    ensures { OnOk result (SpellsPlan instance.now text.new.items plan.now (delay instance.now plan.now)) }
{
    let _nodes = instance.nodes();
    push_head(text, instance, delay(instance, plan))?;
    push_order(text, instance, plan.order.as_slice())?;
    push_lines(text, instance, Column::Capacity, plan.caps.as_slice())?;
    push_lines(text, instance, Column::Start, plan.starts.as_slice())?;
    push_lines(text, instance, Column::Round, plan.rounds.as_slice())?;
    push_channels(text, instance, plan.channels.as_slice())?;
    Ok(())
}

/// The text of a valid plan, which states the plan's own delay in ticks. Linear in the text.
pub fn print(alloc: Global, instance: &Instance, plan: &Plan) -> Result<Vec<u8>, MemoryFault>
    requires { IsValid instance.now plan.now }
    ensures { IfOk result (λ text.
        SpellsPlan instance.now text.items plan.now (delay instance.now plan.now)) }
{
    let mut text = Vec::new(alloc);
    push_plan(&mut text, instance, plan)?;
    Ok(text)
}
