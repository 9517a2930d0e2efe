//! Which plan and which delay does a text spell, or what is its first fault?

ghost use Rattle.std.specs.Prelude.{◌≡◌, ◌≢◌, ◌+◌, ◌≤◌, ℕ, IfOk, bytes_eq};
ghost use Rattle.ttp_model.specs.declared.limits.TheConstants.{MOST_MESSAGES, MOST_NODES, MOST_PROCESSES};
ghost use Rattle.ttp_model.specs.Rules.{IsInstance};
ghost use Rattle.plan_format.specs.Channels.{first_line};
ghost use Rattle.plan_format.specs.Spelling.{SpellsPlan};
ghost use Rattle.plan_format.specs.Reading.{IsAnswer, HasFront, head_at, delay_at, part_at, channels_line, channels_at, end_line, plan_at};

use crate::channels::{first_line, has_two_channels};
use crate::column::{Column, part_of};
use crate::fault::{LineFault, PlanTextError};
use crate::line::{line_of, number_in, number_of};
use crate::order::order_of;
use line_text::after_keyword;
use std::alloc::Global;
use ttp_model::{Instance, Numbers, Plan};

/// Whether this is the first line of a text for the instance.
fn is_first_line(instance: &Instance, line: &[u8]) -> bool
    ensures { result ≡ bytes_eq line.now (first_line instance.now) }
{
    line == first_line(instance)
}

#[tactic(auto, unfolding(crate::specs::Reading::head_at))]
fn after_head<'a>(instance: &Instance, text: &'a [u8]) -> Result<&'a [u8], PlanTextError>
    ensures { IsAnswer ⊥ (λ x. x.now) result (head_at instance.now text.now) }
{
    let (first, after) = line_of(1, text)?;
    if !is_first_line(instance, first) {
        return Err(LineFault::Form.at(1));
    }
    Ok(after)
}

#[tactic(auto, unfolding(crate::specs::Reading::delay_at))]
fn delay_of(text: &[u8]) -> Result<(u32, &[u8]), PlanTextError>
    ensures { IsAnswer ⊥ (λ x. (x.0, x.1.now)) result (delay_at text.now) }
{
    let (first, after) = line_of(2, text)?;
    let Some(word) = after_keyword(b"delay ", first) else {
        return Err(LineFault::Form.at(2));
    };
    let delay = number_in(2, word)?;
    Ok((delay, after))
}

/// The numbers of one kind, whose first line has this number, and the text after them.
fn numbers_of<'a>(
    alloc: Global,
    instance: &Instance,
    column: Column,
    line: u32,
    text: &'a [u8],
) -> Result<(Vec<u32>, &'a [u8]), PlanTextError>
    requires { line ≤ 4 + MOST_NODES + MOST_PROCESSES + MOST_MESSAGES }
    ensures { IsAnswer (Unit {0}) (λ x. (x.0.items, x.1.now)) result
        (part_at instance.now column line text.now) }
{
    let part = part_of(column);
    let mut numbers = Vec::new(alloc);
    let mut rest = text;
    for k in 0..instance.name_count(part) {
        let name = instance.name_in(part, k);
        let (number, after) = number_of(line + k as u32, column, name, rest)?;
        numbers.push(number)?;
        rest = after;
    }
    Ok((numbers, rest))
}

/// The number of the line behind the rounds.
fn channels_line(instance: &Instance) -> u32
    ensures value { result ≡ channels_line instance.now }
    ensures bound { result ≤ 4 + MOST_NODES + MOST_PROCESSES + MOST_MESSAGES }
{
    let nodes = instance.nodes().len() as u32;
    let processes = instance.processes().len() as u32;
    let messages = instance.messages().len() as u32;
    4 + nodes + processes + messages
}

/// The messages' channels, and the text after their lines, which are there where there are two channels.
#[tactic(auto, unfolding(crate::specs::Reading::channels_at))]
fn channels_of<'a>(
    alloc: Global,
    instance: &Instance,
    text: &'a [u8],
) -> Result<(Vec<u32>, &'a [u8]), PlanTextError>
    ensures { IsAnswer (Unit {0}) (λ x. (x.0.items, x.1.now)) result (channels_at instance.now text.now) }
{
    if has_two_channels(instance) {
        let line = channels_line(instance);
        return numbers_of(alloc, instance, Column::Channel, line, text);
    }
    let channels = Numbers::zeros(alloc, instance.messages().len())?;
    Ok((channels.into_vec(), text))
}

/// The number of the line after the last one.
fn end_line(instance: &Instance) -> u32
    ensures { result ≡ end_line instance.now }
{
    let line = channels_line(instance);
    if has_two_channels(instance) {
        line + instance.messages().len() as u32
    } else {
        line
    }
}

/// What the lines of a text give, the first fault first.
#[tactic(auto, unfolding(crate::specs::Reading::plan_at, crate::specs::Reading::front_at))]
fn plan_of(alloc: Global, instance: &Instance, text: &[u8]) -> Result<(Plan, u32), PlanTextError>
    ensures exact { IsAnswer (HasFront instance.now text.now) (λ x. x) result (plan_at instance.now text.now) }
    ensures instance { IsInstance instance.now }
{
    let nodes = instance.nodes().len() as u32;
    let processes = instance.processes().len() as u32;
    let rest = after_head(instance, text)?;
    let (delay, rest) = delay_of(rest)?;
    let (order, rest) = order_of(alloc, instance, rest)?;
    let (caps, rest) = numbers_of(alloc, instance, Column::Capacity, 4, rest)?;
    let (starts, rest) = numbers_of(alloc, instance, Column::Start, 4 + nodes, rest)?;
    let (rounds, rest) = numbers_of(alloc, instance, Column::Round, 4 + nodes + processes, rest)?;
    let (channels, rest) = channels_of(alloc, instance, rest)?;
    if !rest.is_empty() {
        return Err(LineFault::Trailing.at(end_line(instance)));
    }
    let plan = Plan {
        order: Numbers::new(order),
        caps: Numbers::new(caps),
        starts: Numbers::new(starts),
        rounds: Numbers::new(rounds),
        channels: Numbers::new(channels),
    };
    Ok((plan, delay))
}

/// The plan that a text spells for the instance, and the delay that it states, in ticks, which is
/// not judged. Lines are judged from the top, each as `LineFault` says. The text may have any
/// length, and the cost is linear in it.
pub fn read(alloc: Global, instance: &Instance, text: &[u8]) -> Result<(Plan, u32), PlanTextError>
    // The plan and its stated delay, or the first fault with its line. Want of memory comes only behind a front
    // that is right.
    ensures exact { IsAnswer (HasFront instance.now text.now) (λ x. x) result (plan_at instance.now text.now) }
    // What is read has a text, and this is it.
    ensures found { IfOk result (λ r. SpellsPlan instance.now text.now r.0 r.1) }
    // A text that spells a plan is read as that plan, unless memory is refused.
    ensures only { (plan : Plan) (delay : ℕ) → SpellsPlan instance.now text.now plan delay →
        result ≢ Err PlanTextError.OutOfMemory → result ≡ Ok (plan, delay) }
{
    plan_of(alloc, instance, text)
}
