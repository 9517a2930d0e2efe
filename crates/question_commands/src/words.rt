//! In which words is it told why an instance has no plan?

ghost use Rattle.std.specs.Prelude.{◌≡◌, ◌<◌, ◌++◌, All, IfOk, OnOk, codes, decimal, length};
ghost use Rattle.std.specs.List.{flat_map};
ghost use Rattle.question_commands.specs.Words.{IsOf, both_words, constraint_words, deadline_words, horizon_words, late_line, late_words, link_words, maybe_line, message_words, need_line, others_text, plan_text, release_words};

use instance_variants::Constraint;
use line_text::push_number;
use plan_questions::{Lateness, Need};
use std::alloc::{AllocError, Global};
use ttp_model::Instance;

fn push_horizon(text: &mut Vec<u8>, instance: &Instance) -> Result<(), AllocError>
    ensures { OnOk result (text.new.items ≡ text.old.items ++ horizon_words instance.now) }
{
    text.extend_from_slice(b"horizon ")?;
    push_number(text, u64::from(instance.cluster().horizon))
}

/// Adds a keyword, the name of a process and a number of ticks.
fn push_ticks(text: &mut Vec<u8>, keyword: &[u8], name: &str, ticks: u32) -> Result<(), AllocError>
    ensures { OnOk result (text.new.items ≡ text.old.items ++ (keyword.now ++ (name.now ++ (codes " " ++ decimal ticks)))) }
{
    text.extend_from_slice(keyword)?;
    text.extend_from_slice(name.as_bytes())?;
    text.extend_from_slice(b" ")?;
    push_number(text, u64::from(ticks))
}

fn push_deadline(text: &mut Vec<u8>, instance: &Instance, p: usize) -> Result<(), AllocError>
    requires { p < length instance.now.processes }
    ensures { OnOk result (text.new.items ≡ text.old.items ++ deadline_words instance.now p) }
{
    let deadline = instance.process_at(p).deadline;
    push_ticks(text, b"deadline ", instance.process_name(p), deadline)
}

fn push_release(text: &mut Vec<u8>, instance: &Instance, p: usize) -> Result<(), AllocError>
    requires { p < length instance.now.processes }
    ensures { OnOk result (text.new.items ≡ text.old.items ++ release_words instance.now p) }
{
    let release = instance.process_at(p).release;
    push_ticks(text, b"release ", instance.process_name(p), release)
}

fn push_link(text: &mut Vec<u8>, instance: &Instance, l: usize) -> Result<(), AllocError>
    requires { l < length instance.now.links }
    ensures { OnOk result (text.new.items ≡ text.old.items ++ link_words instance.now l) }
{
    let link = instance.link_at(l);
    text.extend_from_slice(b"link ")?;
    text.extend_from_slice(instance.process_name(link.before as usize).as_bytes())?;
    text.extend_from_slice(b" ")?;
    text.extend_from_slice(instance.process_name(link.after as usize).as_bytes())
}

fn push_message(text: &mut Vec<u8>, instance: &Instance, m: usize) -> Result<(), AllocError>
    requires { m < length instance.now.messages }
    ensures { OnOk result (text.new.items ≡ text.old.items ++ message_words instance.now m) }
{
    text.extend_from_slice(b"message ")?;
    text.extend_from_slice(instance.message_name(m).as_bytes())
}

fn push_both(text: &mut Vec<u8>, instance: &Instance, m: usize) -> Result<(), AllocError>
    requires { m < length instance.now.messages }
    ensures { OnOk result (text.new.items ≡ text.old.items ++ both_words instance.now m) }
{
    text.extend_from_slice(b"both ")?;
    text.extend_from_slice(instance.message_name(m).as_bytes())
}

/// Adds the words for a constraint.
fn push_constraint(
    text: &mut Vec<u8>,
    instance: &Instance,
    constraint: Constraint,
) -> Result<(), AllocError>
    requires { IsOf instance.now constraint }
    ensures { OnOk result (text.new.items ≡ text.old.items ++ constraint_words instance.now constraint) }
{
    match constraint {
        Constraint::Horizon => push_horizon(text, instance),
        Constraint::Deadline(p) => push_deadline(text, instance, p),
        Constraint::Release(p) => push_release(text, instance, p),
        Constraint::Link(l) => push_link(text, instance, l),
        Constraint::Message(m) => push_message(text, instance, m),
        Constraint::Both(m) => push_both(text, instance, m),
    }
}

/// The line of a constraint that is needed.
pub fn need_line(
    alloc: Global,
    instance: &Instance,
    constraint: Constraint,
) -> Result<Vec<u8>, AllocError>
    requires { IsOf instance.now constraint }
    ensures { IfOk result (λ line. line.items ≡ need_line instance.now constraint) }
{
    let mut line = Vec::from_slice(alloc, b"need ")?;
    push_constraint(&mut line, instance, constraint)?;
    line.push(b'\n')?;
    Ok(line)
}

/// Adds the line of a constraint that isn't known to be needed.
fn push_maybe(text: &mut Vec<u8>, instance: &Instance, need: Need) -> Result<(), AllocError>
    requires { IsOf instance.now need.constraint }
    ensures { OnOk result (text.new.items ≡ text.old.items ++ maybe_line instance.now need) }
{
    if need.is_shown {
        return Ok(());
    }
    text.extend_from_slice(b"maybe ")?;
    push_constraint(text, instance, need.constraint)?;
    text.push(b'\n')?;
    Ok(())
}

/// Adds the lines of those that aren't.
fn push_maybes(text: &mut Vec<u8>, instance: &Instance, needs: &[Need]) -> Result<(), AllocError>
    requires { All (λ need. IsOf instance.now need.constraint) needs.now }
    ensures { OnOk result (text.new.items ≡ text.old.items ++ flat_map (maybe_line instance.now) needs.now) }
{
    for need in needs {
        push_maybe(text, instance, *need)?;
    }
    Ok(())
}

/// The lines of those that aren't; where there are no constraints at all a line that says so.
pub fn others_text(
    alloc: Global,
    instance: &Instance,
    needs: &[Need],
) -> Result<Vec<u8>, AllocError>
    requires { All (λ need. IsOf instance.now need.constraint) needs.now }
    ensures { IfOk result (λ text. text.items ≡ others_text instance.now needs.now) }
{
    if needs.is_empty() {
        return Vec::from_slice(alloc, b"need nothing\n");
    }
    let mut text = Vec::new(alloc);
    push_maybes(&mut text, instance, needs)?;
    Ok(text)
}

/// The text where there is a plan of so many ticks.
pub fn plan_text(alloc: Global, delay: u64) -> Result<Vec<u8>, AllocError>
    ensures { IfOk result (λ text. text.items ≡ plan_text delay) }
{
    let mut text = Vec::from_slice(alloc, b"ttwhy 1\nplan ")?;
    push_number(&mut text, delay)?;
    text.push(b'\n')?;
    Ok(text)
}

/// Adds the numbers of ticks between which the least lateness is, with a space between them.
fn push_between(text: &mut Vec<u8>, low: u32, high: u32) -> Result<(), AllocError>
    ensures { OnOk result (text.new.items ≡ text.old.items ++ (decimal low ++ (codes " " ++ decimal high))) }
{
    push_number(text, u64::from(low))?;
    text.extend_from_slice(b" ")?;
    push_number(text, u64::from(high))
}

/// Adds the number below which it isn't, and that none is known.
fn push_above(text: &mut Vec<u8>, low: u32) -> Result<(), AllocError>
    ensures { OnOk result (text.new.items ≡ text.old.items ++ (decimal low ++ codes " -")) }
{
    push_number(text, u64::from(low))?;
    text.extend_from_slice(b" -")
}

/// Adds how many ticks later all has to end.
fn push_lateness(text: &mut Vec<u8>, lateness: &Lateness) -> Result<(), AllocError>
    ensures { OnOk result (text.new.items ≡ text.old.items ++ late_words lateness.now) }
{
    match lateness {
        Lateness::Least { late, .. } => push_number(text, u64::from(*late)),
        Lateness::Between { low, high, .. } => push_between(text, *low, *high),
        Lateness::Unknown { low } => push_above(text, *low),
        Lateness::Never => text.extend_from_slice(b"-"),
    }
}

/// The line that tells it.
pub fn late_line(alloc: Global, lateness: &Lateness) -> Result<Vec<u8>, AllocError>
    ensures { IfOk result (λ line. line.items ≡ late_line lateness.now) }
{
    let mut line = Vec::from_slice(alloc, b"late ")?;
    push_lateness(&mut line, lateness)?;
    line.push(b'\n')?;
    Ok(line)
}
