//! What stands in the object, and how is it written?

ghost use Rattle.std.specs.Prelude.{◌≡◌, IfOk, MatchResult, string_bytes};
ghost use Rattle.sentences.specs.Shown.{IsShown};
ghost use Rattle.json_answers.specs.declared.answers.ObjectFault.TheVariants.{Memory};
ghost use Rattle.json_answers.specs.Telling.{IsEndOr, IsTelling, IsUnwritten, IsWhole, end_in_memory, fault_of};

use crate::commands::CommandLines;
use crate::members::{Members, Reasons};
use crate::places::push_place;
use crate::rows::{LineRow, row_of};
use crate::words::{first_word, push_words};
use command_streams::{End, Fault, Sink, report, status, write_text};
use sentences::put;
use std::alloc::{AllocError, Global};
use std::io::Write;
use std::str::from_utf8;

/// How a command ends.
#[derive(Clone, Copy)]
pub struct Ended<'a> {
    /// The exit status.
    pub status: u8,
    /// The line of a refusal, as it is written on standard error; empty at any other end.
    pub line: &'a [u8],
}

/// Why an object isn't written as a whole.
#[derive(Clone, Copy)]
pub enum ObjectFault {
    /// When memory was refused: nothing is written.
    Memory,
    /// When the writer failed: a prefix is.
    Unwritten,
}

/// What stands before the line of a fault of one of two releases.
const RELEASES: [&str; 2] = ["old", "new"];

/// Adds why a command was refused, by the line of that.
fn push_refusal(alloc: Global, members: &mut Members, line: &str) -> Result<(), AllocError> {
    let line = line.strip_suffix('\n').unwrap_or(line);
    let (first, rest) = first_word(line);
    let mut fault = line;
    if RELEASES.contains(&first) {
        members.push(alloc, "release", &first)?;
        fault = rest;
    }
    push_place(alloc, members, fault)?;
    Ok(())
}

/// Adds what the first line tells: a fault that is explained, or what it answers by its first word.
fn push_answer(
    alloc: Global,
    members: &mut Members,
    command: &CommandLines,
    line: &str,
) -> Result<(), AllocError> {
    if push_place(alloc, members, line)? {
        return Ok(());
    }
    match row_of(command.answers, line) {
        Some((row, words)) => {
            members.push(alloc, "answer", &row.begins)?;
            push_words(alloc, members, row.keys, words, command.nothing)
        }
        None => Ok(()),
    }
}

/// The members of an item: which kind it is, and its words.
fn item_of(alloc: Global, row: LineRow, words: &str, nothing: &str) -> Result<Members, AllocError> {
    let mut item = Members::new(alloc);
    match row.begins.split_once(' ') {
        Some((mark, kind)) => {
            item.push(alloc, "is", &mark)?;
            item.push(alloc, "kind", &kind)?;
        }
        None => item.push(alloc, "kind", &row.begins)?,
    }
    push_words(alloc, &mut item, row.keys, words, nothing)?;
    Ok(item)
}

/// Adds an item to a list.
fn push_item(alloc: Global, list: &mut String, item: &Members) -> Result<(), AllocError> {
    let json = item.object(alloc)?;
    if !list.is_empty() {
        list.push_str(",")?;
    }
    list.push_str(json.as_str())
}

/// The items of lines, with commas between them.
fn items_of(
    alloc: Global,
    rows: &[LineRow],
    lines: &str,
    nothing: &str,
) -> Result<String, AllocError> {
    let mut list = String::new(alloc);
    for line in lines.split('\n') {
        if let Some((row, words)) = row_of(rows, line) {
            let item = item_of(alloc, row, words, nothing)?;
            push_item(alloc, &mut list, &item)?;
        }
    }
    Ok(list)
}

/// Adds the items of lines.
fn push_items(
    alloc: Global,
    members: &mut Members,
    command: &CommandLines,
    lines: &str,
) -> Result<(), AllocError> {
    let items = items_of(alloc, command.items, lines, command.nothing)?;
    let list = format!(in alloc; "[{items}]")?;
    members.push_written(command.list, list.as_str())?;
    let late = items_of(alloc, command.late, lines, command.nothing)?;
    if late.is_empty() {
        return Ok(());
    }
    members.push_written("late", late.as_str())
}

/// Adds the words of lines that are members by themselves.
fn push_values(
    alloc: Global,
    members: &mut Members,
    command: &CommandLines,
    lines: &str,
) -> Result<(), AllocError> {
    for line in lines.split('\n') {
        if let Some((row, words)) = row_of(command.values, line) {
            push_words(alloc, members, row.keys, words, command.nothing)?;
        }
    }
    Ok(())
}

/// Adds what the lines of a text say.
fn push_lines(
    alloc: Global,
    members: &mut Members,
    command: &CommandLines,
    text: &str,
) -> Result<(), AllocError> {
    let body = text.strip_prefix(command.head).unwrap_or(text);
    let mut lines = body;
    if !command.answers.is_empty() {
        let (first, rest) = body.split_once('\n').unwrap_or((body, ""));
        push_answer(alloc, members, command, first)?;
        lines = rest;
    }
    if lines.starts_with("ttplan ") {
        members.push(alloc, "plan", &lines)?;
    }
    if command.items.is_empty() {
        return Ok(());
    }
    push_values(alloc, members, command, lines)?;
    push_items(alloc, members, command, lines)
}

/// Adds what the lines of a text say, and the reasons behind them.
fn push_told(
    alloc: Global,
    members: &mut Members,
    command: &CommandLines,
    text: &str,
    reasons: &Reasons,
) -> Result<(), AllocError> {
    push_lines(alloc, members, command, text)?;
    reasons.add_to(members)
}

/// The members of a whole answer. The text is the one that stands on standard output without this form, or on standard error where there is
/// none there.
fn members_of(
    alloc: Global,
    command: &CommandLines,
    ended: Ended<'_>,
    text: &str,
    reasons: &Reasons,
) -> Result<Members, AllocError> {
    let line = from_utf8(ended.line).unwrap_or("");
    let mut members = Members::new(alloc);
    members.push(alloc, "command", &command.name)?;
    members.push(alloc, "status", &ended.status)?;
    push_refusal(alloc, &mut members, line)?;
    if text.is_empty() {
        members.push(alloc, "text", &line)?;
        return Ok(members);
    }
    push_told(alloc, &mut members, command, text, reasons)?;
    members.push(alloc, "text", &text)?;
    Ok(members)
}

/// The object of an answer, and the end of its line.
fn object_of(
    alloc: Global,
    command: &CommandLines,
    ended: Ended<'_>,
    text: &[u8],
    reasons: &Reasons,
) -> Result<String, AllocError>
    ensures { IfOk result (λ json. IsShown (string_bytes json)) }
{
    let text = from_utf8(text).unwrap_or("");
    let members = members_of(alloc, command, ended, text, reasons)?;
    let object = members.object(alloc)?;
    let mut shown = String::new(alloc);
    put(alloc, &mut shown, &object)?;
    shown.push_str("\n")?;
    Ok(shown)
}

/// Writes the object of a command that ended so, and whose text was written to memory. Where the writer fails a prefix of the object stands,
/// and where memory is refused nothing does.
pub fn write_object<W: Write>(
    alloc: Global,
    command: &CommandLines,
    ended: Ended<'_>,
    text: &[u8],
    reasons: &Reasons,
    out: &mut W,
) -> Result<(), ObjectFault>
    ensures { MatchResult result
        (λ _. IsWhole (W.contents out.old) (W.contents out.new))
        (IsUnwritten (W.contents out.old) (W.contents out.new)) }
{
    match object_of(alloc, command, ended, text, reasons) {
        Ok(json) => match write_text(out, json.as_bytes()) {
            Ok(()) => Ok(()),
            Err(_) => Err(ObjectFault::Unwritten),
        },
        Err(_) => Err(ObjectFault::Memory),
    }
}

/// The fault at which a command ends then.
fn fault_of(why: ObjectFault) -> Fault
    ensures { result ≡ fault_of why }
{
    match why {
        ObjectFault::Memory => Fault::Memory,
        ObjectFault::Unwritten => Fault::Unwritten(Sink::Out),
    }
}

/// The end of a command whose object isn't written as a whole: its own where it is refused already, and else for this.
pub fn end_or(at: End, why: ObjectFault) -> End
    ensures { IsEndOr why at result }
{
    match at {
        End::Refused(first) => End::Refused(first),
        End::RefusedOf(release, first) => End::RefusedOf(release, first),
        End::Done | End::Different | End::Absent | End::Stopped => End::Refused(fault_of(why)),
    }
}

/// The end of a command whose text was written to memory, where a write fails for want of it.
pub fn end_in_memory(end: End) -> End
    ensures { result ≡ end_in_memory end }
{
    match end {
        End::Refused(Fault::Unwritten(Sink::Out)) => End::Refused(Fault::Memory),
        other => other,
    }
}

/// The end of a command of which nothing is told for want of memory, and which would end so with its text.
pub fn untold(at: End) -> End
    ensures { IsEndOr Memory (end_in_memory at) result }
{
    end_or(end_in_memory(at), ObjectFault::Memory)
}

/// Writes the object of a command at its end.
fn write_at<W: Write>(
    alloc: Global,
    command: &CommandLines,
    at: &End,
    text: &[u8],
    reasons: &Reasons,
    out: &mut W,
) -> Result<(), ObjectFault>
    ensures { MatchResult result
        (λ _. IsWhole (W.contents out.old) (W.contents out.new))
        (IsUnwritten (W.contents out.old) (W.contents out.new)) }
{
    let mut line = Vec::new(alloc);
    if report(at, &mut line).is_err() {
        return Err(ObjectFault::Memory);
    }
    let ended = Ended {
        status: status(at),
        line: line.as_slice(),
    };
    write_object(alloc, command, ended, text, reasons, out)
}

/// Writes the object of a command that ends so where its text is written to memory. Where the writer fails a prefix of the object stands,
/// and where memory is refused nothing does; then the end is for that, where it isn't a refusal already.
pub fn tell<W: Write>(
    alloc: Global,
    command: &CommandLines,
    at: End,
    text: &[u8],
    reasons: &Reasons,
    out: &mut W,
) -> End
    ensures { IsTelling IsEndOr (end_in_memory at) (W.contents out.old) (W.contents out.new) result }
{
    let at = end_in_memory(at);
    match write_at(alloc, command, &at, text, reasons, out) {
        Ok(()) => at,
        Err(why) => end_or(at, why),
    }
}
