//! Asks commands about many texts in one process, and parts of a search what no command shows: cases come one after another on standard
//! input, and each is answered before the next is read. Serves tests alone.
#![tactic(auto)]

ghost use Rattle.std.specs.Prelude.{◌≤◌};
ghost use Rattle.plan_sheets.specs.Limits.{least_width, most_width};

mod events;
mod searching;

use command_streams::{End, report, status, take_input, write_text};
use explain_command::{explain_certificate, explain_instance, explain_plan};
use json_answers::Reasons;
use line_text::{NumberWord, cut, number_word, push_number, push_number_word};
use plan_commands::{
    check_run, compare_run, draw_run, judge_run, period_run, replay_run, schedule_run, tables,
    tables_run, verify, verify_bundle,
};
use plan_sheets::Table;
use plan_sheets::pictures::{LEAST_WIDTH, MOST_WIDTH, Shown};
use searching::{Part, part_of, tell};
use std::alloc::{Alloc, AllocError, Global};
use std::io::{Read, Write};
use std::process::ExitCode;
use std::str::{Utf8Error, from_utf8};
use std::thread::Threads;
use ttp_model::{MOST_TICKS, MemoryFault};

/// The bytes of a header: a command's word and the lengths of its texts, each with a space behind it, and anything up to
/// its end.
const HEADER_LENGTH: u32 = 32;

/// The bytes of a text, at most.
const MOST_BYTES: u32 = 1 << 24;

/// Why it ends before the input does.
#[derive(Drop)]
struct Stopped(&'static str);

impl From<AllocError> for Stopped {
    fn from(_error: AllocError) -> Stopped {
        Stopped("memory was refused")
    }
}

impl From<MemoryFault> for Stopped {
    fn from(_fault: MemoryFault) -> Stopped {
        Stopped("memory was refused")
    }
}

impl From<Utf8Error> for Stopped {
    fn from(_error: Utf8Error) -> Stopped {
        Stopped("words are no UTF-8")
    }
}

/// A command that judges texts.
#[derive(Clone, Copy)]
enum Command {
    Verify,
    Bundle,
    Tables,
    Rounds,
    Period,
    Replay,
    Check,
    Judge,
    Schedule,
    Draw,
    ExplainInstance,
    ExplainPlan,
    ExplainCertificate,
    Compare,
}

/// What a case asks for.
#[derive(Clone, Copy)]
enum Asked {
    Command(Command),
    Part(Part),
}

/// What a case asks for, and the lengths of its texts. The second text of a bundle, or of an instance that is explained alone, isn't looked at.
#[derive(Clone, Copy)]
struct Header {
    asked: Asked,
    first: u32,
    second: u32,
    third: u32,
    fourth: u32,
}

/// What a case asks for, and its texts. The third is a certificate, words, or an instance with whose plan, the fourth, the first two are
/// compared.
#[derive(Drop)]
struct Case {
    asked: Asked,
    first: Vec<u8>,
    second: Vec<u8>,
    third: Vec<u8>,
    fourth: Vec<u8>,
}

fn command_of(word: &[u8]) -> Option<Command> {
    match word {
        b"verify" => Some(Command::Verify),
        b"bundle" => Some(Command::Bundle),
        b"tables" => Some(Command::Tables),
        b"rounds" => Some(Command::Rounds),
        b"period" => Some(Command::Period),
        b"replay" => Some(Command::Replay),
        b"check" => Some(Command::Check),
        b"judge" => Some(Command::Judge),
        b"schedule" => Some(Command::Schedule),
        b"draw" => Some(Command::Draw),
        b"explain-alone" => Some(Command::ExplainInstance),
        b"explain-plan" => Some(Command::ExplainPlan),
        b"explain-cert" => Some(Command::ExplainCertificate),
        b"compare" => Some(Command::Compare),
        _ => None,
    }
}

fn length_of(word: &[u8]) -> Option<u32> {
    match number_word(word) {
        NumberWord::Number(length) if length <= MOST_BYTES => Some(length),
        _ => None,
    }
}

/// What a header's word asks for.
fn asked_by(word: &[u8]) -> Option<Asked> {
    match command_of(word) {
        Some(command) => Some(Asked::Command(command)),
        None => Some(Asked::Part(part_of(word)?)),
    }
}

/// How many texts a case has, or words in a text's place.
fn texts_of(asked: Asked) -> u32 {
    match asked {
        Asked::Command(
            Command::Rounds
            | Command::Period
            | Command::Replay
            | Command::Judge
            | Command::Schedule
            | Command::Draw,
        )
        | Asked::Part(Part::Without | Part::Hands) => 3,
        Asked::Command(Command::Compare) => 4,
        _ => 2,
    }
}

/// The next length of a header, and what stands behind it: 0 where there is no such text.
fn next_length(is_there: bool, rest: &[u8]) -> Option<(u32, &[u8])> {
    if !is_there {
        return Some((0, rest));
    }
    let (length, rest) = cut(b' ', rest)?;
    Some((length_of(length)?, rest))
}

fn header_of(bytes: &[u8]) -> Option<Header> {
    let (command, rest) = cut(b' ', bytes)?;
    let (first, rest) = cut(b' ', rest)?;
    let (second, rest) = cut(b' ', rest)?;
    let asked = asked_by(command)?;
    let (third, rest) = next_length(texts_of(asked) > 2, rest)?;
    let (fourth, _) = next_length(texts_of(asked) > 3, rest)?;
    Some(Header {
        asked,
        first: length_of(first)?,
        second: length_of(second)?,
        third,
        fourth,
    })
}

/// So many of the next bytes, or fewer where the input ends or fails before.
fn next_bytes<R: Read>(alloc: Global, input: &mut R, length: u32) -> Result<Vec<u8>, AllocError> {
    if length == 0 {
        return Ok(Vec::new(alloc));
    }
    // What is taken is one byte more than the limit that is named.
    let taken = take_input(alloc, input, length as usize - 1)?;
    Ok(taken.bytes)
}

/// The next text, which is of so many bytes.
fn next_text<R: Read>(alloc: Global, input: &mut R, length: u32) -> Result<Vec<u8>, Stopped> {
    let text = next_bytes(alloc, input, length)?;
    if text.len() != length as usize {
        return Err(Stopped("a text breaks off"));
    }
    Ok(text)
}

/// The next case, or none where the input has ended.
fn next_case<R: Read>(alloc: Global, input: &mut R) -> Result<Option<Case>, Stopped> {
    let header = next_bytes(alloc, input, HEADER_LENGTH)?;
    if header.is_empty() {
        return Ok(None);
    }
    let Some(header) = header_of(header.as_slice()) else {
        return Err(Stopped("a header is malformed"));
    };
    Ok(Some(Case {
        asked: header.asked,
        first: next_text(alloc, input, header.first)?,
        second: next_text(alloc, input, header.second)?,
        third: next_text(alloc, input, header.third)?,
        fourth: next_text(alloc, input, header.fourth)?,
    }))
}

/// The words of a text, behind each of which is a byte 0.
fn words_in<'a>(alloc: Global, text: &'a str) -> Result<Vec<&'a str>, AllocError> {
    let mut words = Vec::new(alloc);
    for word in text.split_terminator('\0') {
        words.push(word)?;
    }
    Ok(words)
}

/// The table that words name; that of processes where they name none.
fn table_of(words: &[&str]) -> Table {
    match words {
        ["slots"] => Table::Slots,
        ["messages"] => Table::Messages,
        _ => Table::Processes,
    }
}

/// The width that the first word names, brought into its range; 1,200 where it names none.
fn width_of(words: &[&str]) -> u32
    ensures { (least_width ≤ result) × (result ≤ most_width) }
{
    let Some(word) = words.first() else {
        return 1_200;
    };
    match number_word(word.as_bytes()) {
        NumberWord::Number(width) => width.clamp(LEAST_WIDTH, MOST_WIDTH),
        _ => 1_200,
    }
}

/// Whether the second word says that only slots in use are shown.
fn shown_of(words: &[&str]) -> Shown {
    match words {
        [_, "used"] => Shown::Used,
        _ => Shown::All,
    }
}

/// The number that the first word names; 1 where it names none.
fn number_in(words: &[&str]) -> u32 {
    let Some(word) = words.first() else {
        return 1;
    };
    match number_word(word.as_bytes()) {
        NumberWord::Number(number) => number,
        _ => 1,
    }
}

/// What is told of the rounds of a case's plan in the period that the first word names, brought into its range.
fn period_of<W: Write>(alloc: Global, case: &Case, words: &[&str], out: &mut W) -> End {
    let period = number_in(words).clamp(1, MOST_TICKS);
    let (mut first, mut second) = (case.first.as_slice(), case.second.as_slice());
    period_run(alloc, &mut first, &mut second, u64::from(period), out)
}

/// The tables of a case's plan in as many rounds as the first word names.
fn rounds_of<W: Write>(alloc: Global, case: &Case, words: &[&str], out: &mut W) -> End {
    let (mut first, mut second) = (case.first.as_slice(), case.second.as_slice());
    tables_run(alloc, &mut first, &mut second, number_in(words), out)
}

/// How the comparison of a case's two instances with their plans ends.
fn compared_of<W: Write>(alloc: Global, case: &Case, out: &mut W) -> End {
    compare_run(
        alloc,
        &mut case.first.as_slice(),
        &mut case.second.as_slice(),
        &mut case.third.as_slice(),
        &mut case.fourth.as_slice(),
        out,
    )
}

/// How a command ends on its texts.
fn end_of<W: Write>(
    rt: &(impl Threads + Sync),
    alloc: Global,
    command: Command,
    case: &Case,
    words: &[&str],
    out: &mut W,
) -> End {
    let (mut first, mut second) = (case.first.as_slice(), case.second.as_slice());
    match command {
        Command::Verify => verify(alloc, &mut first, &mut second, out),
        Command::Bundle => verify_bundle(alloc, &mut first, out),
        Command::Tables => tables(alloc, &mut first, &mut second, out),
        Command::Rounds => rounds_of(alloc, case, words, out),
        Command::Period => period_of(alloc, case, words, out),
        Command::Replay => replay_run(alloc, &mut first, &mut second, words, out),
        Command::Check => check_run(rt, alloc, false, &mut first, &mut second, out),
        Command::Judge => {
            let mut third = case.third.as_slice();
            judge_run(rt, alloc, false, &mut first, &mut second, &mut third, out)
        }
        Command::Schedule => { schedule_run(alloc, &mut first, &mut second, table_of(words), out) }
        Command::Draw => draw_run(
            alloc,
            &mut first,
            &mut second,
            width_of(words),
            shown_of(words),
            out,
        ),
        Command::ExplainInstance => {
            explain_instance(alloc, &mut first, &mut Reasons::unasked(), out)
        }
        Command::ExplainPlan => explain_plan(
            alloc,
            &mut first,
            &mut second,
            &mut Reasons::unasked(),
            out,
        ),
        Command::ExplainCertificate => explain_certificate(
            rt,
            alloc,
            &mut first,
            &mut second,
            &mut Reasons::unasked(),
            out,
        ),
        Command::Compare => compared_of(alloc, case, out),
    }
}

/// A status, the lengths of what is written on standard output and on standard error, and both.
fn framed(alloc: Global, status: u8, out: &[u8], error: &[u8]) -> Result<Vec<u8>, AllocError> {
    let mut answer = Vec::new(alloc);
    push_number(&mut answer, u64::from(status))?;
    push_number_word(&mut answer, out.len() as u64)?;
    push_number_word(&mut answer, error.len() as u64)?;
    answer.push(b'\n')?;
    answer.extend_from_slice(out)?;
    answer.extend_from_slice(error)?;
    Ok(answer)
}

/// What a command answers.
fn answer_of(
    rt: &(impl Threads + Sync),
    alloc: Global,
    command: Command,
    case: &Case,
    words: &[&str],
) -> Result<Vec<u8>, AllocError> {
    let (mut out, mut error) = (Vec::new(alloc), Vec::new(alloc));
    let end = end_of(rt, alloc, command, case, words, &mut out);
    let _ = report(&end, &mut error);
    framed(alloc, status(&end), out.as_slice(), error.as_slice())
}

/// The words of a case.
fn words_of<'a>(alloc: Global, case: &'a Case) -> Result<Vec<&'a str>, Stopped> {
    match case.asked {
        Asked::Command(
            Command::Rounds | Command::Period | Command::Replay | Command::Schedule | Command::Draw,
        )
        | Asked::Part(Part::Without | Part::Hands) => {
            Ok(words_in(alloc, from_utf8(case.third.as_slice())?)?)
        }
        _ => Ok(Vec::new(alloc)),
    }
}

/// The answer to a case.
fn answer_to(rt: &(impl Threads + Sync), alloc: Global, case: &Case) -> Result<Vec<u8>, Stopped> {
    let words = words_of(alloc, case)?;
    match case.asked {
        Asked::Command(command) => Ok(answer_of(rt, alloc, command, case, words.as_slice())?),
        Asked::Part(part) => {
            let mut text = Vec::new(alloc);
            tell(alloc, part, case, words.as_slice(), &mut text)?;
            Ok(framed(alloc, 0, text.as_slice(), b"")?)
        }
    }
}

/// Answers all cases of the input.
fn answer_all<R: Read, W: Write>(
    rt: &(impl Alloc<A = Global> + Threads + Sync),
    input: &mut R,
    out: &mut W,
) -> Result<(), Stopped> {
    for _ in 0..u64::MAX {
        let Some(case) = next_case(rt.alloc(), input)? else {
            return Ok(());
        };
        let answer = answer_to(rt, rt.alloc(), &case)?;
        if write_text(out, answer.as_slice()).is_err() {
            return Err(Stopped("an answer can't be written"));
        }
    }
    Ok(())
}

fn main(rt: HostRuntime) -> ExitCode {
    match answer_all(&rt, &mut rt.stdin(), &mut rt.stdout()) {
        Ok(()) => ExitCode::from(0),
        Err(Stopped(why)) => {
            let _ = rt.eprintln(why);
            ExitCode::from(2)
        }
    }
}
