//! What does `age` say as an object?

ghost use Rattle.std.specs.Prelude.{◌≡◌, ◌+◌, IfSome, MatchResult};
ghost use Rattle.command_streams.specs.Streams.{TakesAtMost};
ghost use Rattle.rates_command.specs.declared.limits.TheConstants.{RATES_LIMIT};
ghost use Rattle.question_commands.specs.AgeAnswers.{IsAgeAnswer};
ghost use Rattle.json_answers.specs.Telling.{IsTelling, IsToldBy, IsUnwritten, IsWhole};
ghost use Rattle.question_commands.specs.AgeTelling.{IsAgeEndOr, age_in_memory};

use crate::age_ending::{AgeEnd, age_status};
use crate::age_reporting::report_age;
use crate::ages::age_run;
use crate::limit_texts::Beside;
use json_answers::{AGE, Ended, ObjectFault, Reasons, end_in_memory, end_or, write_object};
use plan_questions::{Asking, Gate};
use std::alloc::Global;
use std::io::{Read, Write};
use std::marker::Sync;
use std::sync::Wait;
use std::thread::Threads;

/// The end of `age` whose text was written to memory, where a write fails for want of it.
fn age_in_memory(end: AgeEnd) -> AgeEnd
    ensures { result ≡ age_in_memory end }
{
    match end {
        AgeEnd::Searched(end) => AgeEnd::Searched(end_in_memory(end)),
        other => other,
    }
}

/// The end of `age` whose object isn't written as a whole: its own where it is refused already, and else for this.
fn age_end_or(at: AgeEnd, why: ObjectFault) -> AgeEnd
    ensures { IsAgeEndOr why at result }
{
    match at {
        AgeEnd::Searched(end) => AgeEnd::Searched(end_or(end, why)),
        other => other,
    }
}

/// Writes the object of `age` at its end.
fn write_at<W: Write>(
    alloc: Global,
    at: &AgeEnd,
    text: &[u8],
    out: &mut W,
) -> Result<(), ObjectFault>
    ensures { MatchResult result
        (λ _. IsWhole (W.contents out.old) (W.contents out.new))
        (IsUnwritten (W.contents out.old) (W.contents out.new)) }
{
    let mut line = Vec::new(alloc);
    if report_age(at, &mut line).is_err() {
        return Err(ObjectFault::Memory);
    }
    let ended = Ended {
        status: age_status(at),
        line: line.as_slice(),
    };
    write_object(alloc, &AGE, ended, text, &Reasons::unasked(), out)
}

/// Writes the object of `age` where it ends so with its text in memory. Where the writer fails a prefix of the object stands, and where
/// memory is refused nothing does; then the end is for that, where it isn't a refusal already.
pub fn tell_age<W: Write>(alloc: Global, at: AgeEnd, text: &[u8], out: &mut W) -> AgeEnd
    ensures { IsTelling IsAgeEndOr (age_in_memory at) (W.contents out.old) (W.contents out.new) result }
{
    let at = age_in_memory(at);
    match write_at(alloc, &at, text, out) {
        Ok(()) => at,
        Err(why) => age_end_or(at, why),
    }
}

/// As `age_run`, whose answer is one object.
pub fn age_json<R: Threads + Wait + Sync, G: Gate + Sync, I: Read, C: Write, S: Write, W: Write>(
    rt: &R,
    asking: &Asking<'_, G>,
    rates: &mut I,
    name: &str,
    beside: Beside,
    certificate: &mut C,
    reduced: &mut S,
    out: &mut W,
) -> AgeEnd
    ensures answer { IfSome (I.remaining rates.old) (λ bytes. IsToldBy age_in_memory IsAgeEndOr
        (IsAgeAnswer bytes name.now beside asking.now.options
        (C.contents certificate.old) (C.contents certificate.new) (S.contents reduced.old) (S.contents reduced.new))
        (W.contents out.old) (W.contents out.new) result) }
    ensures most { TakesAtMost (RATES_LIMIT + 1) (I.remaining rates.old) (I.remaining rates.new) }
{
    let alloc = asking.alloc;
    let mut text = Vec::new(alloc);
    let end = age_run(
        rt,
        asking,
        rates,
        name,
        beside,
        certificate,
        reduced,
        &mut text,
    );
    tell_age(alloc, end, text.as_slice(), out)
}
