//! What does `repeat` say as an object?

ghost use Rattle.std.specs.Prelude.{◌≡◌, ◌+◌, IfSome, MatchResult};
ghost use Rattle.command_streams.specs.declared.limits.TheConstants.{PLAN_LIMIT};
ghost use Rattle.command_streams.specs.Streams.{TakesAtMost};
ghost use Rattle.rates_command.specs.declared.limits.TheConstants.{RATES_LIMIT};
ghost use Rattle.rates_command.specs.Repeats.{IsPlanRepeatAnswer, IsRepeatAnswer};
ghost use Rattle.json_answers.specs.Telling.{IsTelling, IsToldBy, IsUnwritten, IsWhole};
ghost use Rattle.rates_command.specs.ObjectEnds.{IsRatesEndOr, rates_fault_of, rates_in_memory};

use crate::ending::{RatesEnd, RatesFault, rates_status};
use crate::repeat::{repeat_plan_run, repeat_run};
use crate::reporting::report_rates;
use json_answers::{Ended, ObjectFault, REPEAT, Reasons, write_object};
use std::alloc::Global;
use std::io::{Read, Write};

/// The end of a command whose text was written to memory, where a write fails for want of it.
fn rates_in_memory(end: RatesEnd) -> RatesEnd
    ensures { result ≡ rates_in_memory end }
{
    match end {
        RatesEnd::Refused(RatesFault::Unwritten) => RatesEnd::Refused(RatesFault::Memory),
        other => other,
    }
}

/// The fault at which a command ends whose object isn't written as a whole.
fn rates_fault_of(why: ObjectFault) -> RatesFault
    ensures { result ≡ rates_fault_of why }
{
    match why {
        ObjectFault::Memory => RatesFault::Memory,
        ObjectFault::Unwritten => RatesFault::Unwritten,
    }
}

/// The end of such a command: its own where it is refused already, and else for this.
fn rates_end_or(at: RatesEnd, why: ObjectFault) -> RatesEnd
    ensures { IsRatesEndOr why at result }
{
    match at {
        RatesEnd::Refused(first) => RatesEnd::Refused(first),
        RatesEnd::Done => RatesEnd::Refused(rates_fault_of(why)),
    }
}

/// Writes the object of `repeat` at its end.
fn write_at<W: Write>(
    alloc: Global,
    at: &RatesEnd,
    text: &[u8],
    out: &mut W,
) -> Result<(), ObjectFault>
    ensures { MatchResult result
        (λ _. IsWhole (W.contents out.old) (W.contents out.new))
        (IsUnwritten (W.contents out.old) (W.contents out.new)) }
{
    let mut line = Vec::new(alloc);
    if report_rates(at, &mut line).is_err() {
        return Err(ObjectFault::Memory);
    }
    let ended = Ended {
        status: rates_status(at),
        line: line.as_slice(),
    };
    write_object(alloc, &REPEAT, ended, text, &Reasons::unasked(), out)
}

/// Writes the object of `repeat` where it ends so with its text in memory. Where the writer fails a prefix of the object stands, and where
/// memory is refused nothing does; then the end is for that, where it isn't a refusal already.
pub fn tell_repeat<W: Write>(alloc: Global, at: RatesEnd, text: &[u8], out: &mut W) -> RatesEnd
    ensures { IsTelling IsRatesEndOr (rates_in_memory at) (W.contents out.old) (W.contents out.new) result }
{
    let at = rates_in_memory(at);
    match write_at(alloc, &at, text, out) {
        Ok(()) => at,
        Err(why) => rates_end_or(at, why),
    }
}

/// As `repeat_run`, by one object.
pub fn repeat_json<I: Read, W: Write>(alloc: Global, rates: &mut I, out: &mut W) -> RatesEnd
    ensures answer { IfSome (I.remaining rates.old) (λ bytes. IsToldBy rates_in_memory IsRatesEndOr
        (IsRepeatAnswer bytes) (W.contents out.old) (W.contents out.new) result) }
    ensures most { TakesAtMost (RATES_LIMIT + 1) (I.remaining rates.old) (I.remaining rates.new) }
{
    let mut text = Vec::new(alloc);
    let end = repeat_run(alloc, rates, &mut text);
    tell_repeat(alloc, end, text.as_slice(), out)
}

/// As `repeat_plan_run`, by one object.
pub fn repeat_plan_json<I: Read, P: Read, W: Write>(
    alloc: Global,
    rates: &mut I,
    plan: &mut P,
    out: &mut W,
) -> RatesEnd
    ensures answer { IfSome (I.remaining rates.old) (λ bytes. IfSome (P.remaining plan.old) (λ p. IsToldBy rates_in_memory IsRatesEndOr
        (IsPlanRepeatAnswer bytes p) (W.contents out.old) (W.contents out.new) result)) }
    ensures rates { TakesAtMost (RATES_LIMIT + 1) (I.remaining rates.old) (I.remaining rates.new) }
    ensures plan { TakesAtMost (PLAN_LIMIT + 1) (P.remaining plan.old) (P.remaining plan.new) }
{
    let mut text = Vec::new(alloc);
    let end = repeat_plan_run(alloc, rates, plan, &mut text);
    tell_repeat(alloc, end, text.as_slice(), out)
}
