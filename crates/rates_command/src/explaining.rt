//! What does `explain` say of a cluster of several rates?

ghost use Rattle.std.specs.Prelude.{◌≡◌, ◌≢◌, ◌+◌, ◌≤◌, ◌++◌, IfErr, IfOk, IfSome, OnOk, length, string_bytes};
ghost use Rattle.command_streams.specs.Streams.{TakesAtMost};
ghost use Rattle.rates_text.specs.declared.error.RatesTextError.TheVariants as text;
ghost use Rattle.rates_text.specs.Faults.{IsFirstRatesFault};
ghost use Rattle.endless_schedules.specs.Refusals.{IsUnrollFault};
ghost use Rattle.rates_command.specs.declared.limits.TheConstants.{RATES_LIMIT};
ghost use Rattle.rates_command.specs.declared.ending.RatesFault.TheVariants.{Text};
ghost use Rattle.rates_command.specs.Answers.{IsRatesAnswer};
ghost use Rattle.rates_command.specs.Reasons.{IsReadAgain};
ghost use Rattle.rates_command.specs.Telling.{IsUntold, TellsBehind, TellsBytes, TellsRates, TellsText, TellsUnrolled, line_of};

use crate::ending::{RatesEnd, RatesFault};
use crate::limits::RATES_LIMIT;
use crate::reason::{RatesAgain, RatesReason, rates_reason_of, reread_rates};
use crate::refused::put_refused;
use crate::sizes::sizes_of;
use command_streams::{Stop, take_input, write_text};
use endless_schedules::{UnrollFault, unroll};
use rates_model::Rates;
use rates_text::RatesTextError;
use sentences::put;
use std::alloc::{AllocError, Global};
use std::io::{Read, Write};
use ttp_model::MemoryFault;

/// Adds the line of a fault.
#[tactic(auto, unfolding(crate::specs::Telling::line_of))]
fn put_line(text: &mut String, fault: &RatesFault) -> Result<(), AllocError>
    ensures { OnOk result (string_bytes text.new ≡ string_bytes text.old ++ line_of fault.now) }
{
    writeln!(text, "{fault}")
}

/// The line of a text's fault, and its reason behind.
fn told_behind(
    alloc: Global,
    wrong: RatesTextError,
    reason: &RatesReason<'_>,
) -> Result<String, MemoryFault>
    ensures { IfOk result (λ told. TellsBehind (Text wrong) (string_bytes told)) }
{
    let mut text = String::new(alloc);
    put_line(&mut text, &RatesFault::Text(wrong))?;
    put(alloc, &mut text, reason)?;
    Ok(text)
}

/// What is told of bytes that state no cluster, as they were read again.
fn told_of(
    alloc: Global,
    bytes: &[u8],
    wrong: RatesTextError,
    again: &RatesAgain,
) -> Result<String, MemoryFault>
    requires first { IsFirstRatesFault bytes.now wrong }
    requires again { IsReadAgain bytes.now wrong again.now }
    ensures { IfOk result (λ told. TellsText bytes.now (string_bytes told)) }
{
    let reason = rates_reason_of(alloc, again, wrong)?;
    told_behind(alloc, wrong, &reason)
}

/// What is told of bytes that state no cluster.
fn told_text(alloc: Global, bytes: &[u8], wrong: RatesTextError) -> Result<String, MemoryFault>
    requires first { IsFirstRatesFault bytes.now wrong }
    requires other { wrong ≢ text.OutOfMemory }
    ensures { IfOk result (λ told. TellsText bytes.now (string_bytes told)) }
{
    let again = reread_rates(alloc, bytes, wrong)?;
    let told = told_of(alloc, bytes, wrong, &again);
    drop(again);
    told
}

/// What is told of a cluster whose cycle has no instance.
fn told_unrolled(alloc: Global, rates: &Rates, wrong: UnrollFault) -> Result<String, MemoryFault>
    requires { IsUnrollFault rates.now wrong }
    ensures { IfOk result (λ told. TellsUnrolled rates.now (string_bytes told)) }
{
    let mut text = String::new(alloc);
    let fault = RatesFault::Unrolled(wrong);
    put_line(&mut text, &fault)?;
    put_refused(alloc, &mut text, rates, fault)?;
    Ok(text)
}

/// What is told of a cluster.
fn told_rates(alloc: Global, rates: &Rates) -> Result<String, MemoryFault>
    ensures { IfOk result (λ told. TellsRates rates.now (string_bytes told)) }
{
    match unroll(alloc, rates) {
        Ok(instance) => {
            let sizes = sizes_of(rates, &instance);
            drop(instance);
            let mut text = String::new(alloc);
            put(alloc, &mut text, &sizes)?;
            Ok(text)
        }
        Err(wrong) => told_unrolled(alloc, rates, wrong),
    }
}

/// What is told of bytes.
fn told_bytes(alloc: Global, bytes: &[u8]) -> Result<String, MemoryFault>
    requires { length bytes.now ≤ RATES_LIMIT }
    ensures { IfOk result (λ told. TellsBytes bytes.now (string_bytes told)) }
{
    match rates_text::read(alloc, bytes) {
        Ok(rates) => told_rates(alloc, &rates),
        Err(RatesTextError::OutOfMemory) => Err(MemoryFault),
        Err(wrong) => told_text(alloc, bytes, wrong),
    }
}

/// The same, or want of memory.
fn told_or_memory(alloc: Global, bytes: &[u8]) -> Result<String, RatesFault>
    requires { length bytes.now ≤ RATES_LIMIT }
    ensures ok { IfOk result (λ told. TellsBytes bytes.now (string_bytes told)) }
    ensures err { IfErr result (IsUntold bytes.now) }
{
    match told_bytes(alloc, bytes) {
        Ok(text) => Ok(text),
        Err(_) => Err(RatesFault::Memory),
    }
}

/// What is told of a reader's bytes.
fn told_reader<R: Read>(alloc: Global, reader: &mut R) -> Result<String, RatesFault>
    ensures ok { IfSome (R.remaining reader.old) (λ bytes. IfOk result (λ told. TellsBytes bytes (string_bytes told))) }
    ensures err { IfSome (R.remaining reader.old) (λ bytes. IfErr result (IsUntold bytes)) }
    ensures most { TakesAtMost (RATES_LIMIT + 1) (R.remaining reader.old) (R.remaining reader.new) }
{
    match take_input(alloc, reader, RATES_LIMIT) {
        Err(_) => Err(RatesFault::Memory),
        Ok(taken) => match taken.stop {
            Stop::AtEnd => told_or_memory(alloc, taken.bytes.as_slice()),
            Stop::OverLimit => Err(RatesFault::TooLong),
            Stop::Failed => Err(RatesFault::Unread),
        },
    }
}

/// Tells a cluster of several rates: the line that `unroll_run` refuses it with, and behind it why, in sentences; or of a good one how
/// large it is, and the instance of its cycle. Where anything else ends the command nothing is written, and after a failed write a prefix
/// of the text stands.
pub fn explain_rates<I: Read, W: Write>(alloc: Global, rates: &mut I, out: &mut W) -> RatesEnd
    ensures answer { IfSome (I.remaining rates.old) (λ bytes.
        IsRatesAnswer (TellsBytes bytes) (IsUntold bytes) (W.contents out.old) (W.contents out.new) result) }
    // Of the reader no more is taken than its limit and one byte.
    ensures most { TakesAtMost (RATES_LIMIT + 1) (I.remaining rates.old) (I.remaining rates.new) }
{
    match told_reader(alloc, rates) {
        Ok(text) => match write_text(out, text.as_bytes()) {
            Ok(()) => RatesEnd::Done,
            Err(_) => RatesEnd::Refused(RatesFault::Unwritten),
        },
        Err(fault) => RatesEnd::Refused(fault),
    }
}
