//! What does `unroll` say of a cluster of several rates?

ghost use Rattle.std.specs.Prelude.{◌+◌, IfSome};
ghost use Rattle.command_streams.specs.Streams.{TakesAtMost};
ghost use Rattle.endless_schedules.specs.Unrolled.{unrolled};
ghost use Rattle.rates_command.specs.declared.limits.TheConstants.{RATES_LIMIT};
ghost use Rattle.rates_command.specs.Answers.{IsOfInstance, IsOfMemory, IsOfUnrolling, IsRatesAnswer, IsUnrollAnswer};

use crate::ending::{RatesEnd, RatesFault};
use crate::reading::read_rates;
use command_streams::write_text;
use endless_schedules::unroll;
use instance_text::print;
use rates_model::Rates;
use std::alloc::Global;
use std::io::{Read, Write};
use ttp_model::Instance;

/// Writes a text that states an instance.
fn write_instance<W: Write>(alloc: Global, instance: &Instance, out: &mut W) -> RatesEnd
    ensures { IsRatesAnswer (IsOfInstance instance.now) IsOfMemory (W.contents out.old) (W.contents out.new) result }
{
    match print(alloc, instance) {
        Err(_) => RatesEnd::Refused(RatesFault::Memory),
        Ok(text) => match write_text(out, text.as_slice()) {
            Ok(()) => RatesEnd::Done,
            Err(_) => RatesEnd::Refused(RatesFault::Unwritten),
        },
    }
}

/// Writes the instance of a cycle of a cluster.
fn write_unrolled<W: Write>(alloc: Global, rates: &Rates, out: &mut W) -> RatesEnd
    ensures { IsRatesAnswer (IsOfInstance (unrolled rates.now)) (IsOfUnrolling rates.now)
        (W.contents out.old) (W.contents out.new) result }
{
    match unroll(alloc, rates) {
        Ok(instance) => write_instance(alloc, &instance, out),
        Err(fault) => RatesEnd::Refused(RatesFault::Unrolled(fault)),
    }
}

/// Reads a cluster of several rates, and writes a text that states the instance of one cycle: it is read back before it is written.
/// Where anything else ends the command nothing is written, and after a failed write a prefix of the text stands.
pub fn unroll_run<I: Read, W: Write>(alloc: Global, rates: &mut I, out: &mut W) -> RatesEnd
    ensures answer { IfSome (I.remaining rates.old) (λ bytes.
        IsUnrollAnswer bytes (W.contents out.old) (W.contents out.new) result) }
    // Of the reader no more is taken than its limit and one byte.
    ensures most { TakesAtMost (RATES_LIMIT + 1) (I.remaining rates.old) (I.remaining rates.new) }
{
    match read_rates(alloc, rates) {
        Ok(read) => write_unrolled(alloc, &read, out),
        Err(fault) => RatesEnd::Refused(fault),
    }
}
