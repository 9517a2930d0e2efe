//! Which cluster of several rates do the bytes of a reader state?

ghost use Rattle.std.specs.Prelude.{◌≡◌, ◌+◌, ◌≤◌, IfErr, IfOk, IfSome, MatchResult, length};
ghost use Rattle.command_streams.specs.Streams.{TakesAtMost};
ghost use Rattle.rates_command.specs.declared.limits.TheConstants.{RATES_LIMIT};
ghost use Rattle.rates_command.specs.Answers.{AreRefusedFor, HasRates, IsOfBytes};

use crate::ending::RatesFault;
use crate::limits::RATES_LIMIT;
use command_streams::{Stop, take_input};
use rates_model::Rates;
use std::alloc::Global;
use std::io::Read;

/// All bytes of a reader, which are within their limit.
fn read_bytes<R: Read>(alloc: Global, reader: &mut R) -> Result<Vec<u8>, RatesFault>
    ensures judged { IfSome (R.remaining reader.old) (λ bytes. MatchResult result
        (λ read. read.items ≡ bytes)
        (AreRefusedFor bytes)) }
    ensures alone { IfErr result IsOfBytes }
    ensures within { IfOk result (λ read. length read.items ≤ RATES_LIMIT) }
    ensures most { TakesAtMost (RATES_LIMIT + 1) (R.remaining reader.old) (R.remaining reader.new) }
{
    match take_input(alloc, reader, RATES_LIMIT) {
        Err(_) => Err(RatesFault::Memory),
        Ok(taken) => match taken.stop {
            Stop::AtEnd => Ok(taken.bytes),
            Stop::OverLimit => Err(RatesFault::TooLong),
            Stop::Failed => Err(RatesFault::Unread),
        },
    }
}

/// The cluster that bytes state.
fn rates_of_text(alloc: Global, bytes: &[u8]) -> Result<Rates, RatesFault>
    requires { length bytes.now ≤ RATES_LIMIT }
    ensures judged { MatchResult result (HasRates bytes.now) (AreRefusedFor bytes.now) }
    ensures alone { IfErr result IsOfBytes }
{
    match rates_text::read(alloc, bytes) {
        Ok(rates) => Ok(rates),
        Err(error) => Err(RatesFault::Text(error)),
    }
}

/// The cluster that a reader's bytes state.
pub fn read_rates<R: Read>(alloc: Global, reader: &mut R) -> Result<Rates, RatesFault>
    ensures judged { IfSome (R.remaining reader.old) (λ bytes. MatchResult result
        (HasRates bytes)
        (AreRefusedFor bytes)) }
    ensures alone { IfErr result IsOfBytes }
    ensures most { TakesAtMost (RATES_LIMIT + 1) (R.remaining reader.old) (R.remaining reader.new) }
{
    let bytes = read_bytes(alloc, reader)?;
    rates_of_text(alloc, bytes.as_slice())
}
