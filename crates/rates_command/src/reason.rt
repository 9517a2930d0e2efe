//! Why do bytes state no cluster of several rates?

ghost use Rattle.std.specs.Prelude.{◌≢◌, IfOk};
ghost use Rattle.rates_text.specs.Faults.{IsFirstRatesFault};
ghost use Rattle.rates_text.specs.declared.error.RatesTextError.TheVariants.{OutOfMemory};
ghost use Rattle.rates_command.specs.Reasons.{HasFault, IsReadAgain, IsReasonIn};

use crate::rules::{RatesRuleReason, rates_rule_reason};
use crate::texts::rates_text_reason;
use instance_reasons::{NotToml, TextReason, not_toml};
use instance_text::{TextError, document};
use rates_model::RatesParts;
use rates_text::{RatesTextError, stated_parts};
use std::alloc::Global;
use std::fmt;
use std::fmt::Display;
use toml::Table;
use ttp_model::MemoryFault;

/// What a refused text is once more, as far as a fault asks for it.
#[derive(Drop)]
pub enum RatesAgain {
    /// Of bytes that are no TOML: what the reader of TOML says.
    NotToml(NotToml),
    /// Of a fault of its tables: the top one.
    Table(Table),
    /// Of a rule that is broken: the parts that are stated.
    Parts(RatesParts),
}

/// Why bytes state no cluster of several rates.
#[derive(Drop)]
pub enum RatesReason<'a> {
    NotToml(&'a NotToml),
    Text(TextReason<'a>),
    Rule(RatesRuleReason<'a>),
}

/// Reads a text once more that has this fault first, and its tables too where a rule is broken.
pub fn reread_rates(
    alloc: Global,
    bytes: &[u8],
    fault: RatesTextError,
) -> Result<RatesAgain, MemoryFault>
    requires first { IsFirstRatesFault bytes.now fault }
    requires other { fault ≢ OutOfMemory }
    ensures { IfOk result (IsReadAgain bytes.now fault) }
{
    let table = match document(alloc, bytes) {
        Ok(table) => table,
        Err(TextError::NotToml) => return Ok(RatesAgain::NotToml(not_toml(alloc, bytes)?)),
        Err(_) => return Err(MemoryFault),
    };
    match fault {
        RatesTextError::Refused(_) => match stated_parts(alloc, &table) {
            Ok(parts) => Ok(RatesAgain::Parts(parts)),
            Err(_) => Err(MemoryFault),
        },
        _ => Ok(RatesAgain::Table(table)),
    }
}

/// Why a text is refused that was read again. Takes memory as `rates_text_reason` and `rates_rule_reason` do.
pub fn rates_reason_of<'a>(
    alloc: Global,
    again: &'a RatesAgain,
    fault: RatesTextError,
) -> Result<RatesReason<'a>, MemoryFault>
    requires { HasFault again.now fault }
    ensures { IfOk result (IsReasonIn again.now fault) }
{
    match again {
        RatesAgain::NotToml(said) => Ok(RatesReason::NotToml(said)),
        RatesAgain::Table(table) => Ok(RatesReason::Text(rates_text_reason(alloc, table, fault)?)),
        RatesAgain::Parts(parts) => match fault {
            RatesTextError::Refused(error) => {
                Ok(RatesReason::Rule(rates_rule_reason(alloc, parts, error)?))
            }
            RatesTextError::NotToml
            | RatesTextError::UnknownKey { .. }
            | RatesTextError::MissingKey { .. }
            | RatesTextError::WrongKind { .. }
            | RatesTextError::OutOfRange { .. }
            | RatesTextError::UnknownName { .. }
            | RatesTextError::OutOfMemory => unreachable!(),
        },
    }
}

impl<'a> fmt::Display for RatesReason<'a> {
    fn fmt<W: fmt::Write>(&self, f: &mut fmt::Formatter<W>) -> fmt::Result {
        match self {
            RatesReason::NotToml(reason) => reason.fmt(f),
            RatesReason::Text(reason) => reason.fmt(f),
            RatesReason::Rule(reason) => reason.fmt(f),
        }
    }
}
