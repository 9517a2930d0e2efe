//! Why do bytes state no instance that can be built?

ghost use Rattle.std.specs.Prelude.{◌≢◌, IfOk};
ghost use Rattle.instance_text.specs.Faults.{IsFirstTextFault};
ghost use Rattle.instance_text.specs.declared.error.TextError.TheVariants.{OutOfMemory};
ghost use Rattle.instance_reasons.specs.Reasons.{HasFault, IsReadAgain, IsReasonIn};

use crate::grammar::{NotToml, not_toml};
use crate::rules::{RuleReason, rule_reason};
use crate::texts::{TextReason, text_reason};
use instance_text::{TextError, document, stated_parts};
use serde::{Described, Serialize, Serializer};
use std::alloc::Global;
use std::fmt;
use std::fmt::Display;
use toml::Table;
use ttp_model::{MemoryFault, Parts};

/// What a refused text is once more, as far as a fault asks for it.
#[derive(Drop)]
pub enum ReadAgain {
    /// Of bytes that are no TOML: what the reader of TOML says.
    NotToml(NotToml),
    /// Of a fault of its tables: the top one.
    Table(Table),
    /// Of a rule that is broken: the parts that are stated.
    Parts(Parts),
}

/// Why bytes state no instance that can be built.
#[derive(Drop)]
pub enum InstanceReason<'a> {
    NotToml(&'a NotToml),
    Text(TextReason<'a>),
    Rule(RuleReason<'a>),
}

/// Reads a text once more that has this fault first, and its tables too where a rule is broken.
pub fn reread(alloc: Global, bytes: &[u8], fault: &TextError) -> Result<ReadAgain, MemoryFault>
    requires first { IsFirstTextFault bytes.now fault.now }
    requires other { fault.now ≢ OutOfMemory }
    ensures { IfOk result (IsReadAgain bytes.now fault.now) }
{
    let table = match document(alloc, bytes) {
        Ok(table) => table,
        Err(TextError::NotToml) => return Ok(ReadAgain::NotToml(not_toml(alloc, bytes)?)),
        Err(_) => return Err(MemoryFault),
    };
    match fault {
        TextError::Model(_) => match stated_parts(alloc, &table) {
            Ok(parts) => Ok(ReadAgain::Parts(parts)),
            Err(_) => Err(MemoryFault),
        },
        _ => Ok(ReadAgain::Table(table)),
    }
}

/// Why a text is refused that was read again. Takes memory as `text_reason` and `rule_reason` do.
pub fn reason_of<'a>(
    alloc: Global,
    again: &'a ReadAgain,
    fault: &TextError,
) -> Result<InstanceReason<'a>, MemoryFault>
    requires { HasFault again.now fault.now }
    ensures { IfOk result (IsReasonIn again.now fault.now) }
{
    match again {
        ReadAgain::NotToml(said) => Ok(InstanceReason::NotToml(said)),
        ReadAgain::Table(table) => Ok(InstanceReason::Text(text_reason(alloc, table, fault)?)),
        ReadAgain::Parts(parts) => match fault {
            TextError::Model(error) => {
                Ok(InstanceReason::Rule(rule_reason(alloc, parts, error)?))
            }
            TextError::NotToml
            | TextError::UnknownKey { .. }
            | TextError::MissingKey { .. }
            | TextError::WrongKind { .. }
            | TextError::OutOfRange { .. }
            | TextError::UnknownName { .. }
            | TextError::OutOfMemory => unreachable!(),
        },
    }
}

impl<'a> Described for InstanceReason<'a> {}

impl<'a> Serialize for InstanceReason<'a> {
    fn serialize<S: Serializer>(&self, out: &mut S) -> Result<(), S::Error> {
        match self {
            InstanceReason::NotToml(reason) => reason.serialize(out),
            InstanceReason::Text(reason) => reason.serialize(out),
            InstanceReason::Rule(reason) => reason.serialize(out),
        }
    }
}

impl<'a> fmt::Display for InstanceReason<'a> {
    fn fmt<W: fmt::Write>(&self, f: &mut fmt::Formatter<W>) -> fmt::Result {
        match self {
            InstanceReason::NotToml(reason) => reason.fmt(f),
            InstanceReason::Text(reason) => reason.fmt(f),
            InstanceReason::Rule(reason) => reason.fmt(f),
        }
    }
}
