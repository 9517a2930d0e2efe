//! What is told of an instance's bytes?

ghost use Rattle.std.specs.Prelude.{◌≡◌, ◌≤◌, ◌==◌, IfErr, IfOk, length, string_bytes};
ghost use Rattle.instance_reasons.specs.Reasons.{IsInstanceReason, IsReadAgain};
ghost use Rattle.command_streams.specs.Endings.{fault_status};
ghost use Rattle.command_streams.specs.Instances.{IsInstanceFault};
ghost use Rattle.command_streams.specs.declared.ending.Fault.TheVariants as fault;
ghost use Rattle.explain_command.specs.Explained.{IsUntold};
ghost use Rattle.explain_command.specs.Instances.{IsStatedOf, TellsRefused};

use crate::mistaken::in_place_of_instance;
use crate::telling::put_line;
use command_streams::{Fault, INSTANCE_LIMIT, instance_of_text};
use instance_reasons::{InstanceReason, ReadAgain, reason_of, reread};
use instance_text::TextError;
use json_answers::Reasons;
use sentences::put;
use std::alloc::Global;
use ttp_model::{Instance, MemoryFault, ModelError};

/// What came of an instance's bytes.
#[derive(Drop)]
pub enum Stated {
    /// They state this one.
    Instance(Instance),
    /// They state none, and this is told of them.
    Refused(String),
}

/// Whether an error says something of the text, and not that memory was refused.
fn is_of_text(error: &TextError) -> bool
    ensures { result ≡ (fault_status (fault.InstanceText error.now) == 3) }
{
    match error {
        TextError::OutOfMemory => false,
        TextError::Model(ModelError::OutOfMemory) => false,
        _ => true,
    }
}

/// The line of a text's fault, its reason behind, and what the bytes are like.
fn told_behind(
    alloc: Global,
    bytes: &[u8],
    wrong: TextError,
    reason: &InstanceReason<'_>,
) -> Result<String, MemoryFault>
    requires first { IsInstanceFault bytes.now (fault.InstanceText wrong) }
    requires status { fault_status (fault.InstanceText wrong) ≡ 3 }
    requires is { IsInstanceReason bytes.now wrong reason.now }
    ensures { IfOk result (λ text. TellsRefused bytes.now (string_bytes text)) }
{
    let mut text = String::new(alloc);
    put_line(&mut text, &Fault::InstanceText(wrong))?;
    put(alloc, &mut text, reason)?;
    text.push_str(in_place_of_instance(bytes))?;
    Ok(text)
}

/// Why bytes state no instance, as they were read again.
fn told_of(
    alloc: Global,
    bytes: &[u8],
    wrong: TextError,
    again: &ReadAgain,
    reasons: &mut Reasons,
) -> Result<String, MemoryFault>
    requires first { IsInstanceFault bytes.now (fault.InstanceText wrong) }
    requires status { fault_status (fault.InstanceText wrong) ≡ 3 }
    requires again { IsReadAgain bytes.now wrong again.now }
    ensures { IfOk result (λ text. TellsRefused bytes.now (string_bytes text)) }
{
    let reason = reason_of(alloc, again, &wrong)?;
    reasons.push(alloc, "reason", &reason)?;
    told_behind(alloc, bytes, wrong, &reason)
}

/// Why bytes state no instance.
fn told_refusal(
    alloc: Global,
    bytes: &[u8],
    wrong: TextError,
    reasons: &mut Reasons,
) -> Result<String, MemoryFault>
    requires first { IsInstanceFault bytes.now (fault.InstanceText wrong) }
    requires status { fault_status (fault.InstanceText wrong) ≡ 3 }
    ensures { IfOk result (λ text. TellsRefused bytes.now (string_bytes text)) }
{
    let again = reread(alloc, bytes, &wrong)?;
    let told = told_of(alloc, bytes, wrong, &again, reasons);
    drop(again);
    told
}

/// What is told of an error of bytes.
fn refused(
    alloc: Global,
    bytes: &[u8],
    error: TextError,
    reasons: &mut Reasons,
) -> Result<Stated, Fault>
    requires { IsInstanceFault bytes.now (fault.InstanceText error) }
    ensures ok { IfOk result (IsStatedOf bytes.now) }
    ensures err { IfErr result (λ wrong. wrong ≡ fault.Memory) }
{
    if is_of_text(&error) {
        let text = told_refusal(alloc, bytes, error, reasons)?;
        Ok(Stated::Refused(text))
    } else {
        Err(Fault::Memory)
    }
}

/// The instance that bytes state, or what is told of them.
pub fn stated_of_bytes(alloc: Global, bytes: &[u8], reasons: &mut Reasons) -> Result<Stated, Fault>
    requires { length bytes.now ≤ INSTANCE_LIMIT }
    ensures ok { IfOk result (IsStatedOf bytes.now) }
    ensures err { IfErr result (IsUntold bytes.now) }
{
    match instance_of_text(alloc, bytes) {
        Ok(instance) => Ok(Stated::Instance(instance)),
        Err(Fault::InstanceText(error)) => refused(alloc, bytes, error, reasons),
        Err(other) => Err(other),
    }
}
