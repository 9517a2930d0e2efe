//! What is told of a certificate?

ghost use Rattle.std.specs.Prelude.{◌≡◌, ◌≢◌, ◌++◌, IfErr, IfOk, OnOk, string_bytes};
ghost use Rattle.certificate.specs.declared.fault.CertTextError.TheVariants as text;
ghost use Rattle.command_streams.specs.declared.ending.Fault.TheVariants as fault;
ghost use Rattle.command_streams.specs.declared.limits.TheConstants.{CERTIFICATE_LIMIT};
ghost use Rattle.plan_commands.specs.Certified.{HasBound, IsCertificateFault, bound_line};
ghost use Rattle.tree_check.specs.declared.fault.CertFault.TheVariants as cert;
ghost use Rattle.explain_command.specs.Certificates.{IsUnreadable, TellsCertificateBytes, TellsProved, TellsUnproved, TellsUnwritten};

use crate::telling::put_line;
use crate::values::CertificateValue;
use certificate::{CertTextError, LineFault};
use certificate_reasons::{cert_reason, proof_reason, text_reason};
use command_streams::Fault;
use json_answers::Reasons;
use plan_commands::read_bound;
use sentences::put;
use std::alloc::{AllocError, Global};
use std::thread::Threads;
use tree_check::CertFault;
use ttp_model::{Instance, MemoryFault};

/// What is told of a line at fault of a certificate's text.
fn told_unwritten(
    alloc: Global,
    instance: &Instance,
    bytes: &[u8],
    line: u64,
    wrong: LineFault,
    reasons: &mut Reasons,
) -> Result<String, MemoryFault>
    requires { IsCertificateFault CERTIFICATE_LIMIT instance.now bytes.now (fault.CertificateText (text.At line wrong)) }
    ensures { IfOk result (λ text. TellsUnwritten instance.now bytes.now (string_bytes text)) }
{
    let reason = text_reason(bytes, line, wrong);
    reasons.push(alloc, "reason", &CertificateValue::Unwritten(&reason))?;
    let mut text = String::new(alloc);
    let error = CertTextError::At { line, fault: wrong };
    put_line(&mut text, &Fault::CertificateText(error))?;
    put(alloc, &mut text, &reason)?;
    Ok(text)
}

/// What is told of a certificate that doesn't prove its bound.
#[tactic(auto, using(crate::proofs::Certified::no_memory))]
fn told_unproved(
    alloc: Global,
    instance: &Instance,
    bytes: &[u8],
    wrong: CertFault,
    reasons: &mut Reasons,
) -> Result<String, MemoryFault>
    requires fault { IsCertificateFault CERTIFICATE_LIMIT instance.now bytes.now (fault.Certificate wrong) }
    requires told { wrong ≢ cert.OutOfMemory }
    ensures { IfOk result (λ text. TellsUnproved instance.now bytes.now (string_bytes text)) }
{
    let reason = cert_reason(alloc, instance, bytes, wrong)?;
    reasons.push(alloc, "reason", &CertificateValue::Unproved(&reason))?;
    let mut text = String::new(alloc);
    put_line(&mut text, &Fault::Certificate(wrong))?;
    put(alloc, &mut text, &reason)?;
    Ok(text)
}

/// Adds the line of a bound that is proved, in ticks.
fn put_bound_line(text: &mut String, low: u32) -> Result<(), AllocError>
    ensures { OnOk result (string_bytes text.new ≡ string_bytes text.old ++ bound_line low) }
{
    writeln!(text, "bound {low}")
}

/// What is told of a certificate that proves its bound, in ticks.
fn told_proved(
    alloc: Global,
    instance: &Instance,
    bytes: &[u8],
    low: u32,
    reasons: &mut Reasons,
) -> Result<String, MemoryFault>
    requires { HasBound CERTIFICATE_LIMIT instance.now bytes.now low }
    ensures { IfOk result (λ text. TellsProved instance.now bytes.now (string_bytes text)) }
{
    let reason = proof_reason(alloc, instance, bytes)?;
    reasons.push(alloc, "proof", &CertificateValue::Proved(&reason))?;
    let mut text = String::new(alloc);
    put_bound_line(&mut text, low)?;
    put(alloc, &mut text, &reason)?;
    Ok(text)
}

/// What there is to say of a fault of a certificate's bytes: of want of memory nothing.
fn told_refused(
    alloc: Global,
    instance: &Instance,
    bytes: &[u8],
    wrong: Fault,
    reasons: &mut Reasons,
) -> Result<String, Fault>
    requires { IsCertificateFault CERTIFICATE_LIMIT instance.now bytes.now wrong }
    ensures told { IfOk result (λ text. TellsCertificateBytes instance.now bytes.now (string_bytes text)) }
    ensures err { IfErr result (IsUnreadable bytes.now) }
{
    match wrong {
        Fault::CertificateText(CertTextError::OutOfMemory) => Err(Fault::Memory),
        Fault::Certificate(CertFault::OutOfMemory) => Err(Fault::Memory),
        Fault::CertificateText(CertTextError::At { line, fault }) => {
            Ok(told_unwritten(alloc, instance, bytes, line, fault, reasons)?)
        }
        Fault::Certificate(wrong) => Ok(told_unproved(alloc, instance, bytes, wrong, reasons)?),
        other => Err(other),
    }
}

/// What is told of the bytes of a certificate.
pub fn told_certificate(
    rt: &(impl Threads + Sync),
    alloc: Global,
    instance: &Instance,
    bytes: &[u8],
    reasons: &mut Reasons,
) -> Result<String, Fault>
    ensures told { IfOk result (λ text. TellsCertificateBytes instance.now bytes.now (string_bytes text)) }
    ensures err { IfErr result (IsUnreadable bytes.now) }
{
    let mut reader = bytes;
    match read_bound(rt, alloc, instance, &mut reader) {
        Ok(low) => Ok(told_proved(alloc, instance, bytes, low, reasons)?),
        Err(wrong) => told_refused(alloc, instance, bytes, wrong, reasons),
    }
}
