//! What does `explain` say of an instance, of a plan and of a certificate?

ghost use Rattle.std.specs.Prelude.{◌≡◌, ◌+◌, IfErr, IfOk, IfSome, string_bytes};
ghost use Rattle.std.specs.Io.KnownBytes.{Keeps};
ghost use Rattle.command_streams.specs.Instances.{IsOfInstance, StatesSome};
ghost use Rattle.command_streams.specs.Outcomes.{IfRefused};
ghost use Rattle.command_streams.specs.Streams.{TakesAtMost};
ghost use Rattle.command_streams.specs.declared.ending.Fault.TheVariants.{Memory};
ghost use Rattle.plan_commands.specs.Printed.{printed_limit};
ghost use Rattle.explain_command.specs.Explained.{IsCertificateExplained, IsCertificateUntold, IsInstanceExplained, IsPlanExplained, IsPlanUntold, IsUntold, TellsBoth};
ghost use Rattle.explain_command.specs.Certificates.{IsUnreadable, TellsCertificateBytes};
ghost use Rattle.explain_command.specs.Instances.{IsStatedOf, TellsInstance, TellsSizes};
ghost use Rattle.explain_command.specs.Plans.{IsPlanUnread, TellsPlanBytes};

use crate::certificates::told_certificate;
use crate::instances::{Stated, stated_of_bytes};
use crate::plans::told_printed;
use command_streams::{
    CERTIFICATE_LIMIT, End, Fault, INSTANCE_LIMIT, PLAN_LIMIT, Source, end_with, read_all,
};
use instance_reasons::sizes_of;
use json_answers::Reasons;
use plan_commands::{front_of, read_printed};
use plan_reasons::{late_reason, path_chain_reason};
use sentences::put;
use std::alloc::Global;
use std::io::{Read, Write};
use std::thread::Threads;
use ttp_model::Instance;

/// What came of the bytes of an instance's reader.
fn stated_of_reader<I: Read>(
    alloc: Global,
    instance: &mut I,
    reasons: &mut Reasons,
) -> Result<Stated, Fault>
    ensures ok { IfSome (I.remaining instance.old) (λ bytes. IfOk result (IsStatedOf bytes)) }
    ensures err { IfSome (I.remaining instance.old) (λ bytes. IfErr result (IsUntold bytes)) }
    ensures most { TakesAtMost (INSTANCE_LIMIT + 1) (I.remaining instance.old) (I.remaining instance.new) }
{
    let bytes = read_all(alloc, instance, INSTANCE_LIMIT, Source::Instance)?;
    stated_of_bytes(alloc, bytes.as_slice(), reasons)
}

/// What is told of an instance that keeps its rules.
fn described(alloc: Global, instance: &Instance, reasons: &mut Reasons) -> Result<String, Fault>
    ensures ok { IfOk result (λ text. TellsSizes instance.now (string_bytes text)) }
    ensures err { IfErr result (λ wrong. wrong ≡ Memory) }
{
    let sizes = sizes_of(alloc, instance)?;
    let chain = path_chain_reason(alloc, instance)?;
    let late = late_reason(alloc, instance)?;
    reasons.push(alloc, "chain", &chain)?;
    reasons.push(alloc, "late", &late)?;
    let mut text = String::new(alloc);
    put(alloc, &mut text, &sizes)?;
    put(alloc, &mut text, &chain)?;
    put(alloc, &mut text, &late)?;
    Ok(text)
}

/// What is told of an instance.
fn instance_told<I: Read>(
    alloc: Global,
    instance: &mut I,
    reasons: &mut Reasons,
) -> Result<String, Fault>
    ensures ok { IfSome (I.remaining instance.old) (λ bytes. IfOk result (λ text. TellsInstance bytes (string_bytes text))) }
    ensures err { IfSome (I.remaining instance.old) (λ bytes. IfErr result (IsUntold bytes)) }
    ensures most { TakesAtMost (INSTANCE_LIMIT + 1) (I.remaining instance.old) (I.remaining instance.new) }
{
    match stated_of_reader(alloc, instance, reasons)? {
        Stated::Refused(text) => Ok(text),
        Stated::Instance(instance) => {
            let told = described(alloc, &instance, reasons);
            drop(instance);
            told
        }
    }
}

/// Tells an instance: `instance` with its sizes, each message that fits into no frame, why no plan ends before its path bound, and
/// which processes end too late whatever the plan; or the line of `verify` where it is refused, and behind it why, in sentences. Where
/// anything else ends the command nothing is written, and after a failed write a prefix of the text stands.
pub fn explain_instance<I: Read, W: Write>(
    alloc: Global,
    instance: &mut I,
    reasons: &mut Reasons,
    out: &mut W,
) -> End
    ensures answer { IfSome (I.remaining instance.old) (λ i. IsInstanceExplained i (W.contents out.old) (W.contents out.new) result) }
    ensures instance { TakesAtMost (INSTANCE_LIMIT + 1) (I.remaining instance.old) (I.remaining instance.new) }
{
    match instance_told(alloc, instance, reasons) {
        Ok(text) => end_with(out, text.as_bytes()),
        Err(fault) => End::Refused(fault),
    }
}

/// What is told of the bytes of a printed plan.
fn told_of_text(
    alloc: Global,
    instance: &Instance,
    bytes: &[u8],
    reasons: &mut Reasons,
) -> Result<String, Fault>
    ensures ok { IfOk result (λ text. TellsPlanBytes instance.now bytes.now (string_bytes text)) }
    ensures err { IfErr result (IsPlanUnread bytes.now) }
    ensures later { IfErr result (λ fault. ¬ IsOfInstance fault) }
{
    let (front, rest) = front_of(bytes);
    if rest.len() > PLAN_LIMIT {
        return Err(Fault::TooLong(Source::Plan));
    }
    let text = told_printed(alloc, instance, bytes, front, rest, reasons)?;
    Ok(text)
}

/// What is told of the bytes of a plan's reader.
fn told_of_plan<P: Read>(
    alloc: Global,
    instance: &Instance,
    plan: &mut P,
    reasons: &mut Reasons,
) -> Result<String, Fault>
    ensures ok { IfSome (P.remaining plan.old) (λ p. IfOk result (λ text. TellsPlanBytes instance.now p (string_bytes text))) }
    ensures err { IfSome (P.remaining plan.old) (λ p. IfErr result (IsPlanUnread p)) }
    ensures later { IfErr result (λ fault. ¬ IsOfInstance fault) }
    ensures plan { TakesAtMost (printed_limit + 1) (P.remaining plan.old) (P.remaining plan.new) }
{
    let bytes = read_printed(alloc, plan)?;
    told_of_text(alloc, instance, bytes.as_slice(), reasons)
}

/// What is told of an instance and a plan.
fn plan_told<I: Read, P: Read>(
    alloc: Global,
    instance: &mut I,
    plan: &mut P,
    reasons: &mut Reasons,
) -> Result<String, Fault>
    ensures ok { IfSome (I.remaining instance.old) (λ i. IfSome (P.remaining plan.old) (λ p.
        IfOk result (λ text. TellsBoth TellsPlanBytes i p (string_bytes text)))) }
    ensures err { IfSome (I.remaining instance.old) (λ i. IfSome (P.remaining plan.old) (λ p. IfErr result (IsPlanUntold i p))) }
    ensures instance { TakesAtMost (INSTANCE_LIMIT + 1) (I.remaining instance.old) (I.remaining instance.new) }
    ensures plan { TakesAtMost (printed_limit + 1) (P.remaining plan.old) (P.remaining plan.new) }
    ensures order { IfErr result (λ fault. IsOfInstance fault → Keeps (P.remaining plan.old) (P.remaining plan.new)) }
    ensures unread { IfSome (I.remaining instance.old) (λ i. ¬ StatesSome i → Keeps (P.remaining plan.old) (P.remaining plan.new)) }
{
    match stated_of_reader(alloc, instance, reasons)? {
        Stated::Refused(text) => Ok(text),
        Stated::Instance(instance) => {
            let told = told_of_plan(alloc, &instance, plan, reasons);
            drop(instance);
            told
        }
    }
}

/// Tells a plan: the line of `verify`, and in sentences why it is refused, or why it ends when it does. The instance is read and
/// judged first, and where there is none the plan isn't read. Where anything else ends the command nothing is written, and after a
/// failed write a prefix of the text stands.
pub fn explain_plan<I: Read, P: Read, W: Write>(
    alloc: Global,
    instance: &mut I,
    plan: &mut P,
    reasons: &mut Reasons,
    out: &mut W,
) -> End
    ensures answer { IfSome (I.remaining instance.old) (λ i. IfSome (P.remaining plan.old) (λ p.
        IsPlanExplained i p (W.contents out.old) (W.contents out.new) result)) }
    ensures instance { TakesAtMost (INSTANCE_LIMIT + 1) (I.remaining instance.old) (I.remaining instance.new) }
    ensures plan { TakesAtMost (printed_limit + 1) (P.remaining plan.old) (P.remaining plan.new) }
    ensures order { IfRefused result (λ fault. IsOfInstance fault → Keeps (P.remaining plan.old) (P.remaining plan.new)) }
    ensures unread { IfSome (I.remaining instance.old) (λ i. ¬ StatesSome i → Keeps (P.remaining plan.old) (P.remaining plan.new)) }
{
    match plan_told(alloc, instance, plan, reasons) {
        Ok(text) => end_with(out, text.as_bytes()),
        Err(fault) => End::Refused(fault),
    }
}

/// What is told of the bytes of a certificate's reader.
fn told_of_certificate<C: Read>(
    rt: &(impl Threads + Sync),
    alloc: Global,
    instance: &Instance,
    certificate: &mut C,
    reasons: &mut Reasons,
) -> Result<String, Fault>
    ensures ok { IfSome (C.remaining certificate.old) (λ c. IfOk result (λ text. TellsCertificateBytes instance.now c (string_bytes text))) }
    ensures err { IfSome (C.remaining certificate.old) (λ c. IfErr result (IsUnreadable c)) }
    ensures later { IfErr result (λ fault. ¬ IsOfInstance fault) }
    ensures certificate { TakesAtMost (CERTIFICATE_LIMIT + 1) (C.remaining certificate.old) (C.remaining certificate.new) }
{
    let bytes = read_all(alloc, certificate, CERTIFICATE_LIMIT, Source::Certificate)?;
    told_certificate(rt, alloc, instance, bytes.as_slice(), reasons)
}

/// What is told of an instance and a certificate.
fn certificate_told<I: Read, C: Read>(
    rt: &(impl Threads + Sync),
    alloc: Global,
    instance: &mut I,
    certificate: &mut C,
    reasons: &mut Reasons,
) -> Result<String, Fault>
    ensures ok { IfSome (I.remaining instance.old) (λ i. IfSome (C.remaining certificate.old) (λ c.
        IfOk result (λ text. TellsBoth TellsCertificateBytes i c (string_bytes text)))) }
    ensures err { IfSome (I.remaining instance.old) (λ i. IfSome (C.remaining certificate.old) (λ c. IfErr result (IsCertificateUntold i c))) }
    ensures instance { TakesAtMost (INSTANCE_LIMIT + 1) (I.remaining instance.old) (I.remaining instance.new) }
    ensures certificate { TakesAtMost (CERTIFICATE_LIMIT + 1) (C.remaining certificate.old) (C.remaining certificate.new) }
    ensures order { IfErr result (λ fault. IsOfInstance fault → Keeps (C.remaining certificate.old) (C.remaining certificate.new)) }
    ensures unread { IfSome (I.remaining instance.old) (λ i. ¬ StatesSome i → Keeps (C.remaining certificate.old) (C.remaining certificate.new)) }
{
    match stated_of_reader(alloc, instance, reasons)? {
        Stated::Refused(text) => Ok(text),
        Stated::Instance(instance) => {
            let told = told_of_certificate(rt, alloc, &instance, certificate, reasons);
            drop(instance);
            told
        }
    }
}

/// Tells a certificate: the line of `check`, and in sentences why it doesn't prove its bound, or how it does: step by step where
/// it is one leaf, and else how large it is. The instance is read and judged first, and where there is none the certificate isn't
/// read. The certificate's text is held in memory. Where anything else ends the command nothing is written, and after a failed
/// write a prefix of the text stands.
pub fn explain_certificate<I: Read, C: Read, W: Write>(
    rt: &(impl Threads + Sync),
    alloc: Global,
    instance: &mut I,
    certificate: &mut C,
    reasons: &mut Reasons,
    out: &mut W,
) -> End
    ensures answer { IfSome (I.remaining instance.old) (λ i. IfSome (C.remaining certificate.old) (λ c.
        IsCertificateExplained i c (W.contents out.old) (W.contents out.new) result)) }
    ensures instance { TakesAtMost (INSTANCE_LIMIT + 1) (I.remaining instance.old) (I.remaining instance.new) }
    ensures certificate { TakesAtMost (CERTIFICATE_LIMIT + 1) (C.remaining certificate.old) (C.remaining certificate.new) }
    ensures order { IfRefused result (λ fault. IsOfInstance fault → Keeps (C.remaining certificate.old) (C.remaining certificate.new)) }
    ensures unread { IfSome (I.remaining instance.old) (λ i. ¬ StatesSome i → Keeps (C.remaining certificate.old) (C.remaining certificate.new)) }
{
    match certificate_told(rt, alloc, instance, certificate, reasons) {
        Ok(text) => end_with(out, text.as_bytes()),
        Err(fault) => End::Refused(fault),
    }
}
