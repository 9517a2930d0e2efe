//! What does `explain` say as an object?

ghost use Rattle.std.specs.Prelude.{◌+◌, IfSome};
ghost use Rattle.command_streams.specs.declared.limits.TheConstants.{CERTIFICATE_LIMIT, INSTANCE_LIMIT};
ghost use Rattle.command_streams.specs.Instances.{StatesSome};
ghost use Rattle.command_streams.specs.Streams.{TakesAtMost};
ghost use Rattle.std.specs.Io.KnownBytes.{Keeps};
ghost use Rattle.plan_commands.specs.Printed.{printed_limit};
ghost use Rattle.explain_command.specs.Explained.{IsCertificateExplained, IsInstanceExplained, IsPlanExplained};
ghost use Rattle.json_answers.specs.Telling.{IsToldAsJson};

use crate::explaining::{explain_certificate, explain_instance, explain_plan};
use command_streams::End;
use json_answers::{EXPLAIN, Reasons, tell};
use std::alloc::Global;
use std::io::{Read, Write};
use std::thread::Threads;

/// As `explain_instance`, by one object.
pub fn explain_instance_json<I: Read, W: Write>(alloc: Global, instance: &mut I, out: &mut W) -> End
    ensures answer { IfSome (I.remaining instance.old) (λ i. IsToldAsJson (IsInstanceExplained i) (W.contents out.old) (W.contents out.new) result) }
    ensures instance { TakesAtMost (INSTANCE_LIMIT + 1) (I.remaining instance.old) (I.remaining instance.new) }
{
    let mut reasons = Reasons::asked(alloc);
    let mut text = Vec::new(alloc);
    let end = explain_instance(alloc, instance, &mut reasons, &mut text);
    tell(alloc, &EXPLAIN, end, text.as_slice(), &reasons, out)
}

/// As `explain_plan`, by one object.
pub fn explain_plan_json<I: Read, P: Read, W: Write>(
    alloc: Global,
    instance: &mut I,
    plan: &mut P,
    out: &mut W,
) -> End
    ensures answer { IfSome (I.remaining instance.old) (λ i. IfSome (P.remaining plan.old) (λ p.
        IsToldAsJson (IsPlanExplained i p) (W.contents out.old) (W.contents out.new) result)) }
    ensures instance { TakesAtMost (INSTANCE_LIMIT + 1) (I.remaining instance.old) (I.remaining instance.new) }
    ensures plan { TakesAtMost (printed_limit + 1) (P.remaining plan.old) (P.remaining plan.new) }
    ensures unread { IfSome (I.remaining instance.old) (λ i. ¬ StatesSome i → Keeps (P.remaining plan.old) (P.remaining plan.new)) }
{
    let mut reasons = Reasons::asked(alloc);
    let mut text = Vec::new(alloc);
    let end = explain_plan(alloc, instance, plan, &mut reasons, &mut text);
    tell(alloc, &EXPLAIN, end, text.as_slice(), &reasons, out)
}

/// As `explain_certificate`, by one object.
pub fn explain_certificate_json<I: Read, C: Read, W: Write>(
    rt: &(impl Threads + Sync),
    alloc: Global,
    instance: &mut I,
    certificate: &mut C,
    out: &mut W,
) -> End
    ensures answer { IfSome (I.remaining instance.old) (λ i. IfSome (C.remaining certificate.old) (λ c.
        IsToldAsJson (IsCertificateExplained i c) (W.contents out.old) (W.contents out.new) result)) }
    ensures instance { TakesAtMost (INSTANCE_LIMIT + 1) (I.remaining instance.old) (I.remaining instance.new) }
    ensures certificate { TakesAtMost (CERTIFICATE_LIMIT + 1) (C.remaining certificate.old) (C.remaining certificate.new) }
    ensures unread { IfSome (I.remaining instance.old) (λ i. ¬ StatesSome i → Keeps (C.remaining certificate.old) (C.remaining certificate.new)) }
{
    let mut reasons = Reasons::asked(alloc);
    let mut text = Vec::new(alloc);
    let end = explain_certificate(rt, alloc, instance, certificate, &mut reasons, &mut text);
    tell(alloc, &EXPLAIN, end, text.as_slice(), &reasons, out)
}
