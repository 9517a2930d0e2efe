//! What do `verify`, `judge` and `compare` say as an object?

ghost use Rattle.std.specs.Prelude.{◌+◌, IfSome};
ghost use Rattle.command_streams.specs.declared.limits.TheConstants.{INSTANCE_LIMIT, PLAN_LIMIT};
ghost use Rattle.command_streams.specs.Streams.{TakesAtMost};
ghost use Rattle.plan_commands.specs.Certified.{certificate_limit};
ghost use Rattle.plan_commands.specs.Comparisons.{IsCompareAnswer};
ghost use Rattle.plan_commands.specs.Judged.{IsJudgeAnswer};
ghost use Rattle.plan_commands.specs.Printed.{printed_limit};
ghost use Rattle.plan_commands.specs.Verdicts.{IsVerdict};
ghost use Rattle.json_answers.specs.Telling.{IsToldAsJson};

use crate::comparing::compare_run;
use crate::judge::judge_run;
use crate::verdict::verify;
use command_streams::End;
use json_answers::{COMPARE, JUDGE, Reasons, VERIFY, tell};
use std::alloc::Global;
use std::io::{Read, Write};
use std::thread::Threads;

/// As `verify`, by one object.
pub fn verify_json<I: Read, P: Read, W: Write>(
    alloc: Global,
    instance: &mut I,
    plan: &mut P,
    out: &mut W,
) -> End
    ensures verdict { IfSome (I.remaining instance.old) (λ i. IfSome (P.remaining plan.old) (λ p.
        IsToldAsJson (IsVerdict i p) (W.contents out.old) (W.contents out.new) result)) }
    ensures instance { TakesAtMost (INSTANCE_LIMIT + 1) (I.remaining instance.old) (I.remaining instance.new) }
    ensures plan { TakesAtMost (PLAN_LIMIT + 1) (P.remaining plan.old) (P.remaining plan.new) }
{
    let mut text = Vec::new(alloc);
    let end = verify(alloc, instance, plan, &mut text);
    tell(
        alloc,
        &VERIFY,
        end,
        text.as_slice(),
        &Reasons::unasked(),
        out,
    )
}

/// As `judge_run`, by one object.
pub fn judge_json<I: Read, P: Read, C: Read, W: Write>(
    rt: &(impl Threads + Sync),
    alloc: Global,
    is_long: bool,
    instance: &mut I,
    plan: &mut P,
    certificate: &mut C,
    out: &mut W,
) -> End
    ensures answer { IfSome (I.remaining instance.old) (λ i. IfSome (P.remaining plan.old) (λ p. IfSome (C.remaining certificate.old) (λ c.
        IsToldAsJson (IsJudgeAnswer (certificate_limit is_long) i p c) (W.contents out.old) (W.contents out.new) result))) }
    ensures instance { TakesAtMost (INSTANCE_LIMIT + 1) (I.remaining instance.old) (I.remaining instance.new) }
    ensures plan { TakesAtMost (printed_limit + 1) (P.remaining plan.old) (P.remaining plan.new) }
    ensures certificate { TakesAtMost (certificate_limit is_long + 1) (C.remaining certificate.old) (C.remaining certificate.new) }
{
    let mut text = Vec::new(alloc);
    let end = judge_run(rt, alloc, is_long, instance, plan, certificate, &mut text);
    tell(
        alloc,
        &JUDGE,
        end,
        text.as_slice(),
        &Reasons::unasked(),
        out,
    )
}

/// As `compare_run`, by one object.
pub fn compare_json<I: Read, P: Read, J: Read, Q: Read, W: Write>(
    alloc: Global,
    old_instance: &mut I,
    old_plan: &mut P,
    new_instance: &mut J,
    new_plan: &mut Q,
    out: &mut W,
) -> End
    ensures answer { IfSome (I.remaining old_instance.old) (λ i. IfSome (P.remaining old_plan.old) (λ p.
        IfSome (J.remaining new_instance.old) (λ j. IfSome (Q.remaining new_plan.old) (λ q.
        IsToldAsJson (IsCompareAnswer (record { instance = i; plan = p }) (record { instance = j; plan = q }))
        (W.contents out.old) (W.contents out.new) result)))) }
    ensures old_instance { TakesAtMost (INSTANCE_LIMIT + 1) (I.remaining old_instance.old) (I.remaining old_instance.new) }
    ensures old_plan { TakesAtMost (printed_limit + 1) (P.remaining old_plan.old) (P.remaining old_plan.new) }
    ensures new_instance { TakesAtMost (INSTANCE_LIMIT + 1) (J.remaining new_instance.old) (J.remaining new_instance.new) }
    ensures new_plan { TakesAtMost (printed_limit + 1) (Q.remaining new_plan.old) (Q.remaining new_plan.new) }
{
    let mut text = Vec::new(alloc);
    let end = compare_run(
        alloc,
        old_instance,
        old_plan,
        new_instance,
        new_plan,
        &mut text,
    );
    tell(
        alloc,
        &COMPARE,
        end,
        text.as_slice(),
        &Reasons::unasked(),
        out,
    )
}
