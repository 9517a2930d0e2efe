//! What do `limit`, `why` and `margin` say as an object?

ghost use Rattle.std.specs.Prelude.{◌+◌, ◌≤◌, IfSome};
ghost use Rattle.command_streams.specs.declared.limits.TheConstants.{INSTANCE_LIMIT};
ghost use Rattle.command_streams.specs.Streams.{TakesAtMost};
ghost use Rattle.question_commands.specs.Answers.{IsWhyAnswer};
ghost use Rattle.question_commands.specs.Limited.{IsLimitAnswer};
ghost use Rattle.question_commands.specs.Margins.{IsMarginAnswer};
ghost use Rattle.question_commands.specs.Names.{texts_of};
ghost use Rattle.json_answers.specs.Telling.{IsToldAsJson};

use crate::limit_texts::Beside;
use crate::limits::limit_run;
use crate::margins::{Terms, margin_run};
use crate::why::why_run;
use crate::why_texts::Wanted;
use command_streams::End;
use json_answers::{LIMIT, MARGIN, Reasons, WHY, tell, untold};
use plan_questions::{Asking, Gate};
use std::alloc::{AllocError, Global};
use std::io::{Read, Write};
use std::marker::Sync;
use std::sync::Wait;
use std::thread::Threads;

/// The processes that words name, which are told beside an answer.
fn named(alloc: Global, words: &[&str]) -> Result<Reasons, AllocError> {
    let mut reasons = Reasons::asked(alloc);
    reasons.push(alloc, "processes", &words)?;
    Ok(reasons)
}

/// As `limit_run`, whose answer is one object.
pub fn limit_json<R: Threads + Wait + Sync, G: Gate + Sync, I: Read, C: Write, S: Write, W: Write>(
    rt: &R,
    asking: &Asking<'_, G>,
    instance: &mut I,
    words: &[&str],
    beside: Beside,
    certificate: &mut C,
    reduced: &mut S,
    out: &mut W,
) -> End
    ensures answer { IfSome (I.remaining instance.old) (λ bytes. IsToldAsJson
        (IsLimitAnswer bytes (texts_of words.now) asking.now.options beside
        (C.contents certificate.old) (C.contents certificate.new) (S.contents reduced.old) (S.contents reduced.new))
        (W.contents out.old) (W.contents out.new) result) }
    ensures most { TakesAtMost (INSTANCE_LIMIT + 1) (I.remaining instance.old) (I.remaining instance.new) }
{
    let alloc = asking.alloc;
    let mut text = Vec::new(alloc);
    let end = limit_run(
        rt,
        asking,
        instance,
        words,
        beside,
        certificate,
        reduced,
        &mut text,
    );
    match named(alloc, words) {
        Ok(reasons) => tell(alloc, &LIMIT, end, text.as_slice(), &reasons, out),
        Err(_) => untold(end),
    }
}

/// As `why_run`, whose answer is one object.
pub fn why_json<R: Threads + Wait + Sync, G: Gate + Sync, I: Read, C: Write, S: Write, W: Write>(
    rt: &R,
    asking: &Asking<'_, G>,
    instance: &mut I,
    wanted: Wanted,
    certificate: &mut C,
    reduced: &mut S,
    out: &mut W,
) -> End
    ensures answer { IfSome (I.remaining instance.old) (λ bytes. IsToldAsJson
        (IsWhyAnswer bytes asking.now.options wanted
        (C.contents certificate.old) (C.contents certificate.new) (S.contents reduced.old) (S.contents reduced.new))
        (W.contents out.old) (W.contents out.new) result) }
    ensures most { TakesAtMost (INSTANCE_LIMIT + 1) (I.remaining instance.old) (I.remaining instance.new) }
{
    let alloc = asking.alloc;
    let mut text = Vec::new(alloc);
    let end = why_run(
        rt,
        asking,
        instance,
        wanted,
        certificate,
        reduced,
        &mut text,
    );
    tell(alloc, &WHY, end, text.as_slice(), &Reasons::unasked(), out)
}

/// As `margin_run`, whose answer is one object.
pub fn margin_json<R: Threads + Wait + Sync, G: Gate + Sync, I: Read, C: Write, S: Write, W: Write>(
    rt: &R,
    asking: &Asking<'_, G>,
    instance: &mut I,
    words: &[&str],
    terms: Terms,
    certificate: &mut C,
    reduced: &mut S,
    out: &mut W,
) -> End
    requires { 1 ≤ terms.within }
    ensures answer { IfSome (I.remaining instance.old) (λ bytes. IsToldAsJson
        (IsMarginAnswer bytes (texts_of words.now) terms asking.now.options
        (C.contents certificate.old) (C.contents certificate.new) (S.contents reduced.old) (S.contents reduced.new))
        (W.contents out.old) (W.contents out.new) result) }
    ensures most { TakesAtMost (INSTANCE_LIMIT + 1) (I.remaining instance.old) (I.remaining instance.new) }
{
    let alloc = asking.alloc;
    let mut text = Vec::new(alloc);
    let end = margin_run(
        rt,
        asking,
        instance,
        words,
        terms,
        certificate,
        reduced,
        &mut text,
    );
    match named(alloc, words) {
        Ok(reasons) => tell(alloc, &MARGIN, end, text.as_slice(), &reasons, out),
        Err(_) => untold(end),
    }
}
