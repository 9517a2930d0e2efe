//! What does `why` say of an instance, and what does it write?

ghost use Rattle.std.specs.Prelude.{◌+◌, IfErr, IfSome, MatchResult, OnOk};
ghost use Rattle.std.specs.Io.KnownBytes.{Appends};
ghost use Rattle.certificate.specs.Versions.{Allows};
ghost use Rattle.plan_questions.specs.Conflicts.{IsBegun};
ghost use Rattle.command_streams.specs.declared.limits.TheConstants.{INSTANCE_LIMIT};
ghost use Rattle.command_streams.specs.Streams.{TakesAtMost};
ghost use Rattle.question_commands.specs.Answers.{IsWhyAnswer};
ghost use Rattle.question_commands.specs.Telling.{AreLinesCut, HasTold, IsBrokenOff, IsFinished, IsPrintable, IsUnsaid, IsWrittenBehind};
ghost use Rattle.question_commands.specs.Words.{plan_text};

use crate::telling::{say, tell_lines};
use crate::why_texts::{Wanted, files_of, write_files};
use crate::words::plan_text;
use command_streams::{End, Fault, read_instance};
use plan_questions::{Asking, Conflict, FirstAnswer, Gate, first_answer};
use solve_command::told_as;
use std::alloc::Global;
use std::io::{Read, Write};
use std::marker::Sync;
use std::sync::Wait;
use std::thread::Threads;
use ttp_model::Instance;

/// What was told of an instance.
#[derive(Drop)]
enum Told {
    /// That there is a plan, or that nothing is known, and the end at which that is told.
    Plain(End),
    /// The constraints that are left of these, which leave no plan.
    Narrowed(Conflict),
}

/// Tells that there is a plan of so many ticks.
#[tactic(auto, using(command_streams::proofs::Outcomes::keeps))]
fn tell_plan<W: Write>(alloc: Global, delay: u64, out: &mut W) -> Result<(), Fault>
    ensures ok { OnOk result (Appends (W.contents out.old) (W.contents out.new) (plan_text delay)) }
    ensures err { IfErr result (IsUnsaid (plan_text delay) (W.contents out.old) (W.contents out.new)) }
{
    let text = plan_text(alloc, delay)?;
    say(out, text.as_slice())
}

/// Tells which of the constraints leave no plan, and hands out what is left of them.
fn tell_narrowed<R: Threads + Wait + Sync, G: Gate + Sync, W: Write>(
    rt: &R,
    asking: &Asking<'_, G>,
    instance: &Instance,
    conflict: Conflict,
    late: bool,
    out: &mut W,
) -> Result<Told, Fault>
    requires { IsBegun instance.now asking.now.options conflict }
    ensures told { MatchResult result
        (HasTold instance.now asking.now.options late (W.contents out.old) (W.contents out.new))
        (AreLinesCut instance.now asking.now.options late (W.contents out.old) (W.contents out.new)) }
    ensures printable { IsPrintable result }
{
    let _nodes = instance.nodes();
    let mut conflict = conflict;
    tell_lines(rt, asking, instance, &mut conflict, late, out)?;
    Ok(Told::Narrowed(conflict))
}

/// Tells why an instance has no plan, line by line as it is known.
fn told_of<R: Threads + Wait + Sync, G: Gate + Sync, W: Write>(
    rt: &R,
    asking: &Asking<'_, G>,
    instance: &Instance,
    late: bool,
    out: &mut W,
) -> Result<Told, Fault>
    ensures told { MatchResult result
        (HasTold instance.now asking.now.options late (W.contents out.old) (W.contents out.new))
        (IsBrokenOff instance.now asking.now.options late (W.contents out.old) (W.contents out.new)) }
    ensures printable { IsPrintable result }
{
    let first = match first_answer(rt, asking, instance) {
        Ok(first) => first,
        Err(fault) => return Err(Fault::Search(told_as(fault))),
    };
    match first {
        FirstAnswer::Plan { delay, plan } => {
            drop(plan);
            tell_plan(asking.alloc, delay, out)?;
            Ok(Told::Plain(End::Done))
        }
        FirstAnswer::None { conflict } => tell_narrowed(rt, asking, instance, conflict, late, out),
        FirstAnswer::Unknown => {
            say(out, b"ttwhy 1\nunknown\n")?;
            Ok(Told::Plain(End::Stopped))
        }
    }
}

/// Writes the files behind the constraints that were told, and ends the command.
#[tactic(auto, using(crate::proofs::Told::alone))]
fn write_behind<C: Write, S: Write>(
    alloc: Global,
    instance: &Instance,
    conflict: &Conflict,
    wanted: Wanted,
    certificate: &mut C,
    reduced: &mut S,
) -> End
    requires { Allows conflict.now.cert.version conflict.now.cert.tree }
    ensures { IsWrittenBehind wanted instance.now conflict.now (C.contents certificate.old) (C.contents certificate.new)
        (S.contents reduced.old) (S.contents reduced.new) result }
{
    match files_of(alloc, instance, conflict, wanted) {
        Ok(files) => write_files(&files, certificate, reduced),
        Err(_) => End::Refused(Fault::Memory),
    }
}

/// Writes the files where constraints were told, and ends the command.
#[tactic(auto, using(crate::proofs::Told::alone))]
fn finished<C: Write, S: Write>(
    alloc: Global,
    instance: &Instance,
    told: Result<Told, Fault>,
    wanted: Wanted,
    certificate: &mut C,
    reduced: &mut S,
) -> End
    requires { IsPrintable told }
    ensures { IsFinished wanted instance.now told (C.contents certificate.old) (C.contents certificate.new)
        (S.contents reduced.old) (S.contents reduced.new) result }
{
    match told {
        Ok(Told::Plain(end)) => end,
        Ok(Told::Narrowed(conflict)) => {
            write_behind(alloc, instance, &conflict, wanted, certificate, reduced)
        }
        Err(fault) => End::Refused(fault),
    }
}

/// Reads an instance, and writes why it has no plan: that there is none once it is known, and then each constraint as soon as it is
/// known to be needed, with the word `need`, in the order in which they are found; with `maybe` at last those of which it isn't known, and
/// then the end is `Absent`. Or the delay of a plan, where there is one; or that neither is known, and then the end is `Stopped`. Behind the
/// constraints stands how many ticks later all would have to end, where that is wanted. Each search has the budget.
///
/// Each line is written as a whole, and flushed. A fault that comes later leaves the lines that were written before it, and is the end: of
/// memory, of a thread, or of a writer. Behind all lines the certificate of the instance by these constraints alone is written,
/// and then the text of that instance, where they are wanted; where a writer fails nothing is written to those behind it. Where the text
/// that was made of that instance doesn't read back as it, nothing is written of it, and the end is the fault of that file.
pub fn why_run<R: Threads + Wait + Sync, G: Gate + Sync, I: Read, C: Write, S: Write, W: Write>(
    rt: &R,
    asking: &Asking<'_, G>,
    instance: &mut I,
    wanted: Wanted,
    certificate: &mut C,
    reduced: &mut S,
    out: &mut W,
) -> End
    ensures answer { IfSome (I.remaining instance.old) (λ bytes. IsWhyAnswer bytes asking.now.options wanted
        (C.contents certificate.old) (C.contents certificate.new) (S.contents reduced.old) (S.contents reduced.new)
        (W.contents out.old) (W.contents out.new) result) }
    // No more is taken of the reader than its limit and one byte.
    ensures most { TakesAtMost (INSTANCE_LIMIT + 1) (I.remaining instance.old) (I.remaining instance.new) }
{
    match read_instance(asking.alloc, instance) {
        Ok(instance) => {
            let told = told_of(rt, asking, &instance, wanted.late, out);
            finished(asking.alloc, &instance, told, wanted, certificate, reduced)
        }
        Err(fault) => End::Refused(fault),
    }
}
