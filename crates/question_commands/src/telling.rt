//! How is it told line by line that an instance has no plan?

ghost use Rattle.std.specs.Prelude.{◌≡◌, [], IfErr, IfOk, IfSome, OnOk};
ghost use Rattle.std.specs.Io.KnownBytes.{Appends};
ghost use Rattle.ttp_model.specs.Delays.{HasNoPlan};
ghost use Rattle.plan_questions.specs.Conflicts.{AreMarked, IsBegun, IsNarrowing};
ghost use Rattle.plan_questions.specs.LateAnswers.{IsLateness};
ghost use Rattle.question_commands.specs.Answers.{IsAskedFor};
ghost use Rattle.question_commands.specs.Telling.{AreLinesBehind, AreLinesCut, AreLinesCutBehind, AreLinesTold, AreNeedsCut, AreOthersUnsaid, IsLateUnsaid, IsUnsaid, IsWriterFault};
ghost use Rattle.question_commands.specs.Words.{IsOf, late_lines, need_line, need_lines, others_text};

use crate::words::{late_line, need_line, others_text};
use command_streams::{Fault, Sink, write_text};
use instance_variants::Constraint;
use plan_questions::{Asking, Conflict, Gate, Lateness, Need, least_lateness, marked, next_need};
use solve_command::told_as;
use std::alloc::Global;
use std::io::Write;
use std::marker::Sync;
use std::sync::Wait;
use std::thread::Threads;
use ttp_model::Instance;

/// Writes whole lines, so that who reads them has them at once.
#[tactic(auto, using(crate::proofs::Lines::flushed, crate::proofs::Lines::unflushed))]
pub fn say<W: Write>(out: &mut W, text: &[u8]) -> Result<(), Fault>
    ensures ok { OnOk result (Appends (W.contents out.old) (W.contents out.new) text.now) }
    ensures err { IfErr result (IsWriterFault text.now (W.contents out.old) (W.contents out.new)) }
{
    if write_text(out, text).is_err() {
        return Err(Fault::Unwritten(Sink::Out));
    }
    if out.flush().is_err() {
        return Err(Fault::Unwritten(Sink::Out));
    }
    Ok(())
}

/// Tells a constraint that is needed.
#[tactic(auto, using(command_streams::proofs::Outcomes::keeps))]
fn tell_need<W: Write>(
    alloc: Global,
    instance: &Instance,
    constraint: Constraint,
    out: &mut W,
) -> Result<(), Fault>
    requires { IsOf instance.now constraint }
    ensures ok { OnOk result (Appends (W.contents out.old) (W.contents out.new) (need_line instance.now constraint)) }
    ensures err { IfErr result (IsUnsaid (need_line instance.now constraint) (W.contents out.old) (W.contents out.new)) }
{
    let line = need_line(alloc, instance, constraint)?;
    say(out, line.as_slice())
}

/// Tells each constraint as soon as it is known to be needed, until all are decided.
fn tell_needs<R: Threads + Wait + Sync, G: Gate + Sync, W: Write>(
    rt: &R,
    asking: &Asking<'_, G>,
    instance: &Instance,
    conflict: &mut Conflict,
    out: &mut W,
) -> Result<(), Fault>
    requires { IsBegun instance.now asking.now.options conflict.old }
    ensures narrowing { OnOk result (IsNarrowing instance.now asking.now.options conflict.new) }
    ensures end { OnOk result (conflict.new.pending.items ≡ []) }
    ensures lines { OnOk result (Appends (W.contents out.old) (W.contents out.new) (need_lines instance.now conflict.new.needed.items)) }
    ensures err { IfErr result (AreNeedsCut instance.now asking.now.options (W.contents out.old) (W.contents out.new)) }
{
    'needs: loop {
        let found = match next_need(rt, asking, instance, conflict) {
            Ok(found) => found,
            Err(fault) => return Err(Fault::Search(told_as(fault))),
        };
        match found {
            Some(constraint) => tell_need(asking.alloc, instance, constraint, out)?,
            None => return Ok(()),
        }
    }
}

/// Tells the constraints of which it isn't known whether they are needed, once all are decided.
fn tell_others<G: Gate, W: Write>(
    asking: &Asking<'_, G>,
    instance: &Instance,
    conflict: &Conflict,
    out: &mut W,
) -> Result<Vec<Need>, Fault>
    requires narrowing { IsNarrowing instance.now asking.now.options conflict.now }
    requires end { conflict.now.pending.items ≡ [] }
    ensures marked { IfOk result (λ needs. AreMarked instance.now asking.now.options conflict.now.kept conflict.now.needed.items needs.items) }
    ensures lines { IfOk result (λ needs. Appends (W.contents out.old) (W.contents out.new) (others_text instance.now needs.items)) }
    ensures err { IfErr result (AreOthersUnsaid instance.now asking.now.options conflict.now (W.contents out.old) (W.contents out.new)) }
{
    let needs = marked(asking.alloc, conflict)?;
    let text = others_text(asking.alloc, instance, needs.as_slice())?;
    say(out, text.as_slice())?;
    Ok(needs)
}

/// Tells how many ticks later all has to end, where it is asked for.
fn tell_late<R: Threads + Wait + Sync, G: Gate + Sync, W: Write>(
    rt: &R,
    asking: &Asking<'_, G>,
    instance: &Instance,
    wanted: bool,
    out: &mut W,
) -> Result<Option<Lateness>, Fault>
    requires { HasNoPlan instance.now }
    ensures late { IfOk result (λ late. IfSome late (IsLateness instance.now asking.now.options)) }
    ensures asked { IfOk result (IsAskedFor wanted) }
    ensures lines { IfOk result (λ late. Appends (W.contents out.old) (W.contents out.new) (late_lines late)) }
    ensures err { IfErr result (IsLateUnsaid instance.now asking.now.options wanted (W.contents out.old) (W.contents out.new)) }
{
    let _nodes = instance.nodes();
    if !wanted {
        return Ok(None);
    }
    let lateness = match least_lateness(rt, asking, instance) {
        Ok(lateness) => lateness,
        Err(fault) => return Err(Fault::Search(told_as(fault))),
    };
    let line = late_line(asking.alloc, &lateness)?;
    say(out, line.as_slice())?;
    Ok(Some(lateness))
}

/// Tells what stands behind the constraints that are needed.
fn tell_behind<R: Threads + Wait + Sync, G: Gate + Sync, W: Write>(
    rt: &R,
    asking: &Asking<'_, G>,
    instance: &Instance,
    conflict: &Conflict,
    late: bool,
    out: &mut W,
) -> Result<(), Fault>
    requires narrowing { IsNarrowing instance.now asking.now.options conflict.now }
    requires end { conflict.now.pending.items ≡ [] }
    ensures ok { OnOk result (AreLinesBehind instance.now asking.now.options late conflict.now (W.contents out.old) (W.contents out.new)) }
    ensures err { IfErr result (AreLinesCutBehind instance.now asking.now.options late conflict.now (W.contents out.old) (W.contents out.new)) }
{
    let _nodes = instance.nodes();
    let needs = tell_others(asking, instance, conflict, out)?;
    let lateness = tell_late(rt, asking, instance, late, out)?;
    drop(needs);
    drop(lateness);
    Ok(())
}

/// Tells that there is no plan, each constraint as soon as it is known to be needed, and what stands behind these.
pub fn tell_lines<R: Threads + Wait + Sync, G: Gate + Sync, W: Write>(
    rt: &R,
    asking: &Asking<'_, G>,
    instance: &Instance,
    conflict: &mut Conflict,
    late: bool,
    out: &mut W,
) -> Result<(), Fault>
    requires { IsBegun instance.now asking.now.options conflict.old }
    ensures ok { OnOk result (AreLinesTold instance.now asking.now.options late conflict.new (W.contents out.old) (W.contents out.new)) }
    ensures err { IfErr result (AreLinesCut instance.now asking.now.options late (W.contents out.old) (W.contents out.new)) }
{
    say(out, b"ttwhy 1\nnone\n")?;
    tell_needs(rt, asking, instance, conflict, out)?;
    tell_behind(rt, asking, instance, conflict, late, out)
}
