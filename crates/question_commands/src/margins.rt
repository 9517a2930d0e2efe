//! What does `margin` say of an instance and the processes that words mean?

ghost use Rattle.std.specs.Prelude.{◌≡◌, ◌+◌, ◌≤◌, IfOk, IfSome, MatchResult, length};
ghost use Rattle.command_streams.specs.declared.limits.TheConstants.{INSTANCE_LIMIT};
ghost use Rattle.command_streams.specs.Streams.{TakesAtMost};
ghost use Rattle.command_streams.specs.Writing.{IsWritingOf};
ghost use Rattle.plan_questions.specs.Ends.{AreThere};
ghost use Rattle.question_commands.specs.Limited.{IsUnsearched};
ghost use Rattle.question_commands.specs.Names.{texts_of};
ghost use Rattle.question_commands.specs.Margins.{IsMarginAnswer, IsMarginBy, IsMarginOf, IsMargined, IsNoMarginOf, IsUnmargined, end_told};

use crate::limit_texts::Beside;
use crate::margin_answer::end_of;
use crate::margin_texts::{Runs, texts_of};
use crate::meant::meant_by;
use command_streams::{End, Fault, Texts, read_instance, write_texts};
use plan_questions::{Asking, Gate, Margin, Scale, greatest_margin, with_horizon};
use solve_command::told_as;
use std::io::{Read, Write};
use std::marker::Sync;
use std::sync::Wait;
use std::thread::Threads;
use ttp_model::Instance;

/// What is asked of processes that are to run longer.
#[derive(Clone, Copy)]
pub struct Terms {
    /// In what it is counted by how much.
    pub scale: Scale,
    /// By which tick all has to end, longer runs included; 1 at least.
    pub within: u32,
    pub beside: Beside,
}

/// What searches say of how much longer processes may run, with the texts that tell it.
#[derive(Drop)]
pub struct Margined {
    pub margin: Margin,
    pub texts: Texts,
}

/// How much longer these processes may run, and the texts that tell it.
fn margin_by<R: Threads + Wait + Sync, G: Gate + Sync>(
    rt: &R,
    asking: &Asking<'_, G>,
    instance: &Instance,
    processes: &[u32],
    terms: Terms,
) -> Result<Margined, Fault>
    requires there { AreThere instance.now processes.now }
    requires some { 1 ≤ length processes.now }
    requires within { 1 ≤ terms.within }
    ensures { MatchResult result
        (IsMarginBy instance.now processes.now terms asking.now.options)
        IsUnsearched }
{
    let within = with_horizon(asking.alloc, instance, terms.within)?;
    let _base = within.nodes();
    let margin = match greatest_margin(rt, asking, &within, processes, terms.scale) {
        Ok(margin) => margin,
        Err(fault) => {
            drop(within);
            return Err(Fault::Search(told_as(fault)));
        }
    };
    let runs = Runs {
        instance: &within,
        processes,
        scale: terms.scale,
    };
    match texts_of(asking.alloc, instance, &runs, &margin, terms.beside) {
        Ok(texts) => {
            drop(within);
            Ok(Margined { margin, texts })
        }
        Err(_) => {
            drop(within);
            drop(margin);
            Err(Fault::Memory)
        }
    }
}

/// How much longer the processes that words mean may run.
fn margin_of<R: Threads + Wait + Sync, G: Gate + Sync>(
    rt: &R,
    asking: &Asking<'_, G>,
    instance: &Instance,
    words: &[&str],
    terms: Terms,
) -> Result<Margined, Fault>
    requires { 1 ≤ terms.within }
    ensures { MatchResult result
        (IsMarginOf instance.now (texts_of words.now) terms asking.now.options)
        (IsNoMarginOf instance.now (texts_of words.now)) }
{
    let _nodes = instance.nodes();
    let processes = meant_by(asking.alloc, instance, words)?;
    margin_by(rt, asking, instance, processes.as_slice(), terms)
}

/// How much longer the processes that words mean may run, of the instance that a reader's bytes state.
fn margin_of_reader<R: Threads + Wait + Sync, G: Gate + Sync, I: Read>(
    rt: &R,
    asking: &Asking<'_, G>,
    instance: &mut I,
    words: &[&str],
    terms: Terms,
) -> Result<Margined, Fault>
    requires { 1 ≤ terms.within }
    ensures judged { IfSome (I.remaining instance.old) (λ bytes. MatchResult result
        (IsMargined bytes (texts_of words.now) terms asking.now.options)
        (IsUnmargined bytes (texts_of words.now))) }
    ensures most { TakesAtMost (INSTANCE_LIMIT + 1) (I.remaining instance.old) (I.remaining instance.new) }
{
    let instance = read_instance(asking.alloc, instance)?;
    margin_of(rt, asking, &instance, words, terms)
}

/// Writes an answer behind what is written beside it.
fn tell<C: Write, S: Write, W: Write>(
    margined: &Margined,
    certificate: &mut C,
    reduced: &mut S,
    out: &mut W,
) -> End
    ensures { IsWritingOf margined.now.texts (end_told margined.now.margin)
        (C.contents certificate.old) (C.contents certificate.new) (S.contents reduced.old) (S.contents reduced.new)
        (W.contents out.old) (W.contents out.new) result }
{
    write_texts(
        &margined.texts,
        end_of(&margined.margin),
        certificate,
        reduced,
        out,
    )
}

/// Reads an instance, and tells by how much longer the processes that words mean may run, all at once, for some plan to stay valid: a line
/// `margin` with the greatest number, and then the text of a plan of the instance that stays valid with it; with the words `window` and a process
/// where that is the first that has no room for more, whatever the plan. Where a search was stopped a line `between` with what the plan that
/// follows has and what none is above, or `unknown` with that alone where no plan is known, and then the end is `Stopped`. Or `none` where no plan
/// is valid within the tick by which all has to end, and then the end is `Absent`. Where a search showed that there is no plan with one more, its
/// certificate is written first where that is wanted, and then the text of the instance with one more; else nothing is to these writers. Words are
/// looked up once the instance is read: the first that names no process, or one that a word before it names, is told. All texts are made before one
/// is written: where memory is refused nothing is written, and where a writer fails nothing is written to those behind it. Where the text that was
/// made of that instance doesn't read back as it, nothing is written of it, and the end is the fault of that file, once the answer is written.
pub fn margin_run<R: Threads + Wait + Sync, G: Gate + Sync, I: Read, C: Write, S: Write, W: Write>(
    rt: &R,
    asking: &Asking<'_, G>,
    instance: &mut I,
    words: &[&str],
    terms: Terms,
    certificate: &mut C,
    reduced: &mut S,
    out: &mut W,
) -> End
    requires { 1 ≤ terms.within }
    ensures answer { IfSome (I.remaining instance.old) (λ bytes. IsMarginAnswer bytes (texts_of words.now) terms asking.now.options
        (C.contents certificate.old) (C.contents certificate.new) (S.contents reduced.old) (S.contents reduced.new)
        (W.contents out.old) (W.contents out.new) result) }
    // No more is taken of the reader than its limit and one byte.
    ensures most { TakesAtMost (INSTANCE_LIMIT + 1) (I.remaining instance.old) (I.remaining instance.new) }
{
    match margin_of_reader(rt, asking, instance, words, terms) {
        Ok(margined) => {
            let end = tell(&margined, certificate, reduced, out);
            drop(margined);
            end
        }
        Err(fault) => End::Refused(fault),
    }
}
