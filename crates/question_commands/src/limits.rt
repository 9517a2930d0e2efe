//! What does `limit` say of an instance and the processes that words name?

ghost use Rattle.std.specs.Prelude.{◌≡◌, ◌+◌, IfOk, IfSome, MatchResult};
ghost use Rattle.command_streams.specs.declared.limits.TheConstants.{INSTANCE_LIMIT};
ghost use Rattle.command_streams.specs.Streams.{TakesAtMost};
ghost use Rattle.plan_questions.specs.Ends.{AreThere};
ghost use Rattle.command_streams.specs.Writing.{IsWritingOf};
ghost use Rattle.question_commands.specs.Names.{texts_of};
ghost use Rattle.question_commands.specs.Limited.{end_told, IsLimitAnswer, IsLimitBy, IsLimited, IsLimitedOf, IsNoLimitOf, IsUnlimited, IsUnsearched};

use crate::answer::end_of;
use crate::limit_texts::{Beside, texts_of};
use crate::names::processes_of;
use command_streams::{End, Fault, Texts, read_instance, write_texts};
use plan_questions::{Asking, EndLimit, Gate, least_end};
use solve_command::told_as;
use std::io::{Read, Write};
use std::marker::Sync;
use std::sync::Wait;
use std::thread::Threads;
use ttp_model::Instance;

/// What searches say of how early processes can end, with the texts that tell it.
#[derive(Drop)]
pub struct Limited {
    pub limit: EndLimit,
    pub texts: Texts,
}

/// How early these processes can end, and the texts that tell it.
#[tactic(auto, using(crate::proofs::LimitAnswers::plan_valid, crate::proofs::LimitAnswers::printable, crate::proofs::LimitAnswers::can_end))]
fn limit_by<R: Threads + Wait + Sync, G: Gate + Sync>(
    rt: &R,
    asking: &Asking<'_, G>,
    instance: &Instance,
    processes: &[u32],
    beside: Beside,
) -> Result<Limited, Fault>
    requires { AreThere instance.now processes.now }
    ensures { MatchResult result
        (IsLimitBy instance.now processes.now asking.now.options beside)
        IsUnsearched }
{
    let _nodes = instance.nodes();
    let limit = match least_end(rt, asking, instance, processes) {
        Ok(limit) => limit,
        Err(fault) => return Err(Fault::Search(told_as(fault))),
    };
    match texts_of(asking.alloc, instance, processes, &limit, beside) {
        Ok(texts) => Ok(Limited { limit, texts }),
        Err(_) => Err(Fault::Memory),
    }
}

/// How early the processes that words name can end.
fn limited_of<R: Threads + Wait + Sync, G: Gate + Sync>(
    rt: &R,
    asking: &Asking<'_, G>,
    instance: &Instance,
    words: &[&str],
    beside: Beside,
) -> Result<Limited, Fault>
    ensures { MatchResult result
        (IsLimitedOf instance.now (texts_of words.now) asking.now.options beside)
        (IsNoLimitOf instance.now (texts_of words.now)) }
{
    let processes = processes_of(asking.alloc, instance, words)?;
    limit_by(rt, asking, instance, processes.as_slice(), beside)
}

/// How early the processes that words name can end, of the instance that a reader's bytes state.
fn limited_of_reader<R: Threads + Wait + Sync, G: Gate + Sync, I: Read>(
    rt: &R,
    asking: &Asking<'_, G>,
    instance: &mut I,
    words: &[&str],
    beside: Beside,
) -> Result<Limited, Fault>
    ensures judged { IfSome (I.remaining instance.old) (λ bytes. MatchResult result
        (IsLimited bytes (texts_of words.now) asking.now.options beside)
        (IsUnlimited bytes (texts_of words.now))) }
    ensures most { TakesAtMost (INSTANCE_LIMIT + 1) (I.remaining instance.old) (I.remaining instance.new) }
{
    let instance = read_instance(asking.alloc, instance)?;
    limited_of(rt, asking, &instance, words, beside)
}

/// Writes an answer behind what is written beside it.
fn tell<C: Write, S: Write, W: Write>(
    limited: &Limited,
    certificate: &mut C,
    reduced: &mut S,
    out: &mut W,
) -> End
    ensures { IsWritingOf limited.now.texts (end_told limited.now.limit)
        (C.contents certificate.old) (C.contents certificate.new) (S.contents reduced.old) (S.contents reduced.new)
        (W.contents out.old) (W.contents out.new) result }
{
    write_texts(
        &limited.texts,
        end_of(&limited.limit),
        certificate,
        reduced,
        out,
    )
}

/// Reads an instance, and tells how early the processes that words name can end: a line `limit` with the least tick by which all of
/// them can, and then the text of a plan that does it, of the least delay among such plans; where the search for that delay was
/// stopped the plan is one that does it, and the end is `Stopped`. Where a search before it was stopped, a line `between` with a tick
/// before which no valid plan ends them all, and the tick at which the plan does whose text follows, or the word `none` where no plan
/// is known, and then the end is `Stopped`. Or `none` where no plan is valid, and then the end is `Absent`. Where they are wanted the
/// certificate of the last search is written first, whatever was found, and then the text of the instance of that search; to a writer of
/// what isn't wanted nothing is. Words are looked up once the instance is read: the first that names no process, or one that a word
/// before it names, is told. All texts are made before one is written: where memory is refused nothing is written, and where a writer
/// fails nothing is written to those behind it. Where the text that was made of that instance doesn't read back as it, nothing is
/// written of it, and the end is the fault of that file, once the answer is written.
pub fn limit_run<R: Threads + Wait + Sync, G: Gate + Sync, I: Read, C: Write, S: Write, W: Write>(
    rt: &R,
    asking: &Asking<'_, G>,
    instance: &mut I,
    words: &[&str],
    beside: Beside,
    certificate: &mut C,
    reduced: &mut S,
    out: &mut W,
) -> End
    ensures answer { IfSome (I.remaining instance.old) (λ bytes. IsLimitAnswer bytes (texts_of words.now) asking.now.options beside
        (C.contents certificate.old) (C.contents certificate.new) (S.contents reduced.old) (S.contents reduced.new)
        (W.contents out.old) (W.contents out.new) result) }
    // No more is taken of the reader than its limit and one byte.
    ensures most { TakesAtMost (INSTANCE_LIMIT + 1) (I.remaining instance.old) (I.remaining instance.new) }
{
    match limited_of_reader(rt, asking, instance, words, beside) {
        Ok(limited) => {
            let end = tell(&limited, certificate, reduced, out);
            drop(limited);
            end
        }
        Err(fault) => End::Refused(fault),
    }
}
