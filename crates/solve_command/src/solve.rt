//! What `solve` says of an instance, and the certificate that shows it.

ghost use Rattle.std.specs.Prelude.{◌≡◌, ◌≤◌, ◌+◌, None, true, false, is_some, string_bytes, IfErr, IfOk, IfSome, MatchResult};
ghost use Rattle.std.specs.Io.KnownBytes.{Keeps};
ghost use Rattle.ttp_model.specs.Delays.{delay};
ghost use Rattle.ttp_model.specs.Plans.{IsValid};
ghost use Rattle.certificate.specs.Versions.{Allows};
ghost use Rattle.command_streams.specs.Instances.{IsOfInstance};
ghost use Rattle.command_streams.specs.declared.limits.TheConstants.{INSTANCE_LIMIT};
ghost use Rattle.command_streams.specs.Outcomes.{IfRefused};
ghost use Rattle.command_streams.specs.Streams.{TakesAtMost};
ghost use Rattle.plan_commands.specs.Printed.{printed_limit};
ghost use Rattle.planner.specs.Searching.{limit_of};
ghost use Rattle.planner.specs.Answers.{best_of, cert_of, stated, IsCalledOff, IsOutcome, Shows};
ghost use Rattle.ttp_model.specs.Answers.{IsBestPlan};
ghost use Rattle.solve_command.specs.Solved.{best_word, stopped_line, why_word, IsAnswerText, IsNoSearch, IsSearchOf, IsSolveAnswer, IsSolved, IsSolvedFrom, IsStartedAnswer, IsStoppedText, IsUnsolved, IsUnsolvedFrom};
ghost use Rattle.solve_command.specs.Telling.{end_told, held, left, IsCertifying, IsTellingOf, IsWritingTo};

use crate::faults::told_as;
use crate::patience::is_enough;
use crate::progress::Follower;
use certificate::Cert;
use command_streams::{End, Fault, Sink, read_instance, write_text};
use plan_commands::{Verified, printed_of_readers};
use planner::{
    FoundPlan, FreeGate, Options, Outcome, Site, SolveFault, Why, solve_towards, solve_wide,
};
use std::alloc::{AllocError, Global};
use std::fmt;
use std::io::{Read, Write};
use std::marker::Sync;
use std::sync::Wait;
use std::thread::Threads;
use ttp_model::{Instance, MemoryFault, Plan};

/// When a plan is short enough that isn't known to be a shortest one.
#[derive(Clone, Copy, PartialEq, Eq)]
pub struct Enough {
    /// Where it takes at most so many ticks: as `until` it is told that a search was called off that has such a plan.
    pub until: Option<u32>,
    /// Where none is shorter by more than so many ticks.
    pub gap: u32,
}

/// How an instance is searched.
#[derive(Clone, Copy)]
pub struct Asked {
    pub options: Options,
    pub enough: Enough,
    /// Whether one thread works the subtree with the fewest branches above it, and no worker, for a tree that is to be dealt.
    pub is_wide: bool,
}

/// An instance, and what a search of it found.
#[derive(Drop)]
pub struct Solved {
    pub instance: Instance,
    pub outcome: Outcome,
    /// What is written of it.
    pub text: Vec<u8>,
}

/// Why a search stopped, and whether the best plan found is short enough.
#[derive(Drop)]
struct WhyWord {
    why: Why,
    is_enough: bool,
}

impl fmt::Display for WhyWord {
    ghost use Rattle.std.specs.Prelude.{Some};

    ghost output = { λ x. Some (why_word x.why x.is_enough) };

    fn fmt<W: fmt::Write>(&self, f: &mut fmt::Formatter<W>) -> fmt::Result {
        match (self.why, self.is_enough) {
            (Why::Budget, _) => write!(f, "budget"),
            (Why::Memory, _) => write!(f, "memory"),
            (Why::CalledOff, true) => write!(f, "until"),
            (Why::CalledOff, false) => write!(f, "time"),
            (Why::Gap, _) => write!(f, "gap"),
            (Why::Part, _) => write!(f, "part"),
        }
    }
}

#[derive(Drop)]
struct BestWord(Option<u64>);

impl fmt::Display for BestWord {
    ghost use Rattle.std.specs.Prelude.{Some};

    ghost output = { λ x. Some (best_word x.0) };

    fn fmt<W: fmt::Write>(&self, f: &mut fmt::Formatter<W>) -> fmt::Result {
        match self.0 {
            None => write!(f, "none"),
            Some(delay) => write!(f, "{delay}"),
        }
    }
}

/// The line of a search that stopped.
fn stopped_line(
    alloc: Global,
    until: Option<u32>,
    why: Why,
    low: u32,
    best: Option<u64>,
) -> Result<String, AllocError>
    ensures { IfOk result (λ line. string_bytes line ≡ stopped_line until why low best) }
{
    let is_enough = is_enough(until, best);
    let why = WhyWord { why, is_enough };
    let best = BestWord(best);
    format!(in alloc; "stopped {why} {low} {best}\n")
}

/// That line and then the best plan's text, where there is a plan.
fn stopped_text(
    alloc: Global,
    until: Option<u32>,
    instance: &Instance,
    why: Why,
    low: u32,
    best: &Option<FoundPlan>,
) -> Result<Vec<u8>, MemoryFault>
    requires { IsBestPlan instance.now (stated best.now) }
    ensures { IfOk result (λ text. IsStoppedText until instance.now why low best.now text.items) }
{
    match best {
        None => {
            let line = stopped_line(alloc, until, why, low, None)?;
            Ok(Vec::from_slice(alloc, line.as_bytes())?)
        }
        Some(found) => {
            let line = stopped_line(alloc, until, why, low, Some(found.delay))?;
            let mut text = Vec::from_slice(alloc, line.as_bytes())?;
            let plan = plan_format::print(alloc, instance, &found.plan)?;
            text.extend_from_slice(plan.as_slice())?;
            Ok(text)
        }
    }
}

/// What is written of an answer.
pub fn answer_text(
    alloc: Global,
    until: Option<u32>,
    instance: &Instance,
    outcome: &Outcome,
) -> Result<Vec<u8>, MemoryFault>
    requires { Shows instance.now outcome.now }
    ensures { IfOk result (λ text. IsAnswerText until instance.now outcome.now text.items) }
{
    match outcome {
        Outcome::Optimal { plan, .. } => plan_format::print(alloc, instance, plan),
        Outcome::Infeasible { .. } => Ok(Vec::from_slice(alloc, b"none\n")?),
        Outcome::Stopped { why, low, best, .. } => {
            stopped_text(alloc, until, instance, *why, *low, best)
        }
    }
}

/// The end at which an answer is told.
fn end_of(outcome: &Outcome) -> End
    ensures { result ≡ end_told outcome.now }
{
    match outcome {
        Outcome::Optimal { .. } => End::Done,
        Outcome::Infeasible { .. } => End::Absent,
        Outcome::Stopped { .. } => End::Stopped,
    }
}

/// The certificate of an answer.
fn cert_of(outcome: &Outcome) -> &Cert
    ensures { result.now ≡ cert_of outcome.now }
{
    match outcome {
        Outcome::Optimal { cert, .. } => cert,
        Outcome::Infeasible { cert } => cert,
        Outcome::Stopped { cert, .. } => cert,
    }
}

/// Searches an instance from a plan, where one is given, and tells a follower of it.
fn searched<R: Threads + Wait + Sync, G: Follower + Sync>(
    rt: &R,
    alloc: Global,
    instance: &Instance,
    start: Option<Plan>,
    asked: Asked,
    follower: &G,
) -> Result<Outcome, SolveFault>
    requires { IfSome start (IsValid instance.now) }
    ensures answer { IfOk result (IsOutcome instance.now asked.options asked.enough.gap) }
    ensures shows { IfOk result (Shows instance.now) }
    ensures called_off { IfOk result (λ outcome. IsCalledOff outcome → G.ends follower.now) }
    ensures told { IfOk result (λ outcome. IfSome (best_of outcome) (λ best. G.heard follower.now instance.now best)) }
    ensures start { IfOk result (λ outcome. IfSome start (λ plan. limit_of instance.now (best_of outcome) ≤ delay instance.now plan)) }
{
    let site = Site {
        alloc,
        instance,
        gate: follower,
    };
    follower.begin(alloc, instance);
    let (options, gap) = (asked.options, asked.enough.gap);
    let searched = if asked.is_wide {
        solve_wide(rt, &site, options, gap, start)
    } else {
        solve_towards(rt, &site, options, gap, start)
    };
    follower.end();
    searched
}

/// Searches an instance from a plan, where one is given, and makes the answer's text.
fn solved_instance<R: Threads + Wait + Sync, G: Follower + Sync>(
    rt: &R,
    alloc: Global,
    instance: Instance,
    start: Option<Plan>,
    asked: Asked,
    follower: &G,
) -> Result<Solved, Fault>
    requires { IfSome start (IsValid instance) }
    ensures found { MatchResult result (IsSearchOf instance start asked.options asked.enough (G.ends follower.now)) IsNoSearch }
    ensures printable { IfOk result (λ solved.
        Allows (cert_of solved.outcome).version (cert_of solved.outcome).tree) }
{
    let _nodes = instance.nodes();
    let outcome = match searched(rt, alloc, &instance, start, asked, follower) {
        Ok(outcome) => outcome,
        Err(fault) => {
            drop(instance);
            return Err(Fault::Search(told_as(fault)));
        }
    };
    match answer_text(alloc, asked.enough.until, &instance, &outcome) {
        Ok(text) => Ok(Solved {
            instance,
            outcome,
            text,
        }),
        Err(_) => {
            drop(instance);
            drop(outcome);
            Err(Fault::Memory)
        }
    }
}

/// Searches the instance that a reader's bytes state.
fn solved_of_reader<R: Threads + Wait + Sync, G: Follower + Sync, I: Read>(
    rt: &R,
    alloc: Global,
    instance: &mut I,
    asked: Asked,
    follower: &G,
) -> Result<Solved, Fault>
    ensures judged { IfSome (I.remaining instance.old) (λ bytes. MatchResult result
        (IsSolved bytes asked.options asked.enough (G.ends follower.now))
        (IsUnsolved bytes)) }
    ensures printable { IfOk result (λ solved.
        Allows (cert_of solved.outcome).version (cert_of solved.outcome).tree) }
    ensures most { TakesAtMost (INSTANCE_LIMIT + 1) (I.remaining instance.old) (I.remaining instance.new) }
{
    let instance = read_instance(alloc, instance)?;
    solved_instance(rt, alloc, instance, None, asked, follower)
}

/// Searches the instance that a reader's bytes state, from the valid plan that another's have printed.
fn solved_of_readers<R: Threads + Wait + Sync, G: Follower + Sync, I: Read, P: Read>(
    rt: &R,
    alloc: Global,
    instance: &mut I,
    start: &mut P,
    asked: Asked,
    follower: &G,
) -> Result<Solved, Fault>
    ensures judged { IfSome (I.remaining instance.old) (λ bytes. IfSome (P.remaining start.old) (λ plan. MatchResult result
        (IsSolvedFrom bytes plan asked.options asked.enough (G.ends follower.now))
        (IsUnsolvedFrom bytes plan))) }
    ensures printable { IfOk result (λ solved.
        Allows (cert_of solved.outcome).version (cert_of solved.outcome).tree) }
    ensures instance { TakesAtMost (INSTANCE_LIMIT + 1) (I.remaining instance.old) (I.remaining instance.new) }
    ensures plan { TakesAtMost (printed_limit + 1) (P.remaining start.old) (P.remaining start.new) }
    ensures unread { IfErr result (λ fault. IsOfInstance fault → Keeps (P.remaining start.old) (P.remaining start.new)) }
{
    let Verified { instance, plan, .. } = printed_of_readers(alloc, instance, start)?;
    solved_instance(rt, alloc, instance, Some(plan), asked, follower)
}

/// Writes a certificate whose version allows all its lines.
pub fn write_certificate<C: Write>(alloc: Global, cert: &Cert, out: &mut C) -> Result<(), Fault>
    requires { Allows cert.now.version cert.now.tree }
    ensures { IsCertifying cert.now (C.contents out.old) (C.contents out.new) result }
{
    let Ok(text) = certificate::print(alloc, cert) else {
        return Err(Fault::Memory);
    };
    match write_text(out, text.as_slice()) {
        Ok(()) => Ok(()),
        Err(_) => Err(Fault::Unwritten(Sink::Certificate)),
    }
}

/// Writes an answer's text, and ends as the answer does.
fn write_answer<W: Write>(solved: &Solved, out: &mut W) -> End
    ensures { IsWritingTo (end_told solved.now.outcome) solved.now.text.items
        (W.contents out.old) (W.contents out.new) result }
{
    match write_text(out, solved.text.as_slice()) {
        Ok(()) => end_of(&solved.outcome),
        Err(_) => End::Refused(Fault::Unwritten(Sink::Out)),
    }
}

/// Writes what was found, where no certificate is asked for.
pub fn tell<W: Write>(found: Result<Solved, Fault>, out: &mut W) -> End
    ensures { IsTellingOf found false None None (W.contents out.old) (W.contents out.new) result }
{
    match found {
        Ok(solved) => write_answer(&solved, out),
        Err(fault) => End::Refused(fault),
    }
}

/// Writes what was found behind its certificate.
pub fn tell_certified<C: Write, W: Write>(
    alloc: Global,
    found: Result<Solved, Fault>,
    certificate: &mut C,
    out: &mut W,
) -> End
    requires { IfOk found (λ solved. Allows (cert_of solved.outcome).version (cert_of solved.outcome).tree) }
    ensures { IsTellingOf found true (C.contents certificate.old) (C.contents certificate.new)
        (W.contents out.old) (W.contents out.new) result }
{
    let solved = match found {
        Ok(solved) => solved,
        Err(fault) => return End::Refused(fault),
    };
    match write_certificate(alloc, cert_of(&solved.outcome), certificate) {
        Ok(()) => {
            let end = write_answer(&solved, out);
            drop(solved);
            end
        }
        Err(fault) => {
            drop(solved);
            End::Refused(fault)
        }
    }
}

/// Searches and writes as `solve_run` does, and tells a follower how the search goes on. Where that one calls the search off, the word in the line
/// `stopped` is `until` where the best plan takes at most as many ticks as are given here, and else `time`.
pub fn solve_run_with<R: Threads + Wait + Sync, G: Follower + Sync, I: Read, C: Write, W: Write>(
    rt: &R,
    alloc: Global,
    instance: &mut I,
    asked: Asked,
    follower: &G,
    certificate: Option<&mut C>,
    out: &mut W,
) -> End
    ensures answer { IfSome (I.remaining instance.old) (λ bytes.
        IsSolveAnswer bytes asked.options asked.enough (G.ends follower.now) (is_some certificate.entry)
        (held C.contents certificate.entry) (left C.contents certificate.exit)
        (W.contents out.old) (W.contents out.new) result) }
    ensures most { TakesAtMost (INSTANCE_LIMIT + 1) (I.remaining instance.old) (I.remaining instance.new) }
{
    let found = solved_of_reader(rt, alloc, instance, asked, follower);
    match certificate {
        None => tell(found, out),
        Some(writer) => tell_certified(alloc, found, writer, out),
    }
}

/// Searches and writes as `solve_run_with` does, and begins with a plan: that is read behind the instance, as a search prints it or its text alone, and
/// refused as by `verify`. The plan that is answered takes no longer.
pub fn solve_run_from<
    R: Threads + Wait + Sync,
    G: Follower + Sync,
    I: Read,
    P: Read,
    C: Write,
    W: Write,
>(
    rt: &R,
    alloc: Global,
    instance: &mut I,
    start: &mut P,
    asked: Asked,
    follower: &G,
    certificate: Option<&mut C>,
    out: &mut W,
) -> End
    ensures answer { IfSome (I.remaining instance.old) (λ bytes. IfSome (P.remaining start.old) (λ plan.
        IsStartedAnswer bytes plan asked.options asked.enough (G.ends follower.now) (is_some certificate.entry)
        (held C.contents certificate.entry) (left C.contents certificate.exit)
        (W.contents out.old) (W.contents out.new) result)) }
    ensures instance { TakesAtMost (INSTANCE_LIMIT + 1) (I.remaining instance.old) (I.remaining instance.new) }
    ensures plan { TakesAtMost (printed_limit + 1) (P.remaining start.old) (P.remaining start.new) }
    // Where the instance is refused, the plan is left unread.
    ensures unread { IfRefused result (λ fault. IsOfInstance fault → Keeps (P.remaining start.old) (P.remaining start.new)) }
{
    let found = solved_of_readers(rt, alloc, instance, start, asked, follower);
    match certificate {
        None => tell(found, out),
        Some(writer) => tell_certified(alloc, found, writer, out),
    }
}

/// Reads an instance, searches it, and writes what was found: the text of a plan whose delay is the least; `none`
/// where no plan is valid, and then the end is `Absent`; or, where the search was stopped, a line `stopped` with the
/// word `budget` or `memory` or `gap`, a delay in ticks that no plan is below, and the delay of the best plan found, or the
/// word `none`, followed by that plan's text, and then the end is `Stopped`. The certificate is written first,
/// whatever was found. Both texts are made before one is written: where memory is refused nothing is written, and
/// where the certificate's writer fails nothing but a prefix of it is.
pub fn solve_run<R: Threads + Wait + Sync, I: Read, C: Write, W: Write>(
    rt: &R,
    alloc: Global,
    instance: &mut I,
    options: Options,
    certificate: Option<&mut C>,
    out: &mut W,
) -> End
    ensures answer { IfSome (I.remaining instance.old) (λ bytes.
        IsSolveAnswer bytes options (record { until = None; gap = 0 }) ⊥ (is_some certificate.entry)
        (held C.contents certificate.entry) (left C.contents certificate.exit)
        (W.contents out.old) (W.contents out.new) result) }
    // No more is taken of the reader than its limit and one byte.
    ensures most { TakesAtMost (INSTANCE_LIMIT + 1) (I.remaining instance.old) (I.remaining instance.new) }
{
    let asked = Asked {
        options,
        enough: Enough {
            until: None,
            gap: 0,
        },
        is_wide: false,
    };
    let found = solved_of_reader(rt, alloc, instance, asked, &FreeGate);
    match certificate {
        None => tell(found, out),
        Some(writer) => tell_certified(alloc, found, writer, out),
    }
}
