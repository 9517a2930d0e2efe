//! What does `judge` say of an instance, a plan and a certificate?

ghost use Rattle.std.specs.Prelude.{◌≡◌, ◌+◌, ◌≤◌, length, string_bytes, Some, IfErr, IfOk, IfSome, MatchResult};
ghost use Rattle.std.specs.Io.KnownBytes.{Keeps};
ghost use Rattle.command_streams.specs.declared.limits.TheConstants.{INSTANCE_LIMIT};
ghost use Rattle.command_streams.specs.Streams.{TakesAtMost};
ghost use Rattle.command_streams.specs.Instances.{IsOfInstance};
ghost use Rattle.command_streams.specs.Outcomes.{IfRefused};
ghost use Rattle.plan_commands.specs.Certified.{certificate_limit};
ghost use Rattle.plan_commands.specs.Printed.{IsAtFaultOrLong, IsPlanFaultBehind, printed_limit};
ghost use Rattle.plan_commands.specs.Judged.{HasNoStanding, HasPlanOf, IsBeforeCertificate, IsJudgeAnswer, IsJudgementOf, IsMore, IsNothing, IsRefusedBehind, IsRefusedPlace, IsStanding, IsWritingJudgement, StandsBehind, StandsFor, end_of, judgement_line, judgement_text, limit_of};

use crate::certified::read_any_bound;
use crate::front::{Front, front_of};
use crate::printed::{read_printed, verified_behind};
use command_streams::{End, Fault, PLAN_LIMIT, Sink, Source, read_instance, write_text};
use plan_format::{LineFault, PlanTextError};
use std::alloc::{AllocError, Global};
use std::fmt;
use std::io::{Read, Write};
use std::thread::Threads;
use ttp_model::Instance;

/// An instance, and the delay in ticks of the plan that is given for it, or none where it is said that there is no plan.
#[derive(Drop)]
pub struct Standing {
    pub instance: Instance,
    pub best: Option<u64>,
}

/// What a certificate's bound says of what is given. Delays and bounds are in ticks.
#[derive(Clone, Copy, PartialEq, Eq)]
pub enum Judgement {
    /// No valid plan has a smaller delay than this one, which the given plan has.
    Least(u64),
    /// No plan is valid.
    NoPlan,
    /// No valid plan has a delay below `low`, and the given one, if there is any, has this delay, which is larger.
    Between { low: u32, best: Option<u64> },
}

impl fmt::Display for Judgement {
    ghost output = { λ judgement. Some (judgement_text judgement) };

    fn fmt<W: fmt::Write>(&self, f: &mut fmt::Formatter<W>) -> fmt::Result {
        match self {
            Judgement::Least(delay) => write!(f, "least {delay}"),
            Judgement::NoPlan => write!(f, "none"),
            Judgement::Between { low, best } => match best {
                Some(delay) => write!(f, "between {low} {delay}"),
                None => write!(f, "between {low} none"),
            },
        }
    }
}

/// The delay of the plan that stands behind such a front.
fn standing_of_plan(
    alloc: Global,
    instance: Instance,
    front: Front,
    rest: &[u8],
) -> Result<Standing, Fault>
    requires { length rest.now ≤ PLAN_LIMIT }
    ensures judged { MatchResult result
        (λ standing. (standing.instance ≡ instance) × HasPlanOf instance rest.now standing.best)
        (IsPlanFaultBehind instance front rest.now) }
{
    match verified_behind(alloc, instance, front, rest) {
        Ok(verified) => Ok(Standing {
            instance: verified.instance,
            best: Some(verified.delay),
        }),
        Err(fault) => Err(fault),
    }
}

/// That there is no plan, where nothing stands behind such a front.
fn standing_of_none(instance: Instance, rest: &[u8]) -> Result<Standing, Fault>
    requires { length rest.now ≤ PLAN_LIMIT }
    ensures judged { MatchResult result
        (λ standing. (standing.instance ≡ instance) × IsNothing rest.now standing.best)
        (IsMore rest.now) }
{
    if rest.is_empty() {
        let best = None;
        Ok(Standing { instance, best })
    } else {
        let fault = LineFault::Trailing;
        Err(Fault::PlanText(PlanTextError::At { line: 2, fault }))
    }
}

/// What stands behind such a front stands for a plan's delay, or for that there is no plan.
fn standing_behind(
    alloc: Global,
    instance: Instance,
    front: Front,
    rest: &[u8],
) -> Result<Standing, Fault>
    requires { length rest.now ≤ PLAN_LIMIT }
    ensures judged { MatchResult result
        (λ standing. (standing.instance ≡ instance) × StandsBehind instance front rest.now standing.best)
        (IsRefusedBehind instance front rest.now) }
{
    match front {
        Front::Plan | Front::Headed => standing_of_plan(alloc, instance, front, rest),
        Front::Bare | Front::NoPlan => standing_of_none(instance, rest),
    }
}

/// What the bytes in a plan's place stand for.
fn standing_of_text(alloc: Global, instance: Instance, bytes: &[u8]) -> Result<Standing, Fault>
    ensures judged { MatchResult result
        (λ standing. (standing.instance ≡ instance) × StandsFor instance bytes.now standing.best)
        (IsAtFaultOrLong IsRefusedPlace instance bytes.now) }
    ensures later { IfErr result (λ fault. ¬ IsOfInstance fault) }
{
    let (front, rest) = front_of(bytes);
    if rest.len() > PLAN_LIMIT {
        return Err(Fault::TooLong(Source::Plan));
    }
    standing_behind(alloc, instance, front, rest)
}

/// The instance that the first reader's bytes state, and what the second one's stand for. The instance is read and judged first.
fn standing_of_readers<I: Read, P: Read>(
    alloc: Global,
    instance: &mut I,
    plan: &mut P,
) -> Result<Standing, Fault>
    ensures judged { IfSome (I.remaining instance.old) (λ i. IfSome (P.remaining plan.old) (λ p. MatchResult result
        (IsStanding i p)
        (HasNoStanding i p))) }
    ensures instance { TakesAtMost (INSTANCE_LIMIT + 1) (I.remaining instance.old) (I.remaining instance.new) }
    ensures plan { TakesAtMost (printed_limit + 1) (P.remaining plan.old) (P.remaining plan.new) }
    ensures order { IfErr result (λ fault. IsOfInstance fault → Keeps (P.remaining plan.old) (P.remaining plan.new)) }
{
    let instance = read_instance(alloc, instance)?;
    let bytes = read_printed(alloc, plan)?;
    standing_of_text(alloc, instance, bytes.as_slice())
}

/// The first delay that isn't asked for: that of the given plan, or one tick past the horizon.
fn limit_of(standing: &Standing) -> u64
    ensures { result ≡ limit_of standing.now.instance standing.now.best }
{
    match standing.best {
        Some(delay) => delay,
        None => u64::from(standing.instance.past_horizon()),
    }
}

/// What a bound says of what is given.
fn judgement_of(standing: &Standing, low: u32) -> Judgement
    ensures { low ≤ limit_of standing.now.instance standing.now.best →
        IsJudgementOf standing.now.instance standing.now.best low result }
{
    let best = standing.best;
    if u64::from(low) < limit_of(standing) {
        return Judgement::Between { low, best };
    }
    match best {
        Some(delay) => Judgement::Least(delay),
        None => Judgement::NoPlan,
    }
}

/// The end at which a judgement is told.
fn end_of(judgement: Judgement) -> End
    ensures { result ≡ end_of judgement }
{
    match judgement {
        Judgement::Least(_) => End::Done,
        Judgement::NoPlan => End::Absent,
        Judgement::Between { .. } => End::Stopped,
    }
}

/// The line of a judgement.
fn judgement_line(alloc: Global, judgement: Judgement) -> Result<String, AllocError>
    ensures { IfOk result (λ line. string_bytes line ≡ judgement_line judgement) }
{
    format!(in alloc; "{judgement}\n")
}

/// Writes a judgement's line, and ends as the judgement does.
fn write_judgement<W: Write>(alloc: Global, judgement: Judgement, out: &mut W) -> End
    ensures { IsWritingJudgement judgement (W.contents out.old) (W.contents out.new) result }
{
    let Ok(line) = judgement_line(alloc, judgement) else {
        return End::Refused(Fault::Memory);
    };
    match write_text(out, line.as_bytes()) {
        Ok(()) => end_of(judgement),
        Err(_) => End::Refused(Fault::Unwritten(Sink::Out)),
    }
}

/// Reads an instance, a plan and a certificate, and writes what the certificate's bound says of the plan: `least` with its delay
/// in ticks, where the bound is that delay; or `between` with the bound and the delay, where the bound is smaller, and then the
/// end is `Stopped`. In the plan's place may stand whatever a search printed: a line `stopped`, `limit` or `between`, and behind it
/// the plan, where one was found; or the word `none`. Where no plan is given `none` is written where the bound is one tick past the horizon, and then the end is
/// `Absent`; and `between` with the bound and the word `none` where it is smaller. The instance is read and judged first, as
/// `verify` does, then the plan, and then the certificate as `check` does, which may be long or not. Where anything else ends the command nothing is
/// written, and after a failed write a prefix of the line stands.
pub fn judge_run<I: Read, P: Read, C: Read, W: Write>(
    rt: &(impl Threads + Sync),
    alloc: Global,
    is_long: bool,
    instance: &mut I,
    plan: &mut P,
    certificate: &mut C,
    out: &mut W,
) -> End
    ensures answer { IfSome (I.remaining instance.old) (λ i. IfSome (P.remaining plan.old) (λ p. IfSome (C.remaining certificate.old) (λ c.
        IsJudgeAnswer (certificate_limit is_long) i p c (W.contents out.old) (W.contents out.new) result))) }
    // Of a reader no more is taken than its limit and one byte; of the plan's nothing at a fault of the instance, and of the
    // certificate's nothing at a fault of either.
    ensures instance { TakesAtMost (INSTANCE_LIMIT + 1) (I.remaining instance.old) (I.remaining instance.new) }
    ensures plan { TakesAtMost (printed_limit + 1) (P.remaining plan.old) (P.remaining plan.new) }
    ensures certificate { TakesAtMost (certificate_limit is_long + 1) (C.remaining certificate.old) (C.remaining certificate.new) }
    ensures order { IfRefused result (λ fault. IsOfInstance fault → Keeps (P.remaining plan.old) (P.remaining plan.new)) }
    ensures last { IfRefused result (λ fault. IsBeforeCertificate fault → Keeps (C.remaining certificate.old) (C.remaining certificate.new)) }
{
    let standing = match standing_of_readers(alloc, instance, plan) {
        Ok(standing) => standing,
        Err(fault) => return End::Refused(fault),
    };
    match read_any_bound(rt, alloc, is_long, &standing.instance, certificate) {
        Ok(low) => write_judgement(alloc, judgement_of(&standing, low), out),
        Err(fault) => End::Refused(fault),
    }
}
