//! Which valid plan has a printed text: that of a plan, or what a search printed, in which a line stands in front of the plan?

ghost use Rattle.std.specs.Prelude.{◌≡◌, ◌+◌, ◌≤◌, length, IfErr, IfOk, IfSome, MatchResult};
ghost use Rattle.ttp_model.specs.Plans.{IsValid};
ghost use Rattle.std.specs.Io.KnownBytes.{Keeps};
ghost use Rattle.command_streams.specs.declared.limits.TheConstants.{INSTANCE_LIMIT};
ghost use Rattle.command_streams.specs.Streams.{IsReadFault, TakesAtMost};
ghost use Rattle.command_streams.specs.Instances.{IsOfInstance};
ghost use Rattle.plan_commands.specs.Printed.{CanBeBehind, HasLineBehind, HasPlanBehind, IsAtFaultOrLong, IsPlanFaultBehind, IsPrinted, IsPrintedFor, IsUnprinted, LacksPlanBehind, LacksPrintedPlan, bare_fault, error_behind_line, printed_limit, told_behind};
ghost use Rattle.plan_commands.specs.Verdicts.{HasValidPlan};
ghost use Rattle.command_streams.specs.declared.ending.Source.{Source};

use crate::front::{Front, front_of};
use crate::verdict::{Verified, verified_of_text};
use command_streams::{Fault, PLAN_LIMIT, Source, read_all, read_instance};
use plan_format::{LineFault, PlanTextError};
use std::alloc::Global;
use std::io::Read;
use ttp_model::Instance;

/// The bytes of the longest line in front of a plan: two numbers of ten digits, three words and what parts them, and its end.
const LONGEST_ANSWER_LINE: usize = 37;

/// The bytes of a printed text, at most.
const PRINTED_LIMIT: usize = PLAN_LIMIT + LONGEST_ANSWER_LINE;

/// The bytes of a reader, where they are no more than a printed text may have.
pub fn read_printed<P: Read>(alloc: Global, plan: &mut P) -> Result<Vec<u8>, Fault>
    ensures read { IfOk result (λ read. IfSome (P.remaining plan.old) (λ bytes. read.items ≡ bytes)) }
    ensures err { IfErr result (IsReadFault Source.Plan printed_limit (P.remaining plan.old)) }
    ensures most { TakesAtMost (printed_limit + 1) (P.remaining plan.old) (P.remaining plan.new) }
{
    read_all(alloc, plan, PRINTED_LIMIT, Source::Plan)
}

/// The error of a text in which one line more stands in front of the plan.
fn error_behind_line(error: PlanTextError) -> PlanTextError
    requires { HasLineBehind error }
    ensures { result ≡ error_behind_line error }
{
    match error {
        PlanTextError::At { line, fault } => PlanTextError::At {
            line: line + 1,
            fault,
        },
        PlanTextError::OutOfMemory => PlanTextError::OutOfMemory,
    }
}

/// The fault of what stands behind such a front, with lines counted from the first of all.
fn told_behind(front: Front, fault: Fault) -> Fault
    requires { CanBeBehind fault }
    ensures { result ≡ told_behind front fault }
{
    match front {
        Front::Plan | Front::Bare | Front::NoPlan => fault,
        Front::Headed => match fault {
            Fault::PlanText(error) => Fault::PlanText(error_behind_line(error)),
            other => other,
        },
    }
}

/// The valid plan whose text stands behind such a front.
pub fn verified_behind(
    alloc: Global,
    instance: Instance,
    front: Front,
    rest: &[u8],
) -> Result<Verified, Fault>
    requires { length rest.now ≤ PLAN_LIMIT }
    ensures judged { MatchResult result
        (λ v. (v.instance ≡ instance) × HasValidPlan instance rest.now v.plan v.delay)
        (IsPlanFaultBehind instance front rest.now) }
{
    let _nodes = instance.nodes();
    match verified_of_text(alloc, instance, rest) {
        Ok(verified) => Ok(verified),
        Err(fault) => Err(told_behind(front, fault)),
    }
}

/// The fault of what stands behind a line that says that no plan was found.
pub fn bare_fault(rest: &[u8]) -> LineFault
    ensures { result ≡ bare_fault rest.now }
{
    if rest.is_empty() {
        LineFault::EarlyEnd
    } else {
        LineFault::Trailing
    }
}

/// That there is no plan, as is told of a line.
fn no_plan(line: u32, fault: LineFault) -> Fault
    ensures { result ≡ Fault.PlanText (PlanTextError.At line fault) }
{
    Fault::PlanText(PlanTextError::At { line, fault })
}

/// The valid plan that stands behind such a front.
fn printed_behind(
    alloc: Global,
    instance: Instance,
    front: Front,
    rest: &[u8],
) -> Result<Verified, Fault>
    requires { length rest.now ≤ PLAN_LIMIT }
    ensures judged { MatchResult result
        (λ v. (v.instance ≡ instance) × HasPlanBehind instance front rest.now v.plan v.delay)
        (LacksPlanBehind instance front rest.now) }
{
    match front {
        Front::Plan | Front::Headed => verified_behind(alloc, instance, front, rest),
        Front::Bare => Err(no_plan(2, bare_fault(rest))),
        Front::NoPlan => Err(no_plan(1, LineFault::Form)),
    }
}

/// The valid plan of a printed text.
pub fn printed_of_text(alloc: Global, instance: Instance, bytes: &[u8]) -> Result<Verified, Fault>
    ensures judged { MatchResult result
        (IsPrintedFor instance bytes.now)
        (IsAtFaultOrLong LacksPrintedPlan instance bytes.now) }
    ensures later { IfErr result (λ fault. ¬ IsOfInstance fault) }
{
    let (front, rest) = front_of(bytes);
    if rest.len() > PLAN_LIMIT {
        return Err(Fault::TooLong(Source::Plan));
    }
    printed_behind(alloc, instance, front, rest)
}

/// The instance that the first reader's bytes state, with the valid plan of it that the second one's have printed: alone, or behind the
/// line that a search prints in front of one. The instance is read and judged first, then the plan, as `verify` does; the lines of a
/// text are counted from its first.
pub fn printed_of_readers<I: Read, P: Read>(
    alloc: Global,
    instance: &mut I,
    plan: &mut P,
) -> Result<Verified, Fault>
    ensures judged { IfSome (I.remaining instance.old) (λ i. IfSome (P.remaining plan.old) (λ p. MatchResult result
        (IsPrinted i p)
        (IsUnprinted i p))) }
    ensures valid { IfOk result (λ v. IsValid v.instance v.plan) }
    ensures instance { TakesAtMost (INSTANCE_LIMIT + 1) (I.remaining instance.old) (I.remaining instance.new) }
    ensures plan { TakesAtMost (printed_limit + 1) (P.remaining plan.old) (P.remaining plan.new) }
    ensures order { IfErr result (λ fault. IsOfInstance fault → Keeps (P.remaining plan.old) (P.remaining plan.new)) }
{
    let instance = read_instance(alloc, instance)?;
    let bytes = read_printed(alloc, plan)?;
    printed_of_text(alloc, instance, bytes.as_slice())
}
