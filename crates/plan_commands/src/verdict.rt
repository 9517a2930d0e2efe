//! What `verify` says of an instance and a plan.

ghost use Rattle.std.specs.Prelude.{◌≡◌, ◌≤◌, ◌+◌, length, string_bytes, IfErr, IfOk, IfSome, MatchResult};
ghost use Rattle.ttp_model.specs.Plans.{IsValid};
ghost use Rattle.plan_commands.specs.Verdicts.{HasValidPlan, IsPlanFault, IsRefused, IsVerdict, IsVerified, IsVerifiedPlan, valid_line};
ghost use Rattle.std.specs.Io.KnownBytes.{Keeps};
ghost use Rattle.command_streams.specs.declared.limits.TheConstants.{INSTANCE_LIMIT};
ghost use Rattle.command_streams.specs.Streams.{IsOfReadBytes, TakesAtMost};
ghost use Rattle.command_streams.specs.Instances.{IsOfInstance};
ghost use Rattle.command_streams.specs.Outcomes.{IfRefused, IsWritingUnlessMemory};

use command_streams::{End, Fault, PLAN_LIMIT, Source, end_with, read_all, read_instance};
use std::alloc::{AllocError, Global};
use std::io::{Read, Write};
use ttp_model::{Instance, Plan};

/// An instance, and a valid plan of it that states its own delay.
#[derive(Drop)]
pub struct Verified {
    pub instance: Instance,
    pub plan: Plan,
    /// The plan's delay, in ticks.
    pub delay: u64,
}

/// The plan that the bytes spell for the instance, and its delay in ticks, where the plan is valid and states that delay.
fn valid_of_text(alloc: Global, instance: &Instance, bytes: &[u8]) -> Result<(Plan, u64), Fault>
    requires { length bytes.now ≤ PLAN_LIMIT }
    ensures judged { MatchResult result
        (λ valid. HasValidPlan instance.now bytes.now valid.0 valid.1)
        (IsPlanFault instance.now bytes.now) }
    ensures valid { IfOk result (λ valid. IsValid instance.now valid.0) }
    ensures read { IfErr result IsOfReadBytes }
    ensures later { IfErr result (λ fault. ¬ IsOfInstance fault) }
{
    let (plan, stated) = match plan_format::read(alloc, instance, bytes) {
        Ok(read) => read,
        Err(error) => return Err(Fault::PlanText(error)),
    };
    let delay = match plan_check::check(instance, &plan) {
        Ok(delay) => delay,
        Err(fault) => {
            drop(plan);
            return Err(Fault::Plan(fault));
        }
    };
    if delay != u64::from(stated) {
        drop(plan);
        return Err(Fault::StatedDelay(delay));
    }
    Ok((plan, delay))
}

/// The instance with the plan that the bytes spell for it, where the plan is valid and states its own delay.
pub fn verified_of_text(alloc: Global, instance: Instance, bytes: &[u8]) -> Result<Verified, Fault>
    requires { length bytes.now ≤ PLAN_LIMIT }
    ensures judged { MatchResult result
        (IsVerifiedPlan instance bytes.now)
        (IsPlanFault instance bytes.now) }
    ensures valid { IfOk result (λ v. IsValid v.instance v.plan) }
    ensures read { IfErr result IsOfReadBytes }
    ensures later { IfErr result (λ fault. ¬ IsOfInstance fault) }
{
    match valid_of_text(alloc, &instance, bytes) {
        Ok((plan, delay)) => Ok(Verified {
            instance,
            plan,
            delay,
        }),
        Err(fault) => {
            drop(instance);
            Err(fault)
        }
    }
}

/// The instance that the first reader's bytes state, with the valid plan of it that the second one's spell. The
/// instance is read and judged first, then the plan's text, then the plan, then its stated delay.
pub fn verified_of_readers<I: Read, P: Read>(
    alloc: Global,
    instance: &mut I,
    plan: &mut P,
) -> Result<Verified, Fault>
    ensures judged { IfSome (I.remaining instance.old) (λ i. IfSome (P.remaining plan.old) (λ p. MatchResult result
        (IsVerified i p)
        (IsRefused i p))) }
    ensures valid { IfOk result (λ v. IsValid v.instance v.plan) }
    ensures instance { TakesAtMost (INSTANCE_LIMIT + 1) (I.remaining instance.old) (I.remaining instance.new) }
    ensures plan { TakesAtMost (PLAN_LIMIT + 1) (P.remaining plan.old) (P.remaining plan.new) }
    ensures order { IfErr result (λ fault. IsOfInstance fault → Keeps (P.remaining plan.old) (P.remaining plan.new)) }
{
    let instance = read_instance(alloc, instance)?;
    let bytes = read_all(alloc, plan, PLAN_LIMIT, Source::Plan)?;
    verified_of_text(alloc, instance, bytes.as_slice())
}

/// The line of a valid plan with this delay, in ticks.
fn valid_line(alloc: Global, delay: u64) -> Result<String, AllocError>
    ensures { IfOk result (λ line. string_bytes line ≡ valid_line delay) }
{
    format!(in alloc; "valid {delay}\n")
}

/// Writes that a plan is valid.
pub fn write_verdict<W: Write>(alloc: Global, delay: u64, out: &mut W) -> End
    ensures { IsWritingUnlessMemory (valid_line delay) (W.contents out.old) (W.contents out.new) result }
{
    match valid_line(alloc, delay) {
        Ok(line) => end_with(out, line.as_bytes()),
        Err(_) => End::Refused(Fault::Memory),
    }
}

/// Reads an instance and a plan, and writes `valid` with the delay, in ticks, of a plan that is valid and states
/// it. The instance is read and judged first, then the plan's text, then the plan, then its stated delay. Where
/// anything else ends the command nothing is written, and after a failed write a prefix of the line stands.
pub fn verify<I: Read, P: Read, W: Write>(
    alloc: Global,
    instance: &mut I,
    plan: &mut P,
    out: &mut W,
) -> End
    ensures verdict { IfSome (I.remaining instance.old) (λ i. IfSome (P.remaining plan.old) (λ p.
        IsVerdict i p (W.contents out.old) (W.contents out.new) result)) }
    // Of a reader no more is taken than its limit and one byte, and of the plan's nothing at a fault of the instance.
    ensures instance { TakesAtMost (INSTANCE_LIMIT + 1) (I.remaining instance.old) (I.remaining instance.new) }
    ensures plan { TakesAtMost (PLAN_LIMIT + 1) (P.remaining plan.old) (P.remaining plan.new) }
    ensures order { IfRefused result (λ fault. IsOfInstance fault → Keeps (P.remaining plan.old) (P.remaining plan.new)) }
{
    match verified_of_readers(alloc, instance, plan) {
        Ok(verified) => {
            let end = write_verdict(alloc, verified.delay, out);
            drop(verified);
            end
        }
        Err(fault) => End::Refused(fault),
    }
}
