//! Which valid plan of an instance do the bytes of a reader spell?

ghost use Rattle.std.specs.Prelude.{◌+◌, ◌≤◌, IfOk, IfSome, MatchResult, length};
ghost use Rattle.ttp_model.specs.Plans.{IsValid};
ghost use Rattle.command_streams.specs.declared.limits.TheConstants.{PLAN_LIMIT};
ghost use Rattle.command_streams.specs.Streams.{TakesAtMost};
ghost use Rattle.rates_command.specs.ReadPlans.{HasPlanOf, IsPlanFault, IsPlanRefusal};

use command_streams::{Fault, PLAN_LIMIT, Source, read_all};
use std::alloc::Global;
use std::io::Read;
use ttp_model::{Instance, Plan};

/// The plan that bytes spell, where it is valid and states its own delay.
fn plan_of_text(alloc: Global, instance: &Instance, bytes: &[u8]) -> Result<Plan, Fault>
    requires { length bytes.now ≤ PLAN_LIMIT }
    ensures judged { MatchResult result (HasPlanOf instance.now bytes.now) (IsPlanFault instance.now bytes.now) }
    ensures valid { IfOk result (IsValid instance.now) }
{
    let (plan, stated) = match plan_format::read(alloc, instance, bytes) {
        Ok(read) => read,
        Err(error) => return Err(Fault::PlanText(error)),
    };
    let delay = match plan_check::check(instance, &plan) {
        Ok(delay) => delay,
        Err(fault) => return Err(Fault::Plan(fault)),
    };
    if delay != u64::from(stated) {
        return Err(Fault::StatedDelay(delay));
    }
    Ok(plan)
}

/// The plan that a reader's bytes spell, judged as by `verify`.
pub fn read_plan<P: Read>(alloc: Global, instance: &Instance, plan: &mut P) -> Result<Plan, Fault>
    ensures judged { IfSome (P.remaining plan.old) (λ bytes. MatchResult result
        (HasPlanOf instance.now bytes)
        (IsPlanRefusal instance.now bytes)) }
    ensures valid { IfOk result (IsValid instance.now) }
    ensures most { TakesAtMost (PLAN_LIMIT + 1) (P.remaining plan.old) (P.remaining plan.new) }
{
    let bytes = read_all(alloc, plan, PLAN_LIMIT, Source::Plan)?;
    plan_of_text(alloc, instance, bytes.as_slice())
}
