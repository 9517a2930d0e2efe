//! What does `period` say of an instance and a plan?

ghost use Rattle.std.specs.Prelude.{◌+◌, ◌≤◌, IfSome};
ghost use Rattle.std.specs.Io.KnownBytes.{Keeps};
ghost use Rattle.ttp_model.specs.declared.limits.TheConstants.{MOST_TICKS};
ghost use Rattle.ttp_model.specs.Plans.{IsValid};
ghost use Rattle.command_streams.specs.declared.limits.TheConstants.{INSTANCE_LIMIT, PLAN_LIMIT};
ghost use Rattle.command_streams.specs.Streams.{TakesAtMost};
ghost use Rattle.command_streams.specs.Instances.{IsOfInstance};
ghost use Rattle.command_streams.specs.Outcomes.{IfRefused, IsCommandAnswer, OnDone};
ghost use Rattle.plan_commands.specs.Periods.{IsHeldText, IsPeriodAnswer, IsShortPeriod};

use crate::verdict::verified_of_readers;
use command_streams::{End, Fault, Rounds, end_with};
use plan_cycles::{held_rounds, print};
use std::alloc::Global;
use std::io::{Read, Write};
use tt_layout::cycle_rounds;
use ttp_model::{Instance, Plan};

/// Writes how the rounds of a valid plan lie in a period, unless that holds too few.
fn write_period<W: Write>(
    alloc: Global,
    instance: &Instance,
    plan: &Plan,
    period: u64,
    out: &mut W,
) -> End
    requires valid { IsValid instance.now plan.now }
    requires few { period ≤ MOST_TICKS }
    ensures answer { IsCommandAnswer (OnDone (IsHeldText period instance.now plan.now)) (IsShortPeriod period instance.now plan.now)
        (W.contents out.old) (W.contents out.new) result }
    ensures later { IfRefused result (λ fault. ¬ IsOfInstance fault) }
{
    let needed = u64::from(cycle_rounds(instance, plan));
    let held = held_rounds(instance, plan, period);
    if held < needed {
        return End::Refused(Fault::ShortPeriod(Rounds { needed, held }));
    }
    match print(alloc, instance, plan, period) {
        Ok(text) => end_with(out, text.as_bytes()),
        Err(_) => End::Refused(Fault::Memory),
    }
}

/// Verifies a plan as `verify` does, and writes how its rounds lie in a period: which round it has, how many whole ones there are, the
/// gap behind them, and where there is one which rounds would leave none. Where anything else ends the command nothing is written, and
/// after a failed write a prefix of the text stands.
pub fn period_run<I: Read, P: Read, W: Write>(
    alloc: Global,
    instance: &mut I,
    plan: &mut P,
    period: u64,
    out: &mut W,
) -> End
    requires { period ≤ MOST_TICKS }
    ensures answer { IfSome (I.remaining instance.old) (λ i. IfSome (P.remaining plan.old) (λ p.
        IsPeriodAnswer period i p (W.contents out.old) (W.contents out.new) result)) }
    // Of a reader no more is taken than its limit and one byte, and of the plan's nothing at a fault of the instance.
    ensures instance { TakesAtMost (INSTANCE_LIMIT + 1) (I.remaining instance.old) (I.remaining instance.new) }
    ensures plan { TakesAtMost (PLAN_LIMIT + 1) (P.remaining plan.old) (P.remaining plan.new) }
    ensures order { IfRefused result (λ fault. IsOfInstance fault → Keeps (P.remaining plan.old) (P.remaining plan.new)) }
{
    match verified_of_readers(alloc, instance, plan) {
        Ok(verified) => {
            let end = write_period(alloc, &verified.instance, &verified.plan, period, out);
            drop(verified);
            end
        }
        Err(fault) => End::Refused(fault),
    }
}
