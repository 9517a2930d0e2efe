//! What does `tables` say of so many rounds of a plan?

ghost use Rattle.std.specs.Prelude.{◌+◌, IfSome};
ghost use Rattle.std.specs.Io.KnownBytes.{Keeps};
ghost use Rattle.ttp_model.specs.Plans.{IsValid};
ghost use Rattle.command_streams.specs.declared.limits.TheConstants.{INSTANCE_LIMIT, PLAN_LIMIT};
ghost use Rattle.command_streams.specs.Streams.{TakesAtMost};
ghost use Rattle.command_streams.specs.Instances.{IsOfInstance};
ghost use Rattle.command_streams.specs.Outcomes.{IfRefused, IsCommandAnswer, OnDone};
ghost use Rattle.plan_commands.specs.Periods.{AreUntold, IsLoadsOf, IsTablesAnswer};

use crate::verdict::verified_of_readers;
use command_streams::{End, Fault, Rounds, end_with};
use plan_cycles::longer::{print, too_many_slots};
use std::alloc::Global;
use std::io::{Read, Write};
use tt_layout::cycle_rounds;
use ttp_model::{Instance, Plan};

/// Writes the node tables of a valid plan in so many rounds, and then its guardian windows, unless these are too few, or have too many
/// slots.
fn write_loads<W: Write>(
    alloc: Global,
    instance: &Instance,
    plan: &Plan,
    rounds: u32,
    out: &mut W,
) -> End
    requires { IsValid instance.now plan.now }
    ensures answer { IsCommandAnswer (OnDone (IsLoadsOf rounds instance.now plan.now)) (AreUntold rounds instance.now plan.now)
        (W.contents out.old) (W.contents out.new) result }
    ensures later { IfRefused result (λ fault. ¬ IsOfInstance fault) }
{
    let needed = cycle_rounds(instance, plan);
    if rounds < needed {
        return End::Refused(Fault::ShortTables(Rounds {
            needed: u64::from(needed),
            held: u64::from(rounds),
        }));
    }
    if let Some(slots) = too_many_slots(instance, rounds) {
        return End::Refused(Fault::LongTables(slots));
    }
    match print(alloc, instance, plan, rounds) {
        Ok(text) => end_with(out, text.as_slice()),
        Err(_) => End::Refused(Fault::Memory),
    }
}

/// Verifies a plan as `verify` does, and writes its node tables of so many rounds and then its guardian windows. Those of the rounds
/// behind its cycle carry nothing. Where anything else ends the command nothing is written, and after a failed write a prefix of the
/// text stands.
pub fn tables_run<I: Read, P: Read, W: Write>(
    alloc: Global,
    instance: &mut I,
    plan: &mut P,
    rounds: u32,
    out: &mut W,
) -> End
    ensures answer { IfSome (I.remaining instance.old) (λ i. IfSome (P.remaining plan.old) (λ p.
        IsTablesAnswer rounds i p (W.contents out.old) (W.contents out.new) result)) }
    // Of a reader no more is taken than its limit and one byte, and of the plan's nothing at a fault of the instance.
    ensures instance { TakesAtMost (INSTANCE_LIMIT + 1) (I.remaining instance.old) (I.remaining instance.new) }
    ensures plan { TakesAtMost (PLAN_LIMIT + 1) (P.remaining plan.old) (P.remaining plan.new) }
    ensures order { IfRefused result (λ fault. IsOfInstance fault → Keeps (P.remaining plan.old) (P.remaining plan.new)) }
{
    match verified_of_readers(alloc, instance, plan) {
        Ok(verified) => {
            let end = write_loads(alloc, &verified.instance, &verified.plan, rounds, out);
            drop(verified);
            end
        }
        Err(fault) => End::Refused(fault),
    }
}
