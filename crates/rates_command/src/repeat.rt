//! What does `repeat` say of a cluster of several rates, and of a plan of its cycle?

ghost use Rattle.std.specs.Prelude.{◌≡◌, ◌+◌, IfSome};
ghost use Rattle.std.specs.Io.KnownBytes.{Keeps};
ghost use Rattle.ttp_model.specs.Plans.{IsValid};
ghost use Rattle.command_streams.specs.declared.limits.TheConstants.{PLAN_LIMIT};
ghost use Rattle.command_streams.specs.Streams.{TakesAtMost};
ghost use Rattle.endless_schedules.specs.Unrolled.{unrolled};
ghost use Rattle.rates_command.specs.declared.limits.TheConstants.{RATES_LIMIT};
ghost use Rattle.rates_command.specs.Answers.{IsOfMemory, IsOfUnrolling, IsRatesAnswer};
ghost use Rattle.rates_command.specs.Cycles.{IsCycleText, IsPlanText};
ghost use Rattle.rates_command.specs.Repeats.{IfRatesRefused, IsOfPlan, IsOfRates, IsPlanRepeatAnswer, IsPlanTextOf, IsRepeatAnswer};

use crate::cycle_text::{print_cycle, print_plan};
use crate::ending::{RatesEnd, RatesFault};
use crate::plan::read_plan;
use crate::reading::read_rates;
use command_streams::write_text;
use endless_schedules::unroll;
use rates_model::Rates;
use std::alloc::Global;
use std::io::{Read, Write};
use ttp_model::{Instance, Plan};

/// Writes what is told of a cluster, with the instance of its cycle.
fn write_cycle<W: Write>(alloc: Global, rates: &Rates, instance: &Instance, out: &mut W) -> RatesEnd
    requires { instance.now ≡ unrolled rates.now }
    ensures { IsRatesAnswer (IsCycleText rates.now) IsOfMemory (W.contents out.old) (W.contents out.new) result }
{
    match print_cycle(alloc, rates, instance) {
        Err(_) => RatesEnd::Refused(RatesFault::Memory),
        Ok(text) => match write_text(out, text.as_bytes()) {
            Ok(()) => RatesEnd::Done,
            Err(_) => RatesEnd::Refused(RatesFault::Unwritten),
        },
    }
}

/// Writes it, where the instance keeps all rules.
fn write_repeat<W: Write>(alloc: Global, rates: &Rates, out: &mut W) -> RatesEnd
    ensures { IsRatesAnswer (IsCycleText rates.now) (IsOfUnrolling rates.now)
        (W.contents out.old) (W.contents out.new) result }
{
    match unroll(alloc, rates) {
        Ok(instance) => write_cycle(alloc, rates, &instance, out),
        Err(fault) => RatesEnd::Refused(RatesFault::Unrolled(fault)),
    }
}

/// Reads a cluster of several rates, and writes how its rounds lie in its cycle, and how large the instance of one is. Where anything
/// else ends the command nothing is written, and after a failed write a prefix of the text stands.
pub fn repeat_run<I: Read, W: Write>(alloc: Global, rates: &mut I, out: &mut W) -> RatesEnd
    ensures answer { IfSome (I.remaining rates.old) (λ bytes.
        IsRepeatAnswer bytes (W.contents out.old) (W.contents out.new) result) }
    // Of the reader no more is taken than its limit and one byte.
    ensures most { TakesAtMost (RATES_LIMIT + 1) (I.remaining rates.old) (I.remaining rates.new) }
{
    match read_rates(alloc, rates) {
        Ok(read) => write_repeat(alloc, &read, out),
        Err(fault) => RatesEnd::Refused(fault),
    }
}

/// Writes what is told of a cluster and a valid plan of its cycle.
fn write_plan<W: Write>(
    alloc: Global,
    rates: &Rates,
    instance: &Instance,
    plan: &Plan,
    out: &mut W,
) -> RatesEnd
    requires of { instance.now ≡ unrolled rates.now }
    requires valid { IsValid instance.now plan.now }
    ensures { IsRatesAnswer (IsPlanText rates.now plan.now) IsOfMemory (W.contents out.old) (W.contents out.new) result }
{
    match print_plan(alloc, rates, instance, plan) {
        Err(_) => RatesEnd::Refused(RatesFault::Memory),
        Ok(text) => match write_text(out, text.as_bytes()) {
            Ok(()) => RatesEnd::Done,
            Err(_) => RatesEnd::Refused(RatesFault::Unwritten),
        },
    }
}

/// Writes it of the plan of a reader.
fn write_read_plan<P: Read, W: Write>(
    alloc: Global,
    rates: &Rates,
    instance: &Instance,
    plan: &mut P,
    out: &mut W,
) -> RatesEnd
    requires { instance.now ≡ unrolled rates.now }
    ensures answer { IfSome (P.remaining plan.old) (λ bytes. IsRatesAnswer (IsPlanTextOf rates.now bytes) (IsOfPlan rates.now bytes)
        (W.contents out.old) (W.contents out.new) result) }
    ensures plan { TakesAtMost (PLAN_LIMIT + 1) (P.remaining plan.old) (P.remaining plan.new) }
    ensures later { IfRatesRefused result (λ fault. ¬ IsOfRates fault) }
{
    let _nodes = instance.nodes();
    match read_plan(alloc, instance, plan) {
        Ok(read) => {
            let end = write_plan(alloc, rates, instance, &read, out);
            drop(read);
            end
        }
        Err(fault) => RatesEnd::Refused(RatesFault::OfPlan(fault)),
    }
}

/// Writes it, where the instance keeps all rules.
fn write_plan_repeat<P: Read, W: Write>(
    alloc: Global,
    rates: &Rates,
    plan: &mut P,
    out: &mut W,
) -> RatesEnd
    ensures answer { IfSome (P.remaining plan.old) (λ bytes. IsRatesAnswer (IsPlanTextOf rates.now bytes) (IsOfPlan rates.now bytes)
        (W.contents out.old) (W.contents out.new) result) }
    ensures plan { TakesAtMost (PLAN_LIMIT + 1) (P.remaining plan.old) (P.remaining plan.new) }
    ensures order { IfRatesRefused result (λ fault. IsOfRates fault → Keeps (P.remaining plan.old) (P.remaining plan.new)) }
{
    match unroll(alloc, rates) {
        Ok(instance) => write_read_plan(alloc, rates, &instance, plan, out),
        Err(fault) => RatesEnd::Refused(RatesFault::Unrolled(fault)),
    }
}

/// Reads a cluster of several rates, and verifies a plan of the instance of its cycle as `verify` does; writes the same as without a
/// plan, and by how much the starts of each process vary, how long after its releases it ends, and how old what each chain carries is.
/// Where anything else ends the command nothing is written, and after a failed write a prefix of the text stands.
pub fn repeat_plan_run<I: Read, P: Read, W: Write>(
    alloc: Global,
    rates: &mut I,
    plan: &mut P,
    out: &mut W,
) -> RatesEnd
    ensures answer { IfSome (I.remaining rates.old) (λ r. IfSome (P.remaining plan.old) (λ p.
        IsPlanRepeatAnswer r p (W.contents out.old) (W.contents out.new) result)) }
    // Of a reader no more is taken than its limit and one byte, and of the plan's nothing at a fault of the cluster.
    ensures rates { TakesAtMost (RATES_LIMIT + 1) (I.remaining rates.old) (I.remaining rates.new) }
    ensures plan { TakesAtMost (PLAN_LIMIT + 1) (P.remaining plan.old) (P.remaining plan.new) }
    ensures order { IfRatesRefused result (λ fault. IsOfRates fault → Keeps (P.remaining plan.old) (P.remaining plan.new)) }
{
    match read_rates(alloc, rates) {
        Ok(read) => write_plan_repeat(alloc, &read, plan, out),
        Err(fault) => RatesEnd::Refused(fault),
    }
}
