//! How is it told how a cluster and a plan of its cycle repeat?

ghost use Rattle.std.specs.Prelude.{◌≡◌, ◌<◌, ◌++◌, IfOk, OnOk, length, string_bytes};
ghost use Rattle.ttp_model.specs.Plans.{IsValid};
ghost use Rattle.endless_schedules.specs.Unrolled.{unrolled};
ghost use Rattle.rates_command.specs.Cycles.{AddsLine, AddsLines, IsChainLine, IsCycleText, IsPlanText, IsProcessLine, chain_line, counts_text, near_text, process_line, rounds_text};

use crate::cycle::{RatesCycle, cycle_of};
use endless_schedules::{Spread, chain_age, spread_of};
use plan_cycles::{Near, put_near};
use rates_model::Rates;
use std::alloc::{AllocError, Global};
use ttp_model::{Instance, MemoryFault, Plan};

/// Adds the ticks and the rounds.
#[tactic(auto, unfolding(crate::specs::Cycles::rounds_text))]
fn put_rounds(text: &mut String, told: &RatesCycle) -> Result<(), AllocError>
    ensures { OnOk result (string_bytes text.new ≡ string_bytes text.old ++ rounds_text told.now) }
{
    let (finer, period, round, rounds, gap) = (
        told.finer,
        told.period,
        told.round,
        told.rounds,
        told.gap,
    );
    writeln!(
        text,
        "ttrepeat 1\nfiner {finer}\nperiod {period}\nround {round}\nrounds {rounds}\ngap {gap}"
    )
}

/// Adds the nearest rounds that leave no gap, where there are such.
fn put_nearest(text: &mut String, near: Option<Near>) -> Result<(), AllocError>
    ensures { OnOk result (string_bytes text.new ≡ string_bytes text.old ++ near_text near) }
{
    match near {
        None => Ok(()),
        Some(near) => put_near(text, near),
    }
}

/// Adds the counts of the instance.
#[tactic(auto, unfolding(crate::specs::Cycles::counts_text))]
fn put_counts(text: &mut String, told: &RatesCycle) -> Result<(), AllocError>
    ensures { OnOk result (string_bytes text.new ≡ string_bytes text.old ++ counts_text told.now) }
{
    let (processes, links, messages) = (told.processes, told.links, told.messages);
    writeln!(
        text,
        "processes {processes}\nlinks {links}\nmessages {messages}"
    )
}

/// The text of a cluster, with the instance of its cycle: the lines `ttrepeat 1`, `finer`, `period`, `round`, `rounds` and `gap`, where
/// there is a gap `near BELOW ABOVE`, and `processes`, `links` and `messages`.
pub fn print_cycle(alloc: Global, rates: &Rates, instance: &Instance) -> Result<String, AllocError>
    requires { instance.now ≡ unrolled rates.now }
    ensures { IfOk result (λ text. IsCycleText rates.now (string_bytes text)) }
{
    let told = cycle_of(rates, instance);
    let mut text = String::new(alloc);
    put_rounds(&mut text, &told)?;
    put_nearest(&mut text, told.near)?;
    put_counts(&mut text, &told)?;
    Ok(text)
}

/// Adds a name with the jitter and the response of its process.
#[tactic(auto, unfolding(crate::specs::Cycles::process_line))]
fn put_spread(text: &mut String, name: &str, spread: Spread) -> Result<(), AllocError>
    ensures { OnOk result (string_bytes text.new ≡ string_bytes text.old ++ process_line name.now spread) }
{
    let (jitter, response) = (spread.jitter, spread.response);
    writeln!(text, "process {name} {jitter} {response}")
}

/// Adds the line of a process.
fn put_process(text: &mut String, rates: &Rates, plan: &Plan, p: usize) -> Result<(), AllocError>
    requires inside { p < length rates.now.processes }
    requires valid { IsValid (unrolled rates.now) plan.now }
    ensures { OnOk result (AddsLine (IsProcessLine rates.now plan.now p) (string_bytes text.old) (string_bytes text.new)) }
{
    let spread = spread_of(rates, plan, p);
    put_spread(text, rates.process_at(p).name.as_str(), spread)?;
    Ok(())
}

/// Adds the lines of all processes.
fn put_processes(text: &mut String, rates: &Rates, plan: &Plan) -> Result<(), AllocError>
    requires { IsValid (unrolled rates.now) plan.now }
    ensures { OnOk result (AddsLines (IsProcessLine rates.now plan.now) (length rates.now.processes) (string_bytes text.old) (string_bytes text.new)) }
{
    for p in 0..rates.processes().len() {
        put_process(text, rates, plan, p)?;
    }
    Ok(())
}

/// Adds a name with the age of its chain and the bound on that.
#[tactic(auto, unfolding(crate::specs::Cycles::chain_line))]
fn put_age(text: &mut String, name: &str, age: u64, bound: u32) -> Result<(), AllocError>
    ensures { OnOk result (string_bytes text.new ≡ string_bytes text.old ++ chain_line name.now age bound) }
{
    writeln!(text, "chain {name} {age} {bound}")
}

/// Adds the line of a chain.
fn put_chain(
    alloc: Global,
    text: &mut String,
    rates: &Rates,
    plan: &Plan,
    x: usize,
) -> Result<(), MemoryFault>
    requires inside { x < length rates.now.chains }
    requires valid { IsValid (unrolled rates.now) plan.now }
    ensures { OnOk result (AddsLine (IsChainLine rates.now plan.now x) (string_bytes text.old) (string_bytes text.new)) }
{
    let age = chain_age(alloc, rates, plan, x)?;
    let chain = rates.chain_at(x);
    put_age(text, chain.name.as_str(), age, chain.age)?;
    Ok(())
}

/// Adds the lines of all chains.
fn put_chains(
    alloc: Global,
    text: &mut String,
    rates: &Rates,
    plan: &Plan,
) -> Result<(), MemoryFault>
    requires { IsValid (unrolled rates.now) plan.now }
    ensures { OnOk result (AddsLines (IsChainLine rates.now plan.now) (length rates.now.chains) (string_bytes text.old) (string_bytes text.new)) }
{
    for x in 0..rates.chains().len() {
        put_chain(alloc, text, rates, plan, x)?;
    }
    Ok(())
}

/// The text of a cluster and of a valid plan of its cycle: the same lines, and then for each process `process NAME JITTER RESPONSE` and
/// for each chain `chain NAME AGE BOUND`.
pub fn print_plan(
    alloc: Global,
    rates: &Rates,
    instance: &Instance,
    plan: &Plan,
) -> Result<String, MemoryFault>
    requires instance { instance.now ≡ unrolled rates.now }
    requires valid { IsValid (unrolled rates.now) plan.now }
    ensures { IfOk result (λ text. IsPlanText rates.now plan.now (string_bytes text)) }
{
    let mut text = print_cycle(alloc, rates, instance)?;
    put_processes(&mut text, rates, plan)?;
    put_chains(alloc, &mut text, rates, plan)?;
    Ok(text)
}
