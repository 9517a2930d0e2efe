//! What is told of a plan?

ghost use Rattle.std.specs.Prelude.{◌≡◌, ◌≢◌, ◌≤◌, Err, IfOk, string_bytes};
ghost use Rattle.ttp_model.specs.Plans.{IsValid};
ghost use Rattle.ttp_model.specs.Delays.{delay};
ghost use Rattle.ttp_model.specs.Faults.{IsFirstFault};
ghost use Rattle.plan_format.specs.declared.fault.PlanTextError.TheVariants.{At};
ghost use Rattle.plan_format.specs.Reading.{plan_at};
ghost use Rattle.plan_commands.specs.Fronts.{BeginsWith};
ghost use Rattle.explain_command.specs.Plans.{TellsBroken, TellsMisstated, TellsPlan, TellsPlanText, TellsPrinted, TellsUnspelled, TellsValid, bare_text};

use crate::mistaken::first_line_words;
use crate::telling::{put_line, put_valid_line};
use command_streams::Fault;
use json_answers::Reasons;
use plan_commands::{Front, bare_fault};
use plan_format::{LineFault, PlanTextError, read};
use plan_reasons::{cycle_of, line_reason, other_delay, plan_chain_reason, reason_of};
use sentences::put;
use std::alloc::Global;
use ttp_model::{Instance, MemoryFault, Plan, PlanFault};

/// What is told of a plan that breaks a rule.
fn told_broken(
    alloc: Global,
    instance: &Instance,
    plan: &Plan,
    broken: PlanFault,
    reasons: &mut Reasons,
) -> Result<String, MemoryFault>
    requires { IsFirstFault instance.now plan.now broken }
    ensures { IfOk result (λ text. TellsBroken instance.now plan.now (string_bytes text)) }
{
    let reason = reason_of(alloc, instance, plan, broken)?;
    reasons.push(alloc, "reason", &reason)?;
    let mut text = String::new(alloc);
    put_line(&mut text, &Fault::Plan(broken))?;
    put(alloc, &mut text, &reason)?;
    Ok(text)
}

/// What is told of a valid plan that states another delay than its own, in ticks.
fn told_misstated(
    alloc: Global,
    instance: &Instance,
    plan: &Plan,
    own: u64,
    stated: u32,
    reasons: &mut Reasons,
) -> Result<String, MemoryFault>
    requires valid { IsValid instance.now plan.now }
    requires own { own ≡ delay instance.now plan.now }
    requires other { own ≢ stated }
    ensures { IfOk result (λ text. TellsMisstated instance.now plan.now stated (string_bytes text)) }
{
    let reason = other_delay(instance, plan, stated);
    reasons.push(alloc, "reason", &reason)?;
    let mut text = String::new(alloc);
    put_line(&mut text, &Fault::StatedDelay(own))?;
    put(alloc, &mut text, &reason)?;
    Ok(text)
}

/// What is told of a valid plan that states its own delay, in ticks: why it ends then, and how long its cycle is.
fn told_valid(
    alloc: Global,
    instance: &Instance,
    plan: &Plan,
    stated: u32,
    reasons: &mut Reasons,
) -> Result<String, MemoryFault>
    requires valid { IsValid instance.now plan.now }
    requires own { delay instance.now plan.now ≡ stated }
    ensures { IfOk result (λ text. TellsValid instance.now plan.now stated (string_bytes text)) }
{
    let reason = plan_chain_reason(alloc, instance, plan)?;
    let cycle = cycle_of(instance, plan);
    reasons.push(alloc, "chain", &reason)?;
    reasons.push(alloc, "cycle", &cycle)?;
    let mut text = String::new(alloc);
    put_valid_line(&mut text, stated)?;
    put(alloc, &mut text, &reason)?;
    put(alloc, &mut text, &cycle)?;
    Ok(text)
}

/// What is told of a plan and the delay in ticks that it states.
fn told_judged(
    alloc: Global,
    instance: &Instance,
    plan: &Plan,
    stated: u32,
    reasons: &mut Reasons,
) -> Result<String, MemoryFault>
    ensures { IfOk result (λ text. TellsPlan instance.now plan.now stated (string_bytes text)) }
{
    match plan_check::check(instance, plan) {
        Err(broken) => told_broken(alloc, instance, plan, broken, reasons),
        Ok(own) => {
            if own == u64::from(stated) {
                told_valid(alloc, instance, plan, stated, reasons)
            } else {
                told_misstated(alloc, instance, plan, own, stated, reasons)
            }
        }
    }
}

/// What is told of a line at fault of a plan's text, in front of which so many lines stand.
fn told_unspelled(
    alloc: Global,
    instance: &Instance,
    bytes: &[u8],
    before: u32,
    line: u32,
    wrong: LineFault,
    reasons: &mut Reasons,
) -> Result<String, MemoryFault>
    requires at { plan_at instance.now bytes.now ≡ Err (At line wrong) }
    requires most { before ≤ 1 }
    ensures { IfOk result (λ text. TellsUnspelled instance.now before bytes.now (string_bytes text)) }
{
    let _nodes = instance.nodes();
    let counted = before + line;
    let error = PlanTextError::At {
        line: counted,
        fault: wrong,
    };
    let reason = line_reason(instance, bytes, before, line, wrong);
    reasons.push(alloc, "reason", &reason)?;
    let mut text = String::new(alloc);
    put_line(&mut text, &Fault::PlanText(error))?;
    put(alloc, &mut text, &reason)?;
    text.push_str(first_line_words(bytes, counted))?;
    Ok(text)
}

/// What is told of the bytes of a plan's text, in front of which so many lines stand.
fn told_plan(
    alloc: Global,
    instance: &Instance,
    bytes: &[u8],
    before: u32,
    reasons: &mut Reasons,
) -> Result<String, MemoryFault>
    requires { before ≤ 1 }
    ensures { IfOk result (λ text. TellsPlanText instance.now before bytes.now (string_bytes text)) }
{
    match read(alloc, instance, bytes) {
        Ok((plan, stated)) => {
            let told = told_judged(alloc, instance, &plan, stated, reasons);
            drop(plan);
            told
        }
        Err(PlanTextError::At { line, fault }) => {
            told_unspelled(alloc, instance, bytes, before, line, fault, reasons)
        }
        Err(PlanTextError::OutOfMemory) => Err(MemoryFault),
    }
}

/// What is told of a line that says that no plan was found, with what stands behind it.
fn told_bare(alloc: Global, rest: &[u8]) -> Result<String, MemoryFault>
    ensures { IfOk result (λ text. string_bytes text ≡ bare_text rest.now) }
{
    let fault = bare_fault(rest);
    let mut text = String::new(alloc);
    put_line(
        &mut text,
        &Fault::PlanText(PlanTextError::At { line: 2, fault }),
    )?;
    text.push_str("The first line says that no plan was found.\n")?;
    Ok(text)
}

/// What is told of the bytes that begin so, and of what stands behind that.
pub fn told_printed(
    alloc: Global,
    instance: &Instance,
    bytes: &[u8],
    front: Front,
    rest: &[u8],
    reasons: &mut Reasons,
) -> Result<String, MemoryFault>
    requires { BeginsWith bytes.now front rest.now }
    ensures { IfOk result (λ text. TellsPrinted instance.now front rest.now (string_bytes text)) }
{
    match front {
        Front::Plan => told_plan(alloc, instance, rest, 0, reasons),
        Front::Headed => told_plan(alloc, instance, rest, 1, reasons),
        Front::Bare => told_bare(alloc, rest),
        Front::NoPlan => told_plan(alloc, instance, bytes, 0, reasons),
    }
}
