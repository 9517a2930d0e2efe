//! How is it told how the rounds of a plan lie in a period?

ghost use Rattle.std.specs.Prelude.{◌≡◌, ◌≤◌, ◌++◌, IfOk, OnOk, string_bytes};
ghost use Rattle.std.specs.List.{flat_map};
ghost use Rattle.ttp_model.specs.declared.limits.TheConstants.{MOST_TICKS};
ghost use Rattle.ttp_model.specs.Plans.{IsValid};
ghost use Rattle.tt_layout.specs.Cycle.{cycle_rounds};
ghost use Rattle.plan_cycles.specs.Cycles.{whole_rounds};
ghost use Rattle.plan_cycles.specs.Text.{IsPeriodText, dividing_text, fit_line, head_text, near_line, repetition_text};

use crate::fits::Fit;
use crate::repetition::{Dividing, Near, Repetition, repetition_of};
use std::alloc::{AllocError, Global};
use ttp_model::{Instance, MemoryFault, Plan};

/// The text of a valid plan in a period that holds the rounds of its cycle: the lines `ttperiod 1`, `period`, `round`, `rounds` and
/// `gap`, and where there is a gap `near BELOW ABOVE`, and `fit TRAIL ROUND` for each fit.
pub fn print(
    alloc: Global,
    instance: &Instance,
    plan: &Plan,
    period: u64,
) -> Result<String, MemoryFault>
    requires valid { IsValid instance.now plan.now }
    requires held { cycle_rounds instance.now plan.now ≤ whole_rounds period instance.now plan.now }
    requires few { period ≤ MOST_TICKS }
    ensures { IfOk result (λ text. IsPeriodText period instance.now plan.now (string_bytes text)) }
{
    let told = repetition_of(alloc, instance, plan, period)?;
    let text = text_of(alloc, &told)?;
    Ok(text)
}

/// The text of what is told.
fn text_of(alloc: Global, told: &Repetition) -> Result<String, AllocError>
    ensures { IfOk result (λ text. string_bytes text ≡ repetition_text told.now) }
{
    let mut text = String::new(alloc);
    put_head(&mut text, told)?;
    if let Some(dividing) = &told.dividing {
        put_dividing(&mut text, dividing)?;
    }
    Ok(text)
}

/// Adds the lines that are there of each period.
#[tactic(auto, unfolding(crate::specs::Text::head_text))]
fn put_head(text: &mut String, told: &Repetition) -> Result<(), AllocError>
    ensures { OnOk result (string_bytes text.new ≡ string_bytes text.old ++ head_text told.now) }
{
    let (period, round, rounds, gap) = (told.period, told.round, told.rounds, told.gap);
    writeln!(
        text,
        "ttperiod 1\nperiod {period}\nround {round}\nrounds {rounds}\ngap {gap}"
    )
}

/// Adds the lines that are there of one with a gap.
fn put_dividing(text: &mut String, dividing: &Dividing) -> Result<(), AllocError>
    ensures { OnOk result (string_bytes text.new ≡ string_bytes text.old ++ (near_line dividing.now.near ++ flat_map fit_line dividing.now.fits.items)) }
{
    put_near(text, dividing.near)?;
    put_fits(text, dividing.fits.as_slice())
}

/// Adds the line of the nearest rounds: `near BELOW ABOVE`.
#[tactic(auto, unfolding(crate::specs::Text::near_line))]
pub fn put_near(text: &mut String, near: Near) -> Result<(), AllocError>
    ensures { OnOk result (string_bytes text.new ≡ string_bytes text.old ++ near_line near) }
{
    let (below, above) = (near.below, near.above);
    writeln!(text, "near {below} {above}")
}

/// Adds the lines of fits.
fn put_fits(text: &mut String, fits: &[Fit]) -> Result<(), AllocError>
    ensures { OnOk result (string_bytes text.new ≡ string_bytes text.old ++ flat_map fit_line fits.now) }
{
    for fit in fits {
        put_fit(text, *fit)?;
    }
    Ok(())
}

/// Adds the line of a fit.
#[tactic(auto, unfolding(crate::specs::Text::fit_line))]
fn put_fit(text: &mut String, fit: Fit) -> Result<(), AllocError>
    ensures { OnOk result (string_bytes text.new ≡ string_bytes text.old ++ fit_line fit) }
{
    let (trail, round) = (fit.trail, fit.round);
    writeln!(text, "fit {trail} {round}")
}
