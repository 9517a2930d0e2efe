//! Which ticks are marked above the rows?

ghost use Rattle.std.specs.Prelude.{◌≡◌, ◌<◌, ◌≤◌, ◌++◌, All, OnOk, string_bytes};
ghost use Rattle.plan_sheets.specs.Canvas.{IsCanvas};
ghost use Rattle.plan_sheets.specs.Scale.{delay_text, first_wide, mark_text, scale_text, step_of, upright_text};

use crate::pictures::canvas::{Canvas, MOST_CYCLE, place_of};
use std::alloc::AllocError;

/// How many pixels lie between two marks, at least.
const LEAST_GAP: u64 = 80;

/// How many ticks may lie between two marks.
const STEPS: [u64; 24] = [
    1, 2, 5, 10, 20, 50, 100, 200, 500, 1_000, 2_000, 5_000, 10_000, 20_000, 50_000, 100_000,
    200_000, 500_000, 1_000_000, 2_000_000, 5_000_000, 10_000_000, 20_000_000, 50_000_000,
];

/// The first of these steps that leaves room for the marks.
fn first_wide(canvas: &Canvas, steps: &[u64]) -> u64
    requires sound { IsCanvas canvas.now }
    requires some { All (λ step. (0 < step) × (step ≤ 50000000)) steps.now }
    ensures value { result ≡ first_wide canvas.now steps.now }
    ensures some { 0 < result }
{
    let needed = LEAST_GAP * canvas.cycle;
    for step in steps {
        let room = *step * canvas.across;
        if needed <= room {
            return *step;
        }
    }
    100_000_000
}

/// How many ticks lie between two marks.
#[tactic(auto, unfolding(crate::specs::Scale::step_of))]
fn step_of(canvas: &Canvas) -> u64
    requires { IsCanvas canvas.now }
    ensures value { result ≡ step_of canvas.now }
    ensures some { 0 < result }
{
    first_wide(canvas, &STEPS)
}

/// Draws the marks of the scale.
pub fn put_scale(text: &mut String, canvas: &Canvas) -> Result<(), AllocError>
    requires { IsCanvas canvas.now }
    ensures { OnOk result (string_bytes text.new ≡ string_bytes text.old ++ scale_text canvas.now) }
{
    let step = step_of(canvas);
    let last = canvas.cycle / step;
    for k in 0..last + 1 {
        let tick = k * step;
        put_mark(text, canvas, tick)?;
    }
    Ok(())
}

/// Adds the beginning of a line from the scale to the bottom, in a style.
#[tactic(auto, unfolding(crate::specs::Scale::upright_text))]
pub fn put_upright(
    text: &mut String,
    canvas: &Canvas,
    style: &str,
    tick: u64,
) -> Result<(), AllocError>
    requires sound { IsCanvas canvas.now }
    requires inside { tick ≤ MOST_CYCLE }
    ensures { OnOk result (string_bytes text.new ≡ string_bytes text.old ++ upright_text canvas.now style.now tick) }
{
    let (place, bottom) = (place_of(canvas, tick), canvas.height - 8);
    write!(
        text,
        "<line class=\"{style}\" x1=\"{place}\" y1=\"46\" x2=\"{place}\" y2=\"{bottom}\""
    )
}

/// Draws a mark, with its tick.
#[tactic(auto, unfolding(crate::specs::Scale::mark_text))]
fn put_mark(text: &mut String, canvas: &Canvas, tick: u64) -> Result<(), AllocError>
    requires sound { IsCanvas canvas.now }
    requires inside { tick ≤ MOST_CYCLE }
    ensures { OnOk result (string_bytes text.new ≡ string_bytes text.old ++ mark_text canvas.now tick) }
{
    let place = place_of(canvas, tick);
    put_upright(text, canvas, "mark", tick)?;
    writeln!(
        text,
        "/><text class=\"mark\" x=\"{place}\" y=\"42\">{tick}</text>"
    )
}

/// Draws the line of the plan's delay.
#[tactic(auto, unfolding(crate::specs::Scale::delay_text))]
pub fn put_delay(text: &mut String, canvas: &Canvas, delay: u64) -> Result<(), AllocError>
    requires sound { IsCanvas canvas.now }
    requires inside { delay ≤ MOST_CYCLE }
    ensures { OnOk result (string_bytes text.new ≡ string_bytes text.old ++ delay_text canvas.now delay) }
{
    put_upright(text, canvas, "delay", delay)?;
    writeln!(text, "><title>delay {delay}</title></line>")
}
