//! How are deadlines and the horizon marked?

ghost use Rattle.std.specs.Prelude.{◌≡◌, ◌++◌, ◌<◌, ◌≤◌, OnOk, length, string_bytes};
ghost use Rattle.plan_sheets.specs.Canvas.{IsCanvas};
ghost use Rattle.plan_sheets.specs.Deadlines.{deadline_piece, deadline_text, deadlines_text, due_front, due_line, due_text, end_text, end_title, end_words, has_mark, horizon_text};

use crate::pictures::canvas::{Canvas, MOST_CYCLE, place_of, row_of, top_of};
use crate::pictures::lines::{Line, put_line};
use crate::pictures::scale::put_upright;
use std::alloc::AllocError;
use ttp_model::Instance;

/// Whether a process has a deadline of its own, before the horizon, that lies in the cycle.
fn has_mark(canvas: &Canvas, instance: &Instance, p: usize) -> bool
    requires { p < length instance.now.processes }
    ensures { result ≡ has_mark canvas.now instance.now p }
{
    let deadline = instance.process_at(p).deadline;
    deadline < instance.cluster().horizon && u64::from(deadline) <= canvas.cycle
}

/// The line at a tick in a row, which goes on for three pixels below its rectangles.
fn due_line(row: u32, due: u32) -> Line
    ensures { result ≡ due_line row due }
{
    let due = u64::from(due);
    Line {
        from: due,
        from_height: top_of(row),
        to: due,
        to_height: top_of(row) + 27,
    }
}

/// Draws the deadlines of all processes that have one in the cycle.
pub fn put_deadlines(
    text: &mut String,
    canvas: &Canvas,
    instance: &Instance,
) -> Result<(), AllocError>
    requires { IsCanvas canvas.now }
    ensures { OnOk result (string_bytes text.new ≡ string_bytes text.old ++ deadlines_text canvas.now instance.now) }
{
    let count = instance.processes().len();
    for p in 0..count {
        put_marked(text, canvas, instance, p)?;
    }
    Ok(())
}

/// Draws the deadline of a process, where it has one in the cycle.
fn put_marked(
    text: &mut String,
    canvas: &Canvas,
    instance: &Instance,
    p: usize,
) -> Result<(), AllocError>
    requires sound { IsCanvas canvas.now }
    requires inside { p < length instance.now.processes }
    ensures { OnOk result (string_bytes text.new ≡ string_bytes text.old ++ deadline_piece canvas.now instance.now p) }
{
    if has_mark(canvas, instance, p) {
        put_deadline(text, canvas, instance, p)
    } else {
        Ok(())
    }
}

/// Draws the deadline of a process: a line in its node's row, and its number above the row.
#[tactic(auto, unfolding(crate::specs::Deadlines::deadline_text))]
fn put_deadline(
    text: &mut String,
    canvas: &Canvas,
    instance: &Instance,
    p: usize,
) -> Result<(), AllocError>
    requires sound { IsCanvas canvas.now }
    requires inside { p < length instance.now.processes }
    ensures { OnOk result (string_bytes text.new ≡ string_bytes text.old ++ deadline_text canvas.now instance.now p) }
{
    let process = instance.process_at(p);
    let row = row_of(instance, process.node);
    let line = due_line(row, process.deadline);
    put_due_front(text)?;
    put_line(text, canvas, &line)?;
    put_due(text, canvas, process.name.as_str(), row, process.deadline)
}

/// Adds what begins the mark of a deadline.
#[tactic(auto, unfolding(crate::specs::Deadlines::due_front))]
fn put_due_front(text: &mut String) -> Result<(), AllocError>
    ensures { OnOk result (string_bytes text.new ≡ string_bytes text.old ++ due_front) }
{
    text.push_str("<g class=\"due\">")
}

/// Adds the title of a deadline's line, and its number.
#[tactic(auto, unfolding(crate::specs::Deadlines::due_text))]
fn put_due(
    text: &mut String,
    canvas: &Canvas,
    name: &str,
    row: u32,
    due: u32,
) -> Result<(), AllocError>
    requires { IsCanvas canvas.now }
    ensures { OnOk result (string_bytes text.new ≡ string_bytes text.old ++ due_text canvas.now name.now row due) }
{
    let place = place_of(canvas, u64::from(due));
    let height = top_of(row) - 1;
    writeln!(
        text,
        "<title>{name} is due by {due}</title></line><text x=\"{place}\" y=\"{height}\">{due}</text></g>"
    )
}

/// Draws the horizon, where it lies in the cycle.
pub fn put_horizon(
    text: &mut String,
    canvas: &Canvas,
    instance: &Instance,
) -> Result<(), AllocError>
    requires { IsCanvas canvas.now }
    ensures { OnOk result (string_bytes text.new ≡ string_bytes text.old ++ horizon_text canvas.now instance.now) }
{
    let horizon = u64::from(instance.cluster().horizon);
    if horizon <= canvas.cycle {
        put_end(text, canvas, horizon)
    } else {
        Ok(())
    }
}

/// Draws a horizon: a line through all rows, with its number.
#[tactic(auto, unfolding(crate::specs::Deadlines::end_text))]
fn put_end(text: &mut String, canvas: &Canvas, horizon: u64) -> Result<(), AllocError>
    requires sound { IsCanvas canvas.now }
    requires inside { horizon ≤ MOST_CYCLE }
    ensures { OnOk result (string_bytes text.new ≡ string_bytes text.old ++ end_text canvas.now horizon) }
{
    put_upright(text, canvas, "horizon", horizon)?;
    put_end_title(text, horizon)?;
    put_end_words(text, canvas, horizon)
}

/// Adds the title of a horizon's line.
#[tactic(auto, unfolding(crate::specs::Deadlines::end_title))]
fn put_end_title(text: &mut String, horizon: u64) -> Result<(), AllocError>
    ensures { OnOk result (string_bytes text.new ≡ string_bytes text.old ++ end_title horizon) }
{
    write!(text, "><title>horizon {horizon}</title></line>")
}

/// Adds the number of a horizon.
#[tactic(auto, unfolding(crate::specs::Deadlines::end_words))]
fn put_end_words(text: &mut String, canvas: &Canvas, horizon: u64) -> Result<(), AllocError>
    requires sound { IsCanvas canvas.now }
    requires inside { horizon ≤ MOST_CYCLE }
    ensures { OnOk result (string_bytes text.new ≡ string_bytes text.old ++ end_words canvas.now horizon) }
{
    let place = place_of(canvas, horizon);
    writeln!(
        text,
        "<text class=\"horizon\" x=\"{place}\" y=\"30\">horizon {horizon}</text>"
    )
}
