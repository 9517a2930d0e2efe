//! How are processes drawn?

ghost use Rattle.std.specs.Prelude.{◌≡◌, ◌++◌, ◌<◌, OnOk, Some, length, string_bytes};
ghost use Rattle.ttp_model.specs.Plans.{IsValid};
ghost use Rattle.plan_sheets.specs.Processes.{process_name_text, process_rectangle, process_text, process_title_text, process_words, processes_text};

use crate::pictures::canvas::{Canvas, row_of};
use crate::pictures::rectangle::{Rectangle, put_opened};
use plan_facts::must_end_by;
use std::alloc::AllocError;
use std::fmt;
use ttp_model::{Instance, Plan, Process};

/// The rectangle of a process.
pub fn process_rectangle(instance: &Instance, plan: &Plan, p: usize) -> Rectangle
    requires valid { IsValid instance.now plan.now }
    requires inside { p < length instance.now.processes }
    ensures { result ≡ process_rectangle instance.now plan.now p }
{
    let process = instance.process_at(p);
    Rectangle {
        row: row_of(instance, process.node),
        node: process.node,
        start: plan.starts.as_slice()[p] as u64,
        length: process.wcet as u64,
    }
}

/// A process in words, with the name of its node.
#[derive(Drop)]
struct ProcessWords<'a> {
    node: &'a str,
    process: &'a Process,
    start: u64,
    /// By when it has to end.
    due: u32,
}

impl<'a> fmt::Display for ProcessWords<'a> {
    ghost output = { λ x. Some (process_words x.node.now x.process.now x.start x.due) };

    #[tactic(auto, unfolding(crate::specs::Processes::process_words))]
    fn fmt<W: fmt::Write>(&self, f: &mut fmt::Formatter<W>) -> fmt::Result {
        let (name, node) = (self.process.name.as_str(), self.node);
        let (start, due) = (self.start, self.due);
        let (wcet, release) = (self.process.wcet, self.process.release);
        write!(
            f,
            "{name} on {node}: from {start} for {wcet}, released at {release}, due by {due}"
        )
    }
}

/// Draws all processes.
pub fn put_processes(
    text: &mut String,
    canvas: &Canvas,
    instance: &Instance,
    plan: &Plan,
) -> Result<(), AllocError>
    requires { IsValid instance.now plan.now }
    ensures { OnOk result (string_bytes text.new ≡ string_bytes text.old ++ processes_text canvas.now instance.now plan.now) }
{
    let count = instance.processes().len();
    for p in 0..count {
        put_process(text, canvas, instance, plan, p)?;
    }
    Ok(())
}

/// Draws a process, with its name.
#[tactic(auto, unfolding(crate::specs::Processes::process_text))]
fn put_process(
    text: &mut String,
    canvas: &Canvas,
    instance: &Instance,
    plan: &Plan,
    p: usize,
) -> Result<(), AllocError>
    requires valid { IsValid instance.now plan.now }
    requires inside { p < length instance.now.processes }
    ensures { OnOk result (string_bytes text.new ≡ string_bytes text.old ++ process_text canvas.now instance.now plan.now p) }
{
    let rectangle = process_rectangle(instance, plan, p);
    let name = instance.process_at(p).name.as_str();
    put_process_title(text, instance, plan, p)?;
    put_opened(text, canvas, &rectangle)?;
    put_process_name(text, name)
}

/// Adds the title of a process.
#[tactic(auto, unfolding(crate::specs::Processes::process_title_text))]
fn put_process_title(
    text: &mut String,
    instance: &Instance,
    plan: &Plan,
    p: usize,
) -> Result<(), AllocError>
    requires valid { IsValid instance.now plan.now }
    requires inside { p < length instance.now.processes }
    ensures { OnOk result (string_bytes text.new ≡ string_bytes text.old ++ process_title_text instance.now plan.now p) }
{
    let process = instance.process_at(p);
    let words = ProcessWords {
        node: instance.nodes()[process.node as usize].name.as_str(),
        process,
        start: plan.starts.as_slice()[p] as u64,
        due: must_end_by(instance, p),
    };
    write!(text, "<g><title>{words}</title>")
}

/// Adds its name in its rectangle, and a line where it starts.
#[tactic(auto, unfolding(crate::specs::Processes::process_name_text))]
fn put_process_name(text: &mut String, name: &str) -> Result<(), AllocError>
    ensures { OnOk result (string_bytes text.new ≡ string_bytes text.old ++ process_name_text name.now) }
{
    writeln!(
        text,
        "{name}</text><rect width=\"1\" height=\"24\"/></svg></svg></g>"
    )
}
