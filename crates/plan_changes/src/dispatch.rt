//! What is a node's dispatcher told of its processes?

ghost use Rattle.std.specs.Prelude.{◌≡◌, ◌<◌, ◌++◌, IfOk, OnOk, length};
ghost use Rattle.plan_changes.specs.Dispatch.{dispatch_line, dispatch_lines, names_text, ticks_text};

use crate::planned::Planned;
use line_text::{push_number_word, push_word};
use plan_sheets::{must_end_by, order_of};
use std::alloc::{AllocError, Global};
use ttp_model::{MemoryFault, end_of};

/// Adds the names of a node and of a process.
#[tactic(auto, unfolding(crate::specs::Dispatch::names_text))]
fn push_names(text: &mut Vec<u8>, node: &[u8], process: &[u8]) -> Result<(), AllocError>
    ensures { OnOk result (text.new.items ≡ text.old.items ++ names_text node.now process.now) }
{
    text.extend_from_slice(node)?;
    push_word(text, process)
}

/// Adds two ticks.
#[tactic(auto, unfolding(crate::specs::Dispatch::ticks_text))]
fn push_ticks(text: &mut Vec<u8>, first: u64, second: u64) -> Result<(), AllocError>
    ensures { OnOk result (text.new.items ≡ text.old.items ++ ticks_text first second) }
{
    push_number_word(text, first)?;
    push_number_word(text, second)
}

/// Adds the row of a process, without its slack.
#[tactic(auto, unfolding(crate::specs::Dispatch::dispatch_line))]
fn push_dispatch(text: &mut Vec<u8>, planned: &Planned, p: usize) -> Result<(), AllocError>
    requires { p < length planned.now.instance.processes }
    ensures { OnOk result (text.new.items ≡ text.old.items ++ dispatch_line planned.now p) }
{
    let instance = planned.instance();
    let plan = planned.plan();
    let process = instance.process_at(p);
    let node = instance.nodes()[process.node as usize].name.as_bytes();
    let deadline = must_end_by(instance, p);
    push_names(text, node, process.name.as_bytes())?;
    push_ticks(
        text,
        plan.starts.as_slice()[p] as u64,
        end_of(instance, plan, p),
    )?;
    push_ticks(text, process.release as u64, deadline as u64)?;
    text.push(b'\n')?;
    Ok(())
}

/// The rows of a node's processes, in the order of their starts. A step for each two of these.
pub fn dispatch_lines(alloc: Global, planned: &Planned, node: u32) -> Result<Vec<u8>, MemoryFault>
    ensures { IfOk result (λ text. text.items ≡ dispatch_lines planned.now node) }
{
    let order = order_of(alloc, planned.instance(), planned.plan(), node)?;
    let mut text = Vec::new(alloc);
    let processes = order.as_slice();
    for p in processes {
        push_dispatch(&mut text, planned, *p as usize)?;
    }
    Ok(text)
}
