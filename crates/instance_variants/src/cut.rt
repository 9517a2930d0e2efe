//! Which instance is it in which some processes have to end by a tick?

ghost use Rattle.std.specs.Prelude.{◌≡◌, ◌<◌, IfOk, length, map};
ghost use Rattle.std.specs.List.{range_with_len};
ghost use Rattle.instance_variants.specs.Cut.{CanEndBy, cut, cut_process};

use crate::build::built;
use crate::copies::{copies_of_messages, copies_of_nodes};
use std::alloc::Global;
use ttp_model::{Instance, MemoryFault, Process};

/// Process `p`, with a deadline of at most `d` where it is one of these.
fn cut_process(
    alloc: Global,
    instance: &Instance,
    processes: &[u32],
    d: u32,
    p: u32,
) -> Result<Process, MemoryFault>
    requires { p < length instance.now.processes }
    ensures { IfOk result (λ process. process ≡ cut_process instance.now processes.now d p) }
{
    let process = instance.process_at(p as usize);
    let name = process.name.copy(alloc)?;
    let deadline = if processes.contains(&p) {
        process.deadline.min(d)
    } else {
        process.deadline
    };
    Ok(Process {
        name,
        deadline,
        ..*process
    })
}

/// All processes, of which these have deadlines of at most `d`.
fn cut_processes(
    alloc: Global,
    instance: &Instance,
    processes: &[u32],
    d: u32,
) -> Result<Vec<Process>, MemoryFault>
    ensures { IfOk result (λ all. all.items
        ≡ map (cut_process instance.now processes.now d) (range_with_len 0 (length instance.now.processes))) }
{
    let mut all = Vec::new(alloc);
    for p in 0..instance.processes().len() {
        all.push(cut_process(alloc, instance, processes, d, p as u32)?)?;
    }
    Ok(all)
}

/// The instance with the deadlines of these processes cut to `d`, where each of them can end by then if it starts at its release.
/// Memory is taken for all of it.
pub fn with_deadlines(
    alloc: Global,
    instance: &Instance,
    processes: &[u32],
    d: u32,
) -> Result<Instance, MemoryFault>
    requires { CanEndBy instance.now processes.now d }
    ensures { IfOk result (λ other. other ≡ cut instance.now processes.now d) }
{
    let cluster = *instance.cluster();
    let nodes = copies_of_nodes(alloc, instance.nodes())?;
    let processes = cut_processes(alloc, instance, processes, d)?;
    let links = Vec::from_slice(alloc, instance.links())?;
    let messages = copies_of_messages(alloc, instance.messages())?;
    built(alloc, cluster, nodes, processes, links, messages)
}
