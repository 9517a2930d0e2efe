//! Which instance is it in which some processes run longer, all at once?

ghost use Rattle.std.specs.Prelude.{◌≡◌, ◌<◌, IfOk, length, map};
ghost use Rattle.std.specs.List.{range_with_len};
ghost use Rattle.ttp_model.specs.Rules.{IsInstance};
ghost use Rattle.instance_variants.specs.Grown.{grown_process};
ghost use Rattle.instance_variants.specs.Longer.{longer, longer_by};

use crate::build::built;
use crate::copies::{copies_of_messages, copies_of_nodes};
use crate::scale::{Scale, ticks_of};
use std::alloc::Global;
use ttp_model::{Instance, MemoryFault, Process};

/// By how many ticks process `p` runs longer, with a number: by none where it isn't one of these.
pub fn longer_by(instance: &Instance, processes: &[u32], scale: Scale, x: u32, p: u32) -> u64
    requires { p < length instance.now.processes }
    ensures { result ≡ longer_by instance.now processes.now scale x p }
{
    if processes.contains(&p) {
        ticks_of(scale, x, instance.process_at(p as usize).wcet)
    } else {
        0
    }
}

/// Process `p`, which runs so much longer.
fn longer_process(
    alloc: Global,
    instance: &Instance,
    processes: &[u32],
    scale: Scale,
    x: u32,
    p: u32,
) -> Result<Process, MemoryFault>
    requires there { p < length instance.now.processes }
    requires rules { IsInstance (longer instance.now processes.now scale x) }
    ensures { IfOk result (λ process. process ≡ grown_process instance.now (longer_by instance.now processes.now scale x) p) }
{
    let process = instance.process_at(p as usize);
    let name = process.name.copy(alloc)?;
    let more = longer_by(instance, processes, scale, x, p) as u32;
    Ok(Process {
        name,
        wcet: process.wcet + more,
        ..*process
    })
}

/// All processes, of which these run so much longer.
fn longer_processes(
    alloc: Global,
    instance: &Instance,
    processes: &[u32],
    scale: Scale,
    x: u32,
) -> Result<Vec<Process>, MemoryFault>
    requires { IsInstance (longer instance.now processes.now scale x) }
    ensures { IfOk result (λ all. all.items
        ≡ map (grown_process instance.now (longer_by instance.now processes.now scale x)) (range_with_len 0 (length instance.now.processes))) }
{
    let mut all = Vec::new(alloc);
    for p in 0..instance.processes().len() {
        all.push(longer_process(alloc, instance, processes, scale, x, p as u32)?)?;
    }
    Ok(all)
}

/// The instance in which these processes run longer with a number, all at once, where it keeps all rules then. Memory is taken for all of it.
pub fn with_longer(
    alloc: Global,
    instance: &Instance,
    processes: &[u32],
    scale: Scale,
    x: u32,
) -> Result<Instance, MemoryFault>
    requires { IsInstance (longer instance.now processes.now scale x) }
    ensures { IfOk result (λ other. other ≡ longer instance.now processes.now scale x) }
{
    let cluster = *instance.cluster();
    let nodes = copies_of_nodes(alloc, instance.nodes())?;
    let processes = longer_processes(alloc, instance, processes, scale, x)?;
    let links = Vec::from_slice(alloc, instance.links())?;
    let messages = copies_of_messages(alloc, instance.messages())?;
    built(alloc, cluster, nodes, processes, links, messages)
}
