//! Which instance is it in which all may end later?

ghost use Rattle.std.specs.Prelude.{◌≡◌, IfOk, map};
ghost use Rattle.instance_variants.specs.Later.{later, later_cluster, later_process, put_off};

use crate::build::built;
use crate::copies::{copies_of_messages, copies_of_nodes};
use std::alloc::Global;
use ttp_model::{Cluster, Instance, MOST_TICKS, MemoryFault, Process};

/// A tick that is `x` ticks later, but at most the latest that can be said.
fn put_off(x: u32, tick: u32) -> u32
    ensures { result ≡ put_off x tick }
{
    tick.saturating_add(x).min(MOST_TICKS)
}

/// A cluster whose horizon is `x` ticks later.
fn later_cluster(x: u32, cluster: &Cluster) -> Cluster
    ensures { result ≡ later_cluster x cluster.now }
{
    Cluster {
        horizon: put_off(x, cluster.horizon),
        ..*cluster
    }
}

/// A process whose deadline is `x` ticks later.
fn later_process(alloc: Global, x: u32, process: &Process) -> Result<Process, MemoryFault>
    ensures { IfOk result (λ p. p ≡ later_process x process.now) }
{
    let name = process.name.copy(alloc)?;
    let deadline = put_off(x, process.deadline);
    Ok(Process {
        name,
        deadline,
        ..*process
    })
}

/// All processes, with deadlines that are `x` ticks later.
fn later_processes(
    alloc: Global,
    x: u32,
    processes: &[Process],
) -> Result<Vec<Process>, MemoryFault>
    ensures { IfOk result (λ all. all.items ≡ map (later_process x) processes.now) }
{
    let mut all = Vec::new(alloc);
    for process in processes {
        all.push(later_process(alloc, x, process)?)?;
    }
    Ok(all)
}

/// The instance with its horizon and all deadlines `x` ticks later, but none past the latest that can be said. Memory is taken for
/// all of it.
pub fn with_later(alloc: Global, instance: &Instance, x: u32) -> Result<Instance, MemoryFault>
    ensures { IfOk result (λ other. other ≡ later instance.now x) }
{
    let cluster = later_cluster(x, instance.cluster());
    let nodes = copies_of_nodes(alloc, instance.nodes())?;
    let processes = later_processes(alloc, x, instance.processes())?;
    let links = Vec::from_slice(alloc, instance.links())?;
    let messages = copies_of_messages(alloc, instance.messages())?;
    built(alloc, cluster, nodes, processes, links, messages)
}
