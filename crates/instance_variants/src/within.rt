//! Which instance is it in which all has to end by a tick?

ghost use Rattle.std.specs.Prelude.{◌≡◌, ◌≤◌, IfOk};
ghost use Rattle.instance_variants.specs.Within.{within, within_cluster};

use crate::build::built;
use crate::copies::{copies_of_messages, copies_of_nodes, copies_of_processes};
use std::alloc::Global;
use ttp_model::{Cluster, Instance, MemoryFault};

/// A cluster whose horizon is at most `d`.
fn within_cluster(d: u32, cluster: &Cluster) -> Cluster
    ensures { result ≡ within_cluster d cluster.now }
{
    Cluster {
        horizon: cluster.horizon.min(d),
        ..*cluster
    }
}

/// The instance with its horizon cut to `d` ticks, 1 at least: whether a process can still end by then isn't asked. Memory is taken for
/// all of it.
pub fn with_horizon(alloc: Global, instance: &Instance, d: u32) -> Result<Instance, MemoryFault>
    requires { 1 ≤ d }
    ensures { IfOk result (λ other. other ≡ within instance.now d) }
{
    let cluster = within_cluster(d, instance.cluster());
    let nodes = copies_of_nodes(alloc, instance.nodes())?;
    let processes = copies_of_processes(alloc, instance.processes())?;
    let links = Vec::from_slice(alloc, instance.links())?;
    let messages = copies_of_messages(alloc, instance.messages())?;
    built(alloc, cluster, nodes, processes, links, messages)
}
