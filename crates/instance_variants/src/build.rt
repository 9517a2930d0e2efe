//! Which instance are tables that keep all rules?

ghost use Rattle.std.specs.Prelude.{◌≡◌, IfOk};
ghost use Rattle.ttp_model.specs.Instance.{instance_with};
ghost use Rattle.ttp_model.specs.Rules.{IsInstance};

use std::alloc::Global;
use ttp_model::{Cluster, Instance, Link, MemoryFault, Message, ModelError, Node, Process};

/// The instance that tables are, which keep all rules. It is refused for want of memory alone.
pub fn built(
    alloc: Global,
    cluster: Cluster,
    nodes: Vec<Node>,
    processes: Vec<Process>,
    links: Vec<Link>,
    messages: Vec<Message>,
) -> Result<Instance, MemoryFault>
    requires { IsInstance (instance_with cluster nodes.items processes.items links.items messages.items) }
    ensures { IfOk result (λ i. i ≡ instance_with cluster nodes.items processes.items links.items messages.items) }
{
    match Instance::build(alloc, cluster, nodes, processes, links, messages) {
        Ok(instance) => Ok(instance),
        Err(ModelError::OutOfMemory) => Err(MemoryFault),
        Err(_) => unreachable!(),
    }
}
