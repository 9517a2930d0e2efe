//! Tables that are no instance: each is refused, whatever else it holds.

ghost use Rattle.std.specs.Prelude.{◌≡◌, ℕ, ◌+◌, ◌*◌, IsErr, length};
ghost use Rattle.ttp_model.specs.Graph.{HasLink, HasMessage};
ghost use Rattle.ttp_model.specs.Instance.{node_of};

use std::alloc::Global;
use std::marker::Model;
use ttp_model::{Cluster, Instance, Link, Message, ModelError, Node, Process};

/// The tables of an instance, before they are judged.
#[derive(Drop)]
pub struct Tables {
    pub cluster: Cluster,
    pub nodes: Vec<Node>,
    pub processes: Vec<Process>,
    pub links: Vec<Link>,
    pub messages: Vec<Message>,
}

impl Model for Tables {
    ghost use Rattle.ttp_model.specs.Instance.{Instance, instance_with};

    ghost Value = { Instance };

    ghost view = { λ s. instance_with s.cluster s.nodes.items s.processes.items s.links.items s.messages.items };
}

/// One process more than there may be.
pub fn one_process_too_many(alloc: Global, tables: Tables) -> Result<Instance, ModelError>
    ensures { length tables.processes ≡ 257 → IsErr result }
{
    Instance::build(
        alloc,
        tables.cluster,
        tables.nodes,
        tables.processes,
        tables.links,
        tables.messages,
    )
}

/// A message to the process behind the last one.
pub fn received_by_nobody(alloc: Global, tables: Tables) -> Result<Instance, ModelError>
    ensures { (p : ℕ) → HasMessage tables p (length tables.processes) → IsErr result }
{
    Instance::build(
        alloc,
        tables.cluster,
        tables.nodes,
        tables.processes,
        tables.links,
        tables.messages,
    )
}

/// A message to a process of its sender's own node.
pub fn received_at_home(alloc: Global, tables: Tables) -> Result<Instance, ModelError>
    ensures { (p q : ℕ) → HasMessage tables p q → node_of tables p ≡ node_of tables q → IsErr result }
{
    Instance::build(
        alloc,
        tables.cluster,
        tables.nodes,
        tables.processes,
        tables.links,
        tables.messages,
    )
}

/// A lead that is a tick shorter than twice the precision.
pub fn with_short_lead(alloc: Global, tables: Tables) -> Result<Instance, ModelError>
    ensures { tables.cluster.lead + 1 ≡ 2 * tables.cluster.precision → IsErr result }
{
    Instance::build(
        alloc,
        tables.cluster,
        tables.nodes,
        tables.processes,
        tables.links,
        tables.messages,
    )
}

/// Two processes that wait for each other.
pub fn linked_both_ways(alloc: Global, tables: Tables) -> Result<Instance, ModelError>
    ensures { (p q : ℕ) → HasLink tables p q → HasLink tables q p → IsErr result }
{
    Instance::build(
        alloc,
        tables.cluster,
        tables.nodes,
        tables.processes,
        tables.links,
        tables.messages,
    )
}
