//! What is an instance by some of its constraints alone?

ghost use Rattle.std.specs.Prelude.{◌≡◌, IfOk};
ghost use Rattle.instance_variants.specs.Only.{cluster_with, kept_links, message_with, only, only_links, only_messages, only_processes, process_with};

use super::constraints::Constraints;
use crate::build::built;
use crate::copies::copies_of_nodes;
use std::alloc::Global;
use ttp_model::{Cluster, Instance, Link, MOST_TICKS, MemoryFault, Message, Process};

/// A cluster with its horizon, if it is kept, and else the latest that can be said.
fn cluster_with(horizon: bool, cluster: &Cluster) -> Cluster
    ensures { result ≡ cluster_with horizon cluster.now }
{
    let latest = if horizon { cluster.horizon } else { MOST_TICKS };
    Cluster {
        horizon: latest,
        ..*cluster
    }
}

/// A process with its deadline and its release, if they are kept.
fn process_with(
    alloc: Global,
    deadline: bool,
    release: bool,
    process: &Process,
) -> Result<Process, MemoryFault>
    ensures { IfOk result (λ p. p ≡ process_with deadline release process.now) }
{
    let name = process.name.copy(alloc)?;
    Ok(Process {
        name,
        node: process.node,
        wcet: process.wcet,
        release: if release { process.release } else { 0 },
        deadline: if deadline {
            process.deadline
        } else {
            MOST_TICKS
        },
    })
}

#[tactic(auto, using(crate::proofs::Listed::each_more))]
fn processes(
    alloc: Global,
    instance: &Instance,
    constraints: &Constraints,
) -> Result<Vec<Process>, MemoryFault>
    ensures { IfOk result (λ all. all.items ≡ only_processes instance.now constraints.now) }
{
    let mut all = Vec::new(alloc);
    for (p, process) in instance.processes().iter().enumerate() {
        let deadline = constraints.deadlines.has(p);
        let release = constraints.releases.has(p);
        all.push(process_with(alloc, deadline, release, process)?)?;
    }
    Ok(all)
}

#[tactic(auto, using(crate::proofs::Listed::set_more, crate::proofs::Listed::unset_more))]
fn links(
    alloc: Global,
    instance: &Instance,
    constraints: &Constraints,
) -> Result<Vec<Link>, MemoryFault>
    ensures { IfOk result (λ all. all.items ≡ only_links instance.now constraints.now) }
{
    let mut all = Vec::new(alloc);
    for (l, link) in instance.links().iter().enumerate() {
        if constraints.links.has(l) {
            all.push(*link)?;
        }
    }
    Ok(all)
}

/// A message that is to be on both channels, if that is kept.
fn message_with(alloc: Global, both: bool, message: &Message) -> Result<Message, MemoryFault>
    ensures { IfOk result (λ m. m ≡ message_with both message.now) }
{
    let name = message.name.copy(alloc)?;
    let receivers = message.receivers.copy(alloc)?;
    Ok(Message {
        name,
        sender: message.sender,
        receivers,
        bytes: message.bytes,
        both: both && message.both,
    })
}

#[tactic(auto, using(crate::proofs::Listed::set_more, crate::proofs::Listed::unset_more))]
fn messages(
    alloc: Global,
    instance: &Instance,
    constraints: &Constraints,
) -> Result<Vec<Message>, MemoryFault>
    ensures { IfOk result (λ all. all.items ≡ only_messages instance.now constraints.now) }
{
    let mut all = Vec::new(alloc);
    for (m, message) in instance.messages().iter().enumerate() {
        if constraints.messages.has(m) {
            let both = constraints.both.has(m);
            all.push(message_with(alloc, both, message)?)?;
        }
    }
    Ok(all)
}

/// The instance with these constraints alone: without its horizon and a deadline all may end as late as can be said, without a
/// release at once, and links and messages go. In memory of its own.
#[tactic(auto, using(crate::proofs::KeptLaws::rules_kept))]
pub fn with_only(
    alloc: Global,
    instance: &Instance,
    constraints: &Constraints,
) -> Result<Instance, MemoryFault>
    ensures { IfOk result (λ i. i ≡ only instance.now constraints.now) }
{
    let cluster = cluster_with(constraints.horizon, instance.cluster());
    let nodes = copies_of_nodes(alloc, instance.nodes())?;
    let processes = processes(alloc, instance, constraints)?;
    let links = links(alloc, instance, constraints)?;
    let messages = messages(alloc, instance, constraints)?;
    built(alloc, cluster, nodes, processes, links, messages)
}
