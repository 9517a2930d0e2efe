//! Which tables does a cycle have?

ghost use Rattle.std.specs.Prelude.{◌≡◌, IfErr, IfOk, map};
ghost use Rattle.rates_model.specs.Cycles.{bus_for, horizon_of};
ghost use Rattle.endless_schedules.specs.Faults.{IsTableFault};
ghost use Rattle.ttp_model.specs.Parts.{instance_of};
ghost use Rattle.endless_schedules.specs.Unrolled.{unrolled, unrolled_node, unrolled_processes};

use crate::carrying::waits_of;
use crate::fault::TableFault;
use crate::jobs::push_all_jobs;
use crate::links::all_links;
use crate::messages::all_messages;
use crate::places::Places;
use crate::stores::push_all_stores;
use rates_model::{Rates, RatesNode};
use std::alloc::Global;
use ttp_model::{Cluster, MemoryFault, Node, Numbers, Parts, Process};

/// The bus, for the whole rounds of a cycle.
fn unrolled_cluster(rates: &Rates) -> Cluster
    ensures { result ≡ bus_for rates.now.cluster (horizon_of rates.now) }
{
    let cluster = rates.cluster();
    Cluster {
        precision: cluster.precision,
        lead: cluster.lead,
        trail: cluster.trail,
        head: cluster.head,
        per_byte: cluster.per_byte,
        copy_out: cluster.copy_out,
        copy_in: cluster.copy_in,
        horizon: rates.horizon(),
        channels: cluster.channels,
    }
}

/// A node, which has one capacity.
#[tactic(auto, unfolding(crate::specs::Unrolled::unrolled_node))]
fn unrolled_node(alloc: Global, node: &RatesNode) -> Result<Node, MemoryFault>
    ensures { IfOk result (λ made. made ≡ unrolled_node node.now) }
{
    let name = node.name.copy(alloc)?;
    let capacities = Vec::from_slice(alloc, &[node.capacity])?;
    Ok(Node {
        name,
        capacities: Numbers::new(capacities),
    })
}

/// The nodes.
fn unrolled_nodes(alloc: Global, rates: &Rates) -> Result<Vec<Node>, MemoryFault>
    ensures { IfOk result (λ nodes. nodes.items ≡ map unrolled_node rates.now.nodes) }
{
    let mut nodes = Vec::new(alloc);
    for node in rates.nodes() {
        nodes.push(unrolled_node(alloc, node)?)?;
    }
    Ok(nodes)
}

/// The jobs, and behind them the stores.
fn unrolled_processes(alloc: Global, rates: &Rates) -> Result<Vec<Process>, MemoryFault>
    ensures { IfOk result (λ processes. processes.items ≡ unrolled_processes rates.now) }
{
    let waits = waits_of(alloc, rates)?;
    let mut processes = Vec::new(alloc);
    push_all_jobs(alloc, &mut processes, rates, &waits)?;
    push_all_stores(alloc, &mut processes, rates)?;
    Ok(processes)
}

/// The tables of one cycle, unless a list is longer than that of any instance; no process is made before all are counted.
pub fn tables_of(alloc: Global, rates: &Rates) -> Result<Parts, TableFault>
    ensures ok { IfOk result (λ tables. instance_of tables ≡ unrolled rates.now) }
    ensures err { IfErr result (IsTableFault rates.now) }
{
    let places = Places::of(alloc, rates)?;
    let links = all_links(alloc, rates, &places)?;
    let messages = all_messages(alloc, rates, &places)?;
    let nodes = unrolled_nodes(alloc, rates)?;
    let processes = unrolled_processes(alloc, rates)?;
    Ok(Parts {
        cluster: unrolled_cluster(rates),
        nodes,
        processes,
        links,
        messages,
    })
}
