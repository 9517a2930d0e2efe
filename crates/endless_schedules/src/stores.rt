//! Where is a message stored for the next cycle, and which processes do that?

ghost use Rattle.std.specs.Prelude.{◌≡◌, ◌<◌, ◌++◌, ◌==◌, All, IfOk, OnOk, length, map};
ghost use Rattle.std.specs.List.{flat_map, list_any};
ghost use Rattle.rates_model.specs.Rates.{node_of};
ghost use Rattle.rates_model.specs.Rules.{IsRatesProcess};
ghost use Rattle.endless_schedules.specs.Stores.{all_storing, each_once, storing_nodes};
ghost use Rattle.endless_schedules.specs.Unrolled.{store, stores};

use crate::names::stored_name;
use rates_model::{Rates, RatesMessage};
use std::alloc::Global;
use ttp_model::{MemoryFault, Numbers, Process};

/// Whether a node is one of these.
fn has_node(nodes: &[u32], node: u32) -> bool
    ensures { result ≡ list_any (λ n. n == node) nodes.now }
{
    nodes.iter().any(|n| *n == node)
}

/// The nodes of these processes, each once.
fn receiving_nodes(alloc: Global, rates: &Rates, receivers: &[u32]) -> Result<Vec<u32>, MemoryFault>
    requires { All (IsRatesProcess rates.now) receivers.now }
    ensures nodes { IfOk result (λ nodes. nodes.items ≡ each_once (map (node_of rates.now) receivers.now)) }
    ensures inside { IfOk result (λ nodes. All (λ n. n < length rates.now.nodes) nodes.items) }
{
    let mut nodes = Vec::new(alloc);
    for receiver in receivers {
        let node = rates.process_at(*receiver as usize).node;
        if !has_node(&nodes, node) {
            nodes.push(node)?;
        }
    }
    Ok(nodes)
}

/// The nodes that store a message.
pub fn storing_nodes(
    alloc: Global,
    rates: &Rates,
    message: &RatesMessage,
) -> Result<Numbers, MemoryFault>
    requires { All (IsRatesProcess rates.now) message.now.receivers }
    ensures nodes { IfOk result (λ nodes. nodes ≡ storing_nodes rates.now message.now) }
    ensures inside { IfOk result (λ nodes. All (λ n. n < length rates.now.nodes) nodes) }
{
    if message.delay == 0 {
        return Ok(Numbers::new(Vec::new(alloc)));
    }
    let nodes = receiving_nodes(alloc, rates, message.receivers.as_slice())?;
    Ok(Numbers::new(nodes))
}

/// The store of a message at a node.
#[tactic(auto, unfolding(crate::specs::Unrolled::store))]
fn store(
    alloc: Global,
    rates: &Rates,
    message: &RatesMessage,
    node: u32,
) -> Result<Process, MemoryFault>
    requires { node < length rates.now.nodes }
    ensures { IfOk result (λ made. made ≡ store rates.now message.now node) }
{
    let name = stored_name(alloc, &message.name, &rates.nodes()[node as usize].name)?;
    Ok(Process {
        name,
        node,
        wcet: rates.cluster().store,
        release: 0,
        deadline: rates.horizon(),
    })
}

/// Those that store each message.
pub fn all_storing(alloc: Global, rates: &Rates) -> Result<Vec<Numbers>, MemoryFault>
    ensures nodes { IfOk result (λ all. all.items ≡ all_storing rates.now) }
{
    let mut all = Vec::new(alloc);
    for m in 0..rates.messages().len() {
        all.push(storing_nodes(alloc, rates, rates.message_at(m))?)?;
    }
    Ok(all)
}

/// Adds the stores of a message.
fn push_stores(
    alloc: Global,
    list: &mut Vec<Process>,
    rates: &Rates,
    message: &RatesMessage,
) -> Result<(), MemoryFault>
    requires { All (IsRatesProcess rates.now) message.now.receivers }
    ensures { OnOk result (list.new.items ≡ list.old.items ++ stores rates.now message.now) }
{
    let nodes = storing_nodes(alloc, rates, message)?;
    push_stores_at(alloc, list, rates, message, nodes.as_slice())
}

/// Adds those at these nodes.
fn push_stores_at(
    alloc: Global,
    list: &mut Vec<Process>,
    rates: &Rates,
    message: &RatesMessage,
    nodes: &[u32],
) -> Result<(), MemoryFault>
    requires { All (λ n. n < length rates.now.nodes) nodes.now }
    ensures { OnOk result (list.new.items ≡ list.old.items ++ map (store rates.now message.now) nodes.now) }
{
    for node in nodes {
        list.push(store(alloc, rates, message, *node)?)?;
    }
    Ok(())
}

/// Adds the stores of all messages.
pub fn push_all_stores(
    alloc: Global,
    list: &mut Vec<Process>,
    rates: &Rates,
) -> Result<(), MemoryFault>
    ensures { OnOk result (list.new.items ≡ list.old.items ++ flat_map (stores rates.now) rates.now.messages) }
{
    for m in 0..rates.messages().len() {
        push_stores(alloc, list, rates, rates.message_at(m))?;
    }
    Ok(())
}
