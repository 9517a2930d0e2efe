//! Which cluster is it in which what a chain carries may be so old?

ghost use Rattle.std.specs.Prelude.{◌≡◌, ◌<◌, IfOk, length, slice_index_or, slice_set};
ghost use Rattle.rates_model.specs.Parts.{rates_of};
ghost use Rattle.rates_model.specs.Rates.{no_chain};
ghost use Rattle.rates_model.specs.Rules.{AreTicks};
ghost use Rattle.endless_schedules.specs.Bounds.{with_age};

use rates_model::{Chain, Rates, RatesMessage, RatesNode, RatesParts, RatesProcess};
use std::alloc::Global;
use ttp_model::MemoryFault;

/// The same node.
fn copy_of_node(alloc: Global, node: &RatesNode) -> Result<RatesNode, MemoryFault>
    ensures { IfOk result (λ copy. copy ≡ node.now) }
{
    let name = node.name.copy(alloc)?;
    Ok(RatesNode { name, ..*node })
}

/// The same process.
fn copy_of_process(alloc: Global, process: &RatesProcess) -> Result<RatesProcess, MemoryFault>
    ensures { IfOk result (λ copy. copy ≡ process.now) }
{
    let name = process.name.copy(alloc)?;
    Ok(RatesProcess { name, ..*process })
}

/// The same message.
fn copy_of_message(alloc: Global, message: &RatesMessage) -> Result<RatesMessage, MemoryFault>
    ensures { IfOk result (λ copy. copy ≡ message.now) }
{
    let name = message.name.copy(alloc)?;
    let receivers = message.receivers.copy(alloc)?;
    Ok(RatesMessage {
        name,
        receivers,
        ..*message
    })
}

/// The same chain.
fn copy_of_chain(alloc: Global, chain: &Chain) -> Result<Chain, MemoryFault>
    ensures { IfOk result (λ copy. copy ≡ chain.now) }
{
    let name = chain.name.copy(alloc)?;
    let through = chain.through.copy(alloc)?;
    Ok(Chain {
        name,
        through,
        age: chain.age,
    })
}

/// The same nodes.
fn copies_of_nodes(alloc: Global, nodes: &[RatesNode]) -> Result<Vec<RatesNode>, MemoryFault>
    ensures { IfOk result (λ copies. copies.items ≡ nodes.now) }
{
    let mut copies = Vec::new(alloc);
    for node in nodes {
        copies.push(copy_of_node(alloc, node)?)?;
    }
    Ok(copies)
}

/// The same processes.
fn copies_of_processes(
    alloc: Global,
    processes: &[RatesProcess],
) -> Result<Vec<RatesProcess>, MemoryFault>
    ensures { IfOk result (λ copies. copies.items ≡ processes.now) }
{
    let mut copies = Vec::new(alloc);
    for process in processes {
        copies.push(copy_of_process(alloc, process)?)?;
    }
    Ok(copies)
}

/// The same messages.
fn copies_of_messages(
    alloc: Global,
    messages: &[RatesMessage],
) -> Result<Vec<RatesMessage>, MemoryFault>
    ensures { IfOk result (λ copies. copies.items ≡ messages.now) }
{
    let mut copies = Vec::new(alloc);
    for message in messages {
        copies.push(copy_of_message(alloc, message)?)?;
    }
    Ok(copies)
}

/// The same chains.
fn copies_of_chains(alloc: Global, chains: &[Chain]) -> Result<Vec<Chain>, MemoryFault>
    ensures { IfOk result (λ copies. copies.items ≡ chains.now) }
{
    let mut copies = Vec::new(alloc);
    for chain in chains {
        copies.push(copy_of_chain(alloc, chain)?)?;
    }
    Ok(copies)
}

/// Sets the bound on the age of the chain of an index.
fn set_age(chains: &mut Vec<Chain>, x: usize, age: u32)
    requires { x < length chains.old.items }
    ensures { chains.new.items ≡ slice_set chains.old.items x (record (slice_index_or chains.old.items x no_chain) { age = age }) }
{
    let chain = &mut chains[x];
    chain.age = age;
}

/// The tables of that cluster.
fn parts_with(alloc: Global, rates: &Rates, x: usize, age: u32) -> Result<RatesParts, MemoryFault>
    requires { x < length rates.now.chains }
    ensures { IfOk result (λ parts. rates_of parts ≡ with_age rates.now x age) }
{
    let cluster = *rates.cluster();
    let nodes = copies_of_nodes(alloc, rates.nodes())?;
    let processes = copies_of_processes(alloc, rates.processes())?;
    let links = Vec::from_slice(alloc, rates.links())?;
    let messages = copies_of_messages(alloc, rates.messages())?;
    let mut chains = copies_of_chains(alloc, rates.chains())?;
    set_age(&mut chains, x, age);
    Ok(RatesParts {
        cluster,
        nodes,
        processes,
        links,
        messages,
        chains,
    })
}

/// The cluster in which what the chain of an index carries may be so old, 1 to 1,000,000 ticks; all else is as it was. Memory is taken for
/// all of it.
pub fn with_bound(alloc: Global, rates: &Rates, x: usize, age: u32) -> Result<Rates, MemoryFault>
    requires there { x < length rates.now.chains }
    requires ticks { AreTicks age }
    ensures { IfOk result (λ other. other ≡ with_age rates.now x age) }
{
    let _chains = rates.chains();
    let parts = parts_with(alloc, rates, x, age)?;
    match Rates::build(parts) {
        Ok(other) => Ok(other),
        Err(_) => unreachable!(),
    }
}
