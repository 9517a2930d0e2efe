//! What is a node, a process or a message in memory of its own?

ghost use Rattle.std.specs.Prelude.{◌≡◌, IfOk};

use std::alloc::Global;
use ttp_model::{MemoryFault, Message, Node, Process};

/// The same node.
fn copy_of_node(alloc: Global, node: &Node) -> Result<Node, MemoryFault>
    ensures { IfOk result (λ copy. copy ≡ node.now) }
{
    let name = node.name.copy(alloc)?;
    let capacities = node.capacities.copy(alloc)?;
    Ok(Node { name, capacities })
}

/// The same process.
fn copy_of_process(alloc: Global, process: &Process) -> Result<Process, MemoryFault>
    ensures { IfOk result (λ copy. copy ≡ process.now) }
{
    let name = process.name.copy(alloc)?;
    Ok(Process { name, ..*process })
}

/// The same message.
fn copy_of_message(alloc: Global, message: &Message) -> Result<Message, MemoryFault>
    ensures { IfOk result (λ copy. copy ≡ message.now) }
{
    let name = message.name.copy(alloc)?;
    let receivers = message.receivers.copy(alloc)?;
    Ok(Message {
        name,
        receivers,
        ..*message
    })
}

/// The same nodes.
pub fn copies_of_nodes(alloc: Global, nodes: &[Node]) -> Result<Vec<Node>, MemoryFault>
    ensures { IfOk result (λ copies. copies.items ≡ nodes.now) }
{
    let mut copies = Vec::new(alloc);
    for node in nodes {
        copies.push(copy_of_node(alloc, node)?)?;
    }
    Ok(copies)
}

/// The same processes.
pub fn copies_of_processes(
    alloc: Global,
    processes: &[Process],
) -> Result<Vec<Process>, MemoryFault>
    ensures { IfOk result (λ copies. copies.items ≡ processes.now) }
{
    let mut copies = Vec::new(alloc);
    for process in processes {
        copies.push(copy_of_process(alloc, process)?)?;
    }
    Ok(copies)
}

/// The same messages.
pub fn copies_of_messages(alloc: Global, messages: &[Message]) -> Result<Vec<Message>, MemoryFault>
    ensures { IfOk result (λ copies. copies.items ≡ messages.now) }
{
    let mut copies = Vec::new(alloc);
    for message in messages {
        copies.push(copy_of_message(alloc, message)?)?;
    }
    Ok(copies)
}
