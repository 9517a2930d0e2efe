//! How are the tables of an instance written?

ghost use Rattle.std.specs.Prelude.{◌<◌, All, length};

use crate::error::Key;
use line_text::push_number;
use std::alloc::AllocError;
use ttp_model::{Cluster, Instance, Link, MOST_TICKS, Message, Node, Process};

/// Adds the line that begins a table of an array.
fn push_head(text: &mut Vec<u8>, array: Key) -> Result<(), AllocError> {
    text.extend_from_slice(b"\n[[")?;
    text.extend_from_slice(array.text().as_bytes())?;
    text.extend_from_slice(b"]]\n")
}

/// Adds a key with the sign behind it.
fn push_key(text: &mut Vec<u8>, key: Key) -> Result<(), AllocError> {
    text.extend_from_slice(key.text().as_bytes())?;
    text.extend_from_slice(b" = ")
}

/// Adds a name between marks: a name has no byte that would have to be written otherwise.
fn push_quoted(text: &mut Vec<u8>, name: &[u8]) -> Result<(), AllocError> {
    text.push(b'"')?;
    text.extend_from_slice(name)?;
    text.push(b'"')?;
    Ok(())
}

/// Adds a line with a name.
fn push_name(text: &mut Vec<u8>, key: Key, name: &[u8]) -> Result<(), AllocError> {
    push_key(text, key)?;
    push_quoted(text, name)?;
    text.push(b'\n')?;
    Ok(())
}

/// Adds a line with a number.
fn push_count(text: &mut Vec<u8>, key: Key, number: u32) -> Result<(), AllocError> {
    push_key(text, key)?;
    push_number(text, u64::from(number))?;
    text.push(b'\n')?;
    Ok(())
}

/// Adds a line with numbers.
fn push_counts(text: &mut Vec<u8>, key: Key, numbers: &[u32]) -> Result<(), AllocError> {
    push_key(text, key)?;
    text.push(b'[')?;
    for (k, number) in numbers.iter().enumerate() {
        if k > 0 {
            text.extend_from_slice(b", ")?;
        }
        push_number(text, u64::from(*number))?;
    }
    text.extend_from_slice(b"]\n")
}

/// Adds a line with the names of processes.
fn push_names(
    text: &mut Vec<u8>,
    key: Key,
    instance: &Instance,
    processes: &[u32],
) -> Result<(), AllocError>
    requires { All (λ p. p < length instance.now.processes) processes.now }
{
    push_key(text, key)?;
    text.push(b'[')?;
    for (k, p) in processes.iter().enumerate() {
        if k > 0 {
            text.extend_from_slice(b", ")?;
        }
        push_quoted(text, instance.process_at(*p as usize).name.as_bytes())?;
    }
    text.extend_from_slice(b"]\n")
}

/// Adds the table of a cluster; of one channel nothing is said.
pub fn push_cluster(text: &mut Vec<u8>, cluster: &Cluster) -> Result<(), AllocError> {
    text.extend_from_slice(b"[cluster]\n")?;
    push_count(text, Key::Precision, cluster.precision)?;
    push_count(text, Key::Lead, cluster.lead)?;
    push_count(text, Key::Trail, cluster.trail)?;
    push_count(text, Key::Head, cluster.head)?;
    push_count(text, Key::PerByte, cluster.per_byte)?;
    push_count(text, Key::CopyOut, cluster.copy_out)?;
    push_count(text, Key::CopyIn, cluster.copy_in)?;
    push_count(text, Key::Horizon, cluster.horizon)?;
    if cluster.channels != 1 {
        push_count(text, Key::Channels, cluster.channels)?;
    }
    Ok(())
}

/// Adds the tables of nodes.
pub fn push_nodes(text: &mut Vec<u8>, nodes: &[Node]) -> Result<(), AllocError> {
    for node in nodes {
        push_head(text, Key::Node)?;
        push_name(text, Key::Name, node.name.as_bytes())?;
        push_counts(text, Key::Capacities, node.capacities.as_slice())?;
    }
    Ok(())
}

/// Adds the table of a process on a node of this name; nothing is said of a release at once, nor of the latest deadline.
fn push_process(text: &mut Vec<u8>, node: &[u8], process: &Process) -> Result<(), AllocError> {
    push_head(text, Key::Process)?;
    push_name(text, Key::Name, process.name.as_bytes())?;
    push_name(text, Key::Node, node)?;
    push_count(text, Key::Wcet, process.wcet)?;
    if process.release != 0 {
        push_count(text, Key::Release, process.release)?;
    }
    if process.deadline != MOST_TICKS {
        push_count(text, Key::Deadline, process.deadline)?;
    }
    Ok(())
}

/// Adds the tables of processes.
pub fn push_processes(text: &mut Vec<u8>, instance: &Instance) -> Result<(), AllocError> {
    for p in 0..instance.processes().len() {
        let node = &instance.nodes()[instance.node_of(p) as usize];
        push_process(text, node.name.as_bytes(), instance.process_at(p))?;
    }
    Ok(())
}

/// Adds the table of a link.
fn push_link(text: &mut Vec<u8>, instance: &Instance, link: Link) -> Result<(), AllocError>
    requires before { link.before < length instance.now.processes }
    requires after { link.after < length instance.now.processes }
{
    let before = instance.process_at(link.before as usize);
    let after = instance.process_at(link.after as usize);
    push_head(text, Key::Link)?;
    push_name(text, Key::From, before.name.as_bytes())?;
    push_name(text, Key::To, after.name.as_bytes())
}

/// Adds the tables of links.
pub fn push_links(text: &mut Vec<u8>, instance: &Instance) -> Result<(), AllocError> {
    for l in 0..instance.links().len() {
        push_link(text, instance, instance.link_at(l))?;
    }
    Ok(())
}

/// Adds the table of a message; nothing is said of one that may be on one channel.
fn push_message(
    text: &mut Vec<u8>,
    instance: &Instance,
    message: &Message,
) -> Result<(), AllocError>
    requires sender { message.now.sender < length instance.now.processes }
    requires receivers { All (λ q. q < length instance.now.processes) message.now.receivers }
{
    let sender = instance.process_at(message.sender as usize);
    push_head(text, Key::Message)?;
    push_name(text, Key::Name, message.name.as_bytes())?;
    push_name(text, Key::From, sender.name.as_bytes())?;
    push_names(text, Key::To, instance, message.receivers.as_slice())?;
    push_count(text, Key::Bytes, message.bytes)?;
    if message.both {
        push_key(text, Key::Both)?;
        text.extend_from_slice(b"true\n")?;
    }
    Ok(())
}

/// Adds the tables of messages.
pub fn push_messages(text: &mut Vec<u8>, instance: &Instance) -> Result<(), AllocError> {
    for m in 0..instance.messages().len() {
        push_message(text, instance, instance.message_at(m))?;
    }
    Ok(())
}
