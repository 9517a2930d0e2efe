//! What hangs on what?

ghost use Rattle.std.specs.Prelude.{◌≡◌, ◌++◌, IfOk, length};
ghost use Rattle.ttp_model.specs.Groups.{with_keys};
ghost use Rattle.ttp_model.specs.Network.{links_from, links_to, sent_by, received_by, processes_on, messages_of};
ghost use Rattle.ttp_model.specs.Networks.{AreGroups, AreLinksOf, AreMessagesOf, IsNetworkOf};
ghost use Rattle.ttp_model.specs.Parts.{instance_of};
ghost use Rattle.ttp_model.specs.Rules.{IsInstance};

use crate::groups::Groups;
use crate::parts::Parts;
use std::alloc::{AllocError, Global};

/// The links by their processes, each list rising.
#[derive(Drop)]
pub struct LinkLists {
    /// By the process that they lead from.
    pub before: Groups,
    /// By the process that they lead to.
    pub after: Groups,
}

/// The messages by their processes and nodes, each list rising.
#[derive(Drop)]
pub struct MessageLists {
    /// By the process that sends them.
    pub sender: Groups,
    /// By each process that receives them.
    pub receiver: Groups,
    /// By the node that sends them.
    pub source: Groups,
}

/// The links, messages and processes by what they hang on, each list rising.
#[derive(Drop)]
pub struct Network {
    pub links: LinkLists,
    pub messages: MessageLists,
    /// The processes by their node.
    pub processes: Groups,
}

/// The links by the process that they lead from.
fn by_first(alloc: Global, parts: &Parts) -> Result<Groups, AllocError>
    requires { IsInstance (instance_of parts.now) }
    ensures { IfOk result (λ groups. AreGroups groups (links_from (instance_of parts.now))) }
{
    let mut pairs = Vec::with_capacity(alloc, parts.links.len())?;
    for l in 0..parts.links.len() {
        pairs.push((parts.links[l].before, l as u32))?;
    }
    Groups::of(alloc, parts.processes.len(), pairs.as_slice())
}

/// The links by the process that they lead to.
fn by_second(alloc: Global, parts: &Parts) -> Result<Groups, AllocError>
    requires { IsInstance (instance_of parts.now) }
    ensures { IfOk result (λ groups. AreGroups groups (links_to (instance_of parts.now))) }
{
    let mut pairs = Vec::with_capacity(alloc, parts.links.len())?;
    for l in 0..parts.links.len() {
        pairs.push((parts.links[l].after, l as u32))?;
    }
    Groups::of(alloc, parts.processes.len(), pairs.as_slice())
}

/// The messages by the process that sends them.
fn by_sender(alloc: Global, parts: &Parts) -> Result<Groups, AllocError>
    requires { IsInstance (instance_of parts.now) }
    ensures { IfOk result (λ groups. AreGroups groups (sent_by (instance_of parts.now))) }
{
    let mut pairs = Vec::with_capacity(alloc, parts.messages.len())?;
    for m in 0..parts.messages.len() {
        let message = &parts.messages[m];
        pairs.push((message.sender, m as u32))?;
    }
    Groups::of(alloc, parts.processes.len(), pairs.as_slice())
}

/// Adds a message behind each of its receivers.
fn add_receivers(receivers: &[u32], m: u32, pairs: &mut Vec<(u32, u32)>) -> Result<(), AllocError>
    ensures { IfOk result (λ _. pairs.new.items ≡ pairs.old.items ++ with_keys m receivers.now) }
{
    for q in receivers {
        pairs.push((*q, m))?;
    }
    Ok(())
}

/// The messages by each process that receives them.
fn by_receiver(alloc: Global, parts: &Parts) -> Result<Groups, AllocError>
    requires { IsInstance (instance_of parts.now) }
    ensures { IfOk result (λ groups. AreGroups groups (received_by (instance_of parts.now))) }
{
    let mut pairs = Vec::new(alloc);
    for m in 0..parts.messages.len() {
        let message = &parts.messages[m];
        add_receivers(message.receivers.as_slice(), m as u32, &mut pairs)?;
    }
    Groups::of(alloc, parts.processes.len(), pairs.as_slice())
}

/// The messages by the node that sends them.
fn by_source(alloc: Global, parts: &Parts) -> Result<Groups, AllocError>
    requires { IsInstance (instance_of parts.now) }
    ensures { IfOk result (λ groups. AreGroups groups (messages_of (instance_of parts.now))) }
{
    let mut pairs = Vec::with_capacity(alloc, parts.messages.len())?;
    for m in 0..parts.messages.len() {
        let message = &parts.messages[m];
        let sender = &parts.processes[message.sender as usize];
        pairs.push((sender.node, m as u32))?;
    }
    Groups::of(alloc, parts.nodes.len(), pairs.as_slice())
}

/// The processes by their node.
fn by_node(alloc: Global, parts: &Parts) -> Result<Groups, AllocError>
    requires { IsInstance (instance_of parts.now) }
    ensures { IfOk result (λ groups. AreGroups groups (processes_on (instance_of parts.now))) }
{
    let mut pairs = Vec::with_capacity(alloc, parts.processes.len())?;
    for p in 0..parts.processes.len() {
        let process = &parts.processes[p];
        pairs.push((process.node, p as u32))?;
    }
    Groups::of(alloc, parts.nodes.len(), pairs.as_slice())
}

impl LinkLists {
    /// The lists of the links.
    fn of(alloc: Global, parts: &Parts) -> Result<Self, AllocError>
        requires { IsInstance (instance_of parts.now) }
        ensures { IfOk result (λ lists. AreLinksOf (instance_of parts.now) lists) }
    {
        let before = by_first(alloc, parts)?;
        let after = by_second(alloc, parts)?;
        Ok(LinkLists { before, after })
    }
}

impl MessageLists {
    /// The lists of the messages.
    fn of(alloc: Global, parts: &Parts) -> Result<Self, AllocError>
        requires { IsInstance (instance_of parts.now) }
        ensures { IfOk result (λ lists. AreMessagesOf (instance_of parts.now) lists) }
    {
        let sender = by_sender(alloc, parts)?;
        let receiver = by_receiver(alloc, parts)?;
        let source = by_source(alloc, parts)?;
        Ok(MessageLists {
            sender,
            receiver,
            source,
        })
    }
}

impl Network {
    /// The lists of tables that keep all rules. A few passes over the tables and their receivers; of memory a number for each entry of a
    /// list, one for each list, and two more for each entry of one kind of list while that is made.
    pub fn of(alloc: Global, parts: &Parts) -> Result<Self, AllocError>
        requires { IsInstance (instance_of parts.now) }
        ensures { IfOk result (λ network. IsNetworkOf (instance_of parts.now) network) }
    {
        let links = LinkLists::of(alloc, parts)?;
        let messages = MessageLists::of(alloc, parts)?;
        let processes = by_node(alloc, parts)?;
        Ok(Network {
            links,
            messages,
            processes,
        })
    }
}
