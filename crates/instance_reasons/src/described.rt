//! What is told of an instance that keeps its rules?

ghost use Rattle.std.specs.Prelude.{◌≡◌, ◌<◌, IfOk, length};
ghost use Rattle.sentences.specs.Lists.{AreTold};
ghost use Rattle.instance_reasons.specs.Described.{AreSizes, IsLargeMessage, has_room, is_large, large_messages};

use sentences::Word::{Bytes, Count, Number, Text};
use sentences::{Counted, tell};
use std::alloc::{AllocError, Global};
use std::fmt;
use std::fmt::Display;
use ttp_model::Instance;

/// A message that fits into no capacity of its sender's node, so that no plan is valid; in bytes.
#[derive(Clone, Copy)]
pub struct LargeMessage<'a> {
    pub message: &'a str,
    pub bytes: u32,
    pub node: &'a str,
    /// All capacities of that node.
    pub offered: &'a [u32],
}

/// How large an instance is, and all messages that fit into no frame.
#[derive(Drop)]
pub struct Sizes<'a> {
    pub nodes: u64,
    pub processes: u64,
    pub links: u64,
    pub messages: u64,
    pub too_large: Vec<LargeMessage<'a>>,
}

/// How large an instance is. Takes memory for the messages that are too large; a pass over messages and capacities.
pub fn sizes_of(alloc: Global, instance: &Instance) -> Result<Sizes<'_>, AllocError>
    ensures { IfOk result (AreSizes instance.now) }
{
    Ok(Sizes {
        nodes: instance.nodes().len() as u64,
        processes: instance.processes().len() as u64,
        links: instance.links().len() as u64,
        messages: instance.messages().len() as u64,
        too_large: large_messages(alloc, instance)?,
    })
}

/// The messages that fit into no capacity.
fn large_messages(alloc: Global, instance: &Instance) -> Result<Vec<LargeMessage<'_>>, AllocError>
    ensures { IfOk result (λ told. AreTold (IsLargeMessage instance.now) (large_messages instance.now) told.items) }
{
    let mut told = Vec::new(alloc);
    for m in 0..instance.messages().len() {
        if is_large(instance, m) {
            told.push(large_message(instance, m))?;
        }
    }
    Ok(told)
}

/// Whether message `m` fits into none.
fn is_large(instance: &Instance, m: usize) -> bool
    requires { m < length instance.now.messages }
    ensures { result ≡ is_large instance.now m }
{
    let bytes = instance.message_at(m).bytes;
    let node = &instance.nodes()[instance.source_of(m) as usize];
    !has_room(bytes, node.capacities.as_slice())
}

/// Whether some capacity has room for so many bytes.
fn has_room(bytes: u32, capacities: &[u32]) -> bool
    ensures { result ≡ has_room bytes capacities.now }
{
    capacities.iter().any(|capacity| bytes <= *capacity)
}

/// What is told of message `m`.
fn large_message(instance: &Instance, m: usize) -> LargeMessage<'_>
    requires { m < length instance.now.messages }
    ensures { IsLargeMessage instance.now m result }
{
    LargeMessage {
        message: instance.message_name(m),
        bytes: instance.message_at(m).bytes,
        node: instance.source_name(m),
        offered: instance.nodes()[instance.source_of(m) as usize]
            .capacities
            .as_slice(),
    }
}

impl<'a> fmt::Display for LargeMessage<'a> {
    fn fmt<W: fmt::Write>(&self, f: &mut fmt::Formatter<W>) -> fmt::Result {
        let (message, bytes, node) = (self.message, Bytes(u64::from(self.bytes)), self.node);
        tell(
            f,
            "Message {} has {}, and {} offers",
            &[Text(message), bytes, Text(node)],
        )?;
        for capacity in self.offered {
            tell(f, " {}", &[Number(u64::from(*capacity))])?;
        }
        f.write_str(": no plan is valid.\n")
    }
}

impl<'a> fmt::Display for Sizes<'a> {
    fn fmt<W: fmt::Write>(&self, f: &mut fmt::Formatter<W>) -> fmt::Result {
        let nodes = Counted {
            number: self.nodes,
            one: "node",
            many: "nodes",
        };
        let processes = Counted {
            number: self.processes,
            one: "process",
            many: "processes",
        };
        let links = Counted {
            number: self.links,
            one: "link",
            many: "links",
        };
        let messages = Counted {
            number: self.messages,
            one: "message",
            many: "messages",
        };
        tell(
            f,
            "instance {}, {}, {}, {}\n",
            &[
                Count(nodes),
                Count(processes),
                Count(links),
                Count(messages),
            ],
        )?;
        for message in self.too_large.as_slice() {
            message.fmt(f)?;
        }
        Ok(())
    }
}
