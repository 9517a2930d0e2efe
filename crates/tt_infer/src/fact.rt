//! Which facts are there, and what do links and messages name?

ghost use Rattle.std.specs.Prelude.{◌≡◌};
ghost use Rattle.ttp_model.specs.Instance.{link_at, node_of, source_of};
ghost use Rattle.sought_plans.specs.Premises.{sender_of};

use ttp_model::Instance;

/// Something that is known of the plans that are sought.
#[derive(Clone, Copy)]
pub enum Fact {
    /// When a process starts at least.
    Start(u32),
    /// When a process ends at most.
    End(u32),
    /// The least round of a message.
    FirstRound(u32),
    /// The first round that is too late for a message.
    LateRound(u32),
    /// That the first process ends before the second starts.
    Order(u32, u32),
    /// That no plan is left.
    Closed,
}

/// The second process of a link: 0 where the link isn't there.
pub fn link_after(instance: &Instance, l: u32) -> u32
    ensures { result ≡ (link_at instance.now l).after }
{
    if (l as usize) < instance.links().len() {
        instance.link_at(l as usize).after
    } else {
        0
    }
}

/// The first process of a link: 0 where the link isn't there.
pub fn link_before(instance: &Instance, l: u32) -> u32
    ensures { result ≡ (link_at instance.now l).before }
{
    if (l as usize) < instance.links().len() {
        instance.link_at(l as usize).before
    } else {
        0
    }
}

/// The process that sends a message: 0 where the message isn't there.
pub fn sender(instance: &Instance, m: u32) -> u32
    ensures { result ≡ sender_of instance.now m }
{
    if (m as usize) < instance.messages().len() {
        instance.message_at(m as usize).sender
    } else {
        0
    }
}

/// The node of a process: 0 where the process isn't there.
fn home(instance: &Instance, p: u32) -> u32
    ensures { result ≡ node_of instance.now p }
{
    if (p as usize) < instance.processes().len() {
        instance.node_of(p as usize)
    } else {
        0
    }
}

/// The node that a message is sent from: that of process 0 where the message isn't there, and 0 where that isn't either.
pub fn sending_node(instance: &Instance, m: u32) -> u32
    ensures { result ≡ source_of instance.now m }
{
    home(instance, sender(instance, m))
}
