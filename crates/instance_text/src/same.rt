//! Are two instances the same?

ghost use Rattle.std.specs.Prelude.{◌≡◌, IsTrue};

use ttp_model::{Cluster, Instance, Link, Message, Node, Process};

fn is_same_cluster(one: &Cluster, other: &Cluster) -> bool
    ensures { IsTrue result → one.now ≡ other.now }
{
    one == other
}

fn are_same_nodes(some: &[Node], others: &[Node]) -> bool
    ensures { IsTrue result → some.now ≡ others.now }
{
    some == others
}

fn are_same_processes(some: &[Process], others: &[Process]) -> bool
    ensures { IsTrue result → some.now ≡ others.now }
{
    some == others
}

fn are_same_links(some: &[Link], others: &[Link]) -> bool
    ensures { IsTrue result → some.now ≡ others.now }
{
    some == others
}

fn are_same_messages(some: &[Message], others: &[Message]) -> bool
    ensures { IsTrue result → some.now ≡ others.now }
{
    some == others
}

/// Whether two instances have the same numbers and names in all their tables.
#[tactic(auto, using(crate::proofs::Alike::instances_same))]
pub fn is_same(one: &Instance, other: &Instance) -> bool
    ensures { IsTrue result → one.now ≡ other.now }
{
    is_same_cluster(one.cluster(), other.cluster())
        && are_same_nodes(one.nodes(), other.nodes())
        && are_same_processes(one.processes(), other.processes())
        && are_same_links(one.links(), other.links())
        && are_same_messages(one.messages(), other.messages())
}
