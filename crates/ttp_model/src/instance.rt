//! What an instance is: tables that keep all rules.

ghost use Rattle.std.specs.Prelude.{◌≡◌, ◌+◌, ◌<◌, ◌≤◌, All, IfOk, IfErr, IsOkUnless, length};
ghost use Rattle.ttp_model.specs.declared.limits.TheConstants.{MOST_BYTES, MOST_LINKS, MOST_MESSAGES, MOST_PROCESSES};
ghost use Rattle.ttp_model.specs.Instance.{instance_with, process_at, link_at, message_at, node_of, source_of};
ghost use Rattle.ttp_model.specs.Network.{links_from, links_to, sent_by, received_by, processes_on, messages_of};
ghost use Rattle.ttp_model.specs.Rules.{IsInstance, IsProcessInRange};
ghost use Rattle.ttp_model.specs.Refusals.{IsRefusal};
ghost use Rattle.ttp_model.specs.declared.error.ModelError.TheVariants.{OutOfMemory};

use crate::error::ModelError;
use crate::network::Network;
use crate::parts::{Cluster, Link, Message, Node, Parts, Process};
use crate::rules;
use std::alloc::Global;
use std::marker::Model;

/// A cluster with what is to be scheduled on it. Limits, ranges and indices are kept, names are unique in
/// their list, and no process waits for itself.
#[derive(Drop)]
pub struct Instance {
    parts: Parts,
    network: Network,
}

impl Model for Instance {
    ghost use Rattle.ttp_model.specs.Instance.{Instance};
    ghost use Rattle.ttp_model.specs.Parts.{instance_of};
    ghost use Rattle.ttp_model.specs.Networks.{AreKept};

    ghost Value = { Instance };

    ghost view = { λ s. instance_of s.parts };

    ghost invariant = { λ s. AreKept s.parts s.network };
}

impl Instance {
    /// The instance that the tables are, or the first rule that they break, at its first place: lengths, then
    /// receivers, names, indices, ranges, capacities, the bus, deadlines, links, cycles, and channels last. Memory is
    /// taken for the search for cycles and for the lists of what hangs on what alone, behind all rules but that on
    /// channels.
    pub fn build(
        alloc: Global,
        cluster: Cluster,
        nodes: Vec<Node>,
        processes: Vec<Process>,
        links: Vec<Link>,
        messages: Vec<Message>,
    ) -> Result<Self, ModelError>
        ensures ok { IfOk result (λ i. IsInstance i
            × (i ≡ instance_with cluster nodes.items processes.items links.items messages.items)) }
        ensures err { IfErr result
            (IsRefusal (instance_with cluster nodes.items processes.items links.items messages.items)) }
        ensures only { IsInstance (instance_with cluster nodes.items processes.items links.items messages.items)
            → IsOkUnless result OutOfMemory }
    {
        let parts = Parts {
            cluster,
            nodes,
            processes,
            links,
            messages,
        };
        rules::judge(alloc, &parts)?;
        let network = Network::of(alloc, &parts)?;
        Ok(Instance { parts, network })
    }

    pub fn cluster(&self) -> &Cluster
        ensures value { result.now ≡ self.now.cluster }
        ensures instance { IsInstance self.now }
    {
        &self.parts.cluster
    }

    /// The first tick, and the first round, past the horizon.
    pub fn past_horizon(&self) -> u32
        ensures value { result ≡ self.now.cluster.horizon + 1 }
        ensures instance { IsInstance self.now }
    {
        self.cluster().horizon + 1
    }

    pub fn nodes(&self) -> &[Node]
        ensures value { result.now ≡ self.now.nodes }
        ensures instance { IsInstance self.now }
    {
        self.parts.nodes.as_slice()
    }

    pub fn processes(&self) -> &[Process]
        ensures value { result.now ≡ self.now.processes }
        ensures instance { IsInstance self.now }
    {
        self.parts.processes.as_slice()
    }

    pub fn links(&self) -> &[Link]
        ensures value { result.now ≡ self.now.links }
        ensures instance { IsInstance self.now }
    {
        self.parts.links.as_slice()
    }

    pub fn messages(&self) -> &[Message]
        ensures value { result.now ≡ self.now.messages }
        ensures instance { IsInstance self.now }
    {
        self.parts.messages.as_slice()
    }

    /// The links that lead from process `p`, rising: none where it isn't there. One step.
    pub fn links_from(&self, p: u32) -> &[u32]
        ensures value { result.now ≡ links_from self.now p }
        ensures inside { All (λ l. l < length self.now.links) result.now }
        ensures few { length result.now ≤ MOST_LINKS }
    {
        self.network.links.before.of_key(p)
    }

    /// The links that lead to process `p`, rising: none where it isn't there. One step.
    pub fn links_to(&self, p: u32) -> &[u32]
        ensures value { result.now ≡ links_to self.now p }
        ensures inside { All (λ l. l < length self.now.links) result.now }
        ensures few { length result.now ≤ MOST_LINKS }
    {
        self.network.links.after.of_key(p)
    }

    /// The messages that process `p` sends, rising: none where it isn't there. One step.
    pub fn sent_by(&self, p: u32) -> &[u32]
        ensures value { result.now ≡ sent_by self.now p }
        ensures inside { All (λ m. m < length self.now.messages) result.now }
        ensures few { length result.now ≤ MOST_MESSAGES }
    {
        self.network.messages.sender.of_key(p)
    }

    /// The messages that process `q` receives, rising: none where it isn't there. One step.
    pub fn received_by(&self, q: u32) -> &[u32]
        ensures value { result.now ≡ received_by self.now q }
        ensures inside { All (λ m. m < length self.now.messages) result.now }
        ensures few { length result.now ≤ MOST_MESSAGES }
    {
        self.network.messages.receiver.of_key(q)
    }

    /// The processes on node `n`, rising: none where it isn't there. One step.
    pub fn processes_on(&self, n: u32) -> &[u32]
        ensures value { result.now ≡ processes_on self.now n }
        ensures inside { All (λ p. p < length self.now.processes) result.now }
        ensures few { length result.now ≤ MOST_PROCESSES }
    {
        self.network.processes.of_key(n)
    }

    /// The messages that node `n` sends, rising: none where it isn't there. One step.
    pub fn messages_of(&self, n: u32) -> &[u32]
        ensures value { result.now ≡ messages_of self.now n }
        ensures inside { All (λ m. m < length self.now.messages) result.now }
        ensures few { length result.now ≤ MOST_MESSAGES }
    {
        self.network.messages.source.of_key(n)
    }

    /// The process of an index.
    pub fn process_at(&self, p: usize) -> &Process
        requires { p < length self.now.processes }
        ensures value { result.now ≡ process_at self.now p }
        ensures node { result.now.node < length self.now.nodes }
        ensures times { IsProcessInRange result.now }
    {
        &self.processes()[p]
    }

    /// The link of an index.
    pub fn link_at(&self, l: usize) -> Link
        requires { l < length self.now.links }
        ensures value { result ≡ link_at self.now l }
        ensures before { result.before < length self.now.processes }
        ensures after { result.after < length self.now.processes }
    {
        self.links()[l]
    }

    /// The message of an index.
    pub fn message_at(&self, m: usize) -> &Message
        requires { m < length self.now.messages }
        ensures value { result.now ≡ message_at self.now m }
        ensures sender { result.now.sender < length self.now.processes }
        ensures receivers { All (λ q. q < length self.now.processes) result.now.receivers }
        ensures bytes { result.now.bytes ≤ MOST_BYTES }
    {
        &self.messages()[m]
    }

    /// The node that a process is on.
    pub fn node_of(&self, p: usize) -> u32
        requires { p < length self.now.processes }
        ensures value { result ≡ node_of self.now p }
        ensures inside { result < length self.now.nodes }
    {
        self.process_at(p).node
    }

    /// The node that a message is sent from.
    pub fn source_of(&self, m: usize) -> u32
        requires { m < length self.now.messages }
        ensures value { result ≡ source_of self.now m }
        ensures inside { result < length self.now.nodes }
    {
        self.node_of(self.message_at(m).sender as usize)
    }
}
