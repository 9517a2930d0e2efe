//! What are the parts of an instance called, and which of them has a name?

ghost use Rattle.std.specs.Prelude.{◌≡◌, ◌<◌, ◌≤◌, IfSome, length, slice_index_or, []};
ghost use Rattle.ttp_model.specs.declared.limits.TheConstants.{MOST_MESSAGES};
ghost use Rattle.ttp_model.specs.Names.{index_named, message_name, names_in, node_name, place_name, process_name, sender_name, source_name};

use crate::error::Part;
use crate::instance::Instance;

impl Instance {
    /// The name of node `n`: no bytes where it isn't there.
    pub fn node_name(&self, n: usize) -> &str
        ensures { result.now ≡ node_name self.now n }
    {
        let nodes = self.nodes();
        if n < nodes.len() {
            nodes[n].name.as_str()
        } else {
            ""
        }
    }

    /// The name of process `p`: no bytes where it isn't there.
    pub fn process_name(&self, p: usize) -> &str
        ensures { result.now ≡ process_name self.now p }
    {
        let processes = self.processes();
        if p < processes.len() {
            processes[p].name.as_str()
        } else {
            ""
        }
    }

    /// The name of message `m`: no bytes where it isn't there.
    pub fn message_name(&self, m: usize) -> &str
        ensures { result.now ≡ message_name self.now m }
    {
        let messages = self.messages();
        if m < messages.len() {
            messages[m].name.as_str()
        } else {
            ""
        }
    }

    /// The name of the node that process `p` is on.
    pub fn place_name(&self, p: usize) -> &str
        requires { p < length self.now.processes }
        ensures { result.now ≡ place_name self.now p }
    {
        self.node_name(self.node_of(p) as usize)
    }

    /// The name of the process that sends message `m`.
    pub fn sender_name(&self, m: usize) -> &str
        requires { m < length self.now.messages }
        ensures { result.now ≡ sender_name self.now m }
    {
        self.process_name(self.message_at(m).sender as usize)
    }

    /// The name of the node that message `m` is sent from.
    pub fn source_name(&self, m: usize) -> &str
        requires { m < length self.now.messages }
        ensures { result.now ≡ source_name self.now m }
    {
        self.node_name(self.source_of(m) as usize)
    }

    /// How many names a list has.
    pub fn name_count(&self, part: Part) -> usize
        ensures value { result ≡ length (names_in self.now part) }
        ensures few { result ≤ MOST_MESSAGES }
    {
        match part {
            Part::Nodes => self.nodes().len(),
            Part::Processes => self.processes().len(),
            Part::Links => 0,
            Part::Messages => self.messages().len(),
        }
    }

    /// The name at an index of a list.
    pub fn name_in(&self, part: Part, k: usize) -> &[u8]
        requires { k < length (names_in self.now part) }
        ensures { result.now ≡ slice_index_or (names_in self.now part) k [] }
    {
        match part {
            Part::Nodes => self.nodes()[k].name.as_bytes(),
            Part::Processes => self.processes()[k].name.as_bytes(),
            Part::Links => b"",
            Part::Messages => self.messages()[k].name.as_bytes(),
        }
    }

    /// The first index of a list that has this name. One pass.
    pub fn index_named(&self, part: Part, name: &[u8]) -> Option<u32>
        ensures value { result ≡ index_named self.now part name.now }
        ensures inside { IfSome result (λ k. k < length (names_in self.now part)) }
    {
        for k in 0..self.name_count(part) {
            if self.name_in(part, k) == name {
                return Some(k as u32);
            }
        }
        None
    }
}
