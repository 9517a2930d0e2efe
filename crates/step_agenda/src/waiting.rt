//! Which facts wait?

use std::alloc::Global;
use tt_infer::Fact;
use ttp_model::{Instance, MemoryFault, put_flag};

/// No list has this place.
const NOWHERE: usize = usize::MAX;

/// Which starts, ends and rounds of an instance wait. Of all else none ever does.
#[derive(Drop)]
pub struct Waiting {
    /// How many processes there are.
    processes: u32,
    /// The start and the end of each process, and then the two rounds of each message.
    flags: Vec<bool>,
}

impl Waiting {
    /// None waits.
    pub fn none(alloc: Global, instance: &Instance) -> Result<Self, MemoryFault> {
        let count = 2 * (instance.processes().len() + instance.messages().len());
        Ok(Waiting {
            processes: instance.processes().len() as u32,
            flags: vec![in alloc; false; count]?,
        })
    }

    /// Where the start of a process stands: its end stands behind it.
    fn of_process(&self, p: u32) -> usize {
        if p < self.processes {
            2 * (p as usize)
        } else {
            NOWHERE
        }
    }

    /// Where the first round of a message stands: its late one stands behind it.
    fn of_message(&self, m: u32) -> usize {
        2 * (self.processes as usize + m as usize)
    }

    /// Where a fact stands.
    fn place(&self, fact: Fact) -> usize {
        match fact {
            Fact::Start(p) => self.of_process(p),
            Fact::End(p) => self.of_process(p).saturating_add(1),
            Fact::FirstRound(m) => self.of_message(m),
            Fact::LateRound(m) => self.of_message(m).saturating_add(1),
            Fact::Order(_, _) | Fact::Closed => NOWHERE,
        }
    }

    /// A fact waits. Whether it did before.
    pub fn insert(&mut self, fact: Fact) -> bool {
        let place = self.place(fact);
        put_flag(self.flags.as_mut_slice(), place, true)
    }

    /// A fact waits no longer. Whether it did before.
    pub fn remove(&mut self, fact: Fact) -> bool {
        let place = self.place(fact);
        put_flag(self.flags.as_mut_slice(), place, false)
    }
}
