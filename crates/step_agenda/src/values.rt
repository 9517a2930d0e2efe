//! How far is what known of each process and message?

use std::alloc::Global;
use tt_infer::{Fact, Facts};
use ttp_model::{Instance, MemoryFault};

/// A time in ticks for the start and the end of each process, and a round for the first one of each message and for the first one
/// that is too late, in memory that is used again. Of what isn't there it is 0.
#[derive(Drop)]
pub struct Values {
    starts: Vec<u32>,
    ends: Vec<u32>,
    first_rounds: Vec<u32>,
    late_rounds: Vec<u32>,
}

/// Writes a list over another one, where both are as long.
fn write_over(values: &mut [u32], others: &[u32]) {
    if others.len() == values.len() {
        values.copy_from_slice(others);
    }
}

/// Writes a value, where there is a place for it.
fn put(values: &mut [u32], at: u32, value: u32) {
    if (at as usize) < values.len() {
        values[at as usize] = value;
    }
}

/// The value at a place: 0 where there is none.
fn at(values: &[u32], at: u32) -> u32 {
    if (at as usize) < values.len() {
        values[at as usize]
    } else {
        0
    }
}

impl Values {
    /// All are 0.
    pub fn none(alloc: Global, instance: &Instance) -> Result<Self, MemoryFault> {
        let processes = instance.processes().len();
        let messages = instance.messages().len();
        Ok(Values {
            starts: vec![in alloc; 0u32; processes]?,
            ends: vec![in alloc; 0u32; processes]?,
            first_rounds: vec![in alloc; 0u32; messages]?,
            late_rounds: vec![in alloc; 0u32; messages]?,
        })
    }

    /// All are 0 again.
    pub fn clear(&mut self) {
        self.set_all(0, 0);
    }

    /// Starts and first rounds are 0, and ends and late rounds past all others.
    pub fn widen(&mut self) {
        self.set_all(0, u32::MAX);
    }

    /// All starts and first rounds are one number, and all ends and late rounds another.
    fn set_all(&mut self, least: u32, most: u32) {
        self.starts.as_mut_slice().fill(least);
        self.first_rounds.as_mut_slice().fill(least);
        self.ends.as_mut_slice().fill(most);
        self.late_rounds.as_mut_slice().fill(most);
    }

    /// So far are these facts known.
    pub fn set_to_known(&mut self, facts: &Facts) {
        write_over(self.starts.as_mut_slice(), facts.starts());
        write_over(self.ends.as_mut_slice(), facts.ends());
        write_over(self.first_rounds.as_mut_slice(), facts.first_rounds());
        write_over(self.late_rounds.as_mut_slice(), facts.late_rounds());
    }

    pub fn start(&self, p: u32) -> u32 {
        at(self.starts.as_slice(), p)
    }

    pub fn end(&self, p: u32) -> u32 {
        at(self.ends.as_slice(), p)
    }

    pub fn first_round(&self, m: u32) -> u32 {
        at(self.first_rounds.as_slice(), m)
    }

    pub fn late_round(&self, m: u32) -> u32 {
        at(self.late_rounds.as_slice(), m)
    }

    /// How far a fact is known: 0 of an order, and of whether no plan is left.
    pub fn of_fact(&self, fact: Fact) -> u32 {
        match fact {
            Fact::Start(p) => self.start(p),
            Fact::End(p) => self.end(p),
            Fact::FirstRound(m) => self.first_round(m),
            Fact::LateRound(m) => self.late_round(m),
            Fact::Order(_, _) | Fact::Closed => 0,
        }
    }

    /// Writes how far a fact is known, if it is of one process or message.
    pub fn put(&mut self, fact: Fact, value: u32) {
        match fact {
            Fact::Start(p) => put(self.starts.as_mut_slice(), p, value),
            Fact::End(p) => put(self.ends.as_mut_slice(), p, value),
            Fact::FirstRound(m) => put(self.first_rounds.as_mut_slice(), m, value),
            Fact::LateRound(m) => put(self.late_rounds.as_mut_slice(), m, value),
            Fact::Order(_, _) | Fact::Closed => {}
        }
    }
}
