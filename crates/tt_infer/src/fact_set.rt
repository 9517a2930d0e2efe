//! Which facts are in a set?

use crate::fact::Fact;
use std::alloc::Global;
use ttp_model::{Instance, MOST_MESSAGES, MOST_PROCESSES, MemoryFault, has_flag, put_flag};

/// A set of facts of an instance. Orders stay in it, and what no instance can have is never in it.
#[derive(Drop)]
pub struct FactSet {
    starts: [bool; MOST_PROCESSES],
    ends: [bool; MOST_PROCESSES],
    first_rounds: [bool; MOST_MESSAGES],
    late_rounds: [bool; MOST_MESSAGES],
    /// How many processes there are.
    processes: u32,
    /// A row of tests for each process, one row after another.
    orders: Vec<bool>,
    closed: bool,
}

impl FactSet {
    /// The set of no facts.
    pub fn none(alloc: Global, instance: &Instance) -> Result<Self, MemoryFault> {
        let processes = instance.processes().len() as u32;
        let count = processes as usize * processes as usize;
        Ok(FactSet {
            starts: [false; MOST_PROCESSES],
            ends: [false; MOST_PROCESSES],
            first_rounds: [false; MOST_MESSAGES],
            late_rounds: [false; MOST_MESSAGES],
            processes,
            orders: vec![in alloc; false; count]?,
            closed: false,
        })
    }

    /// Takes all facts out of the set.
    pub fn clear(&mut self) {
        self.starts = [false; MOST_PROCESSES];
        self.ends = [false; MOST_PROCESSES];
        self.first_rounds = [false; MOST_MESSAGES];
        self.late_rounds = [false; MOST_MESSAGES];
        self.orders.as_mut_slice().fill(false);
        self.closed = false;
    }

    /// Puts a fact into the set. Whether it was in it.
    pub fn insert(&mut self, fact: Fact) -> bool {
        match fact {
            Fact::Start(p) => put_flag(&mut self.starts, p as usize, true),
            Fact::End(p) => put_flag(&mut self.ends, p as usize, true),
            Fact::FirstRound(m) => put_flag(&mut self.first_rounds, m as usize, true),
            Fact::LateRound(m) => put_flag(&mut self.late_rounds, m as usize, true),
            Fact::Order(p, q) => self.insert_order(p, q),
            Fact::Closed => {
                let before = self.closed;
                self.closed = true;
                before
            }
        }
    }

    /// Where the test of an order stands, if both processes are there.
    fn place(&self, p: u32, q: u32) -> Option<usize> {
        if p < self.processes && q < self.processes {
            Some(p as usize * self.processes as usize + q as usize)
        } else {
            None
        }
    }

    /// Puts an order into the set. Whether it was in it.
    fn insert_order(&mut self, p: u32, q: u32) -> bool {
        match self.place(p, q) {
            Some(place) => put_flag(&mut self.orders, place, true),
            None => false,
        }
    }

    /// Whether an order is in the set.
    fn has_order(&self, p: u32, q: u32) -> bool {
        match self.place(p, q) {
            Some(place) => has_flag(&self.orders, place),
            None => false,
        }
    }

    /// Takes a fact out of the set, orders excepted. Whether it was in it.
    pub fn remove(&mut self, fact: Fact) -> bool {
        match fact {
            Fact::Start(p) => put_flag(&mut self.starts, p as usize, false),
            Fact::End(p) => put_flag(&mut self.ends, p as usize, false),
            Fact::FirstRound(m) => put_flag(&mut self.first_rounds, m as usize, false),
            Fact::LateRound(m) => put_flag(&mut self.late_rounds, m as usize, false),
            Fact::Order(p, q) => self.has_order(p, q),
            Fact::Closed => self.closed,
        }
    }
}
