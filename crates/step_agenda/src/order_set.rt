//! Which orders are in a set?

use std::alloc::Global;
use ttp_model::{Instance, MemoryFault};

/// A set of orders of two processes of an instance, in memory that is used again. What no instance can have is never in it.
#[derive(Drop)]
pub struct OrderSet {
    /// How many processes there are.
    processes: u32,
    /// A row for each process, one row after another: how many times the set had been cleared when the order was put into it.
    stamps: Vec<u32>,
    /// How many times the set has been cleared, with one more.
    stamp: u32,
}

impl OrderSet {
    /// The set of no orders.
    pub fn none(alloc: Global, instance: &Instance) -> Result<Self, MemoryFault> {
        let processes = instance.processes().len() as u32;
        let count = processes as usize * processes as usize;
        Ok(OrderSet {
            processes,
            stamps: vec![in alloc; 0u32; count]?,
            stamp: 1,
        })
    }

    /// Takes all orders out of the set. Only once in billions of times that takes a pass over all that there can be.
    pub fn clear(&mut self) {
        if self.stamp < u32::MAX {
            self.stamp += 1;
        } else {
            self.stamps.as_mut_slice().fill(0);
            self.stamp = 1;
        }
    }

    /// Where an order stands: past all where a process isn't there.
    fn place(&self, p: u32, q: u32) -> usize {
        if p < self.processes && q < self.processes {
            p as usize * self.processes as usize + q as usize
        } else {
            usize::MAX
        }
    }

    /// Puts an order into the set.
    pub fn insert(&mut self, p: u32, q: u32) {
        let place = self.place(p, q);
        if place < self.stamps.len() {
            self.stamps[place] = self.stamp;
        }
    }

    /// Whether an order is in the set.
    pub fn has(&self, p: u32, q: u32) -> bool {
        let place = self.place(p, q);
        place < self.stamps.len() && self.stamps[place] == self.stamp
    }
}
