//! How many steps does each fact rest on?

use crate::counted::add_of_source;
use crate::fewest::Log;
use crate::values::Values;
use std::alloc::Global;
use tt_infer::{Fact, Facts, Reads, Source, reads};
use ttp_model::{Instance, MemoryFault, Step};

/// By fact, how many steps of a log it rests on: a step that several others read counts once for each. Of what no step has sharpened
/// it is 0.
#[derive(Drop)]
pub struct Weights {
    /// Those of starts, ends and rounds.
    values: Values,
    /// How many processes there are.
    processes: u32,
    /// Those of orders: a row for each process, one after another.
    orders: Vec<u32>,
    /// Where orders have a weight.
    weighed: Vec<usize>,
    /// What one source counts as, in room that is used again.
    counted: Vec<Fact>,
}

/// Writes a weight, where there is a place for it.
fn put(weights: &mut [u32], at: usize, weight: u32) {
    if at < weights.len() {
        weights[at] = weight;
    }
}

/// The weight at a place: 0 where there is none.
fn at(weights: &[u32], at: usize) -> u32 {
    if at < weights.len() { weights[at] } else { 0 }
}

/// Makes the weights at these places 0.
fn lift(weights: &mut [u32], places: &[usize]) {
    for place in places {
        put(weights, *place, 0);
    }
}

impl Weights {
    /// Nothing rests on any step.
    pub fn none(alloc: Global, instance: &Instance) -> Result<Self, MemoryFault> {
        let processes = instance.processes().len() as u32;
        let count = processes as usize * processes as usize;
        Ok(Weights {
            values: Values::none(alloc, instance)?,
            processes,
            orders: vec![in alloc; 0u32; count]?,
            weighed: Vec::new(alloc),
            counted: Vec::new(alloc),
        })
    }

    /// Looks at the steps of a log.
    pub fn look_at(&mut self, log: Log) -> Result<(), MemoryFault> {
        self.clear();
        for (step, written) in log.steps.iter().zip(log.written) {
            let weight = self.of_step(log.facts, step)?;
            self.set(written.fact, weight.saturating_add(1))?;
        }
        Ok(())
    }

    /// The weight of what a step rests on.
    pub fn of_step(&mut self, facts: &Facts, step: &Step) -> Result<u32, MemoryFault> {
        match reads(facts.instance(), step) {
            Reads::Nothing => Ok(0),
            Reads::One(source) => self.of_source(facts, source),
            Reads::Two(first, second) => {
                let weight = self.of_source(facts, first)?;
                Ok(weight.saturating_add(self.of_source(facts, second)?))
            }
        }
    }

    /// The weight of a source.
    fn of_source(&mut self, facts: &Facts, source: Source) -> Result<u32, MemoryFault> {
        match source {
            Source::Learnt(fact) => Ok(self.of(fact)),
            Source::Fixed(_) => Ok(0),
            Source::Waits(_)
            | Source::Circle(_)
            | Source::Runs(_, _, _)
            | Source::Frames(_, _, _)
            | Source::Halves(_, _, _, _)
            | Source::Earlier(_, _)
            | Source::Lower(_) => self.of_counted(facts, source),
        }
    }

    /// The weight of all facts that a source counts as.
    fn of_counted(&mut self, facts: &Facts, source: Source) -> Result<u32, MemoryFault> {
        self.counted.clear();
        add_of_source(facts, source, &mut self.counted)?;
        let mut sum = 0u32;
        for fact in self.counted.as_slice() {
            sum = sum.saturating_add(self.of(*fact));
        }
        Ok(sum)
    }

    /// Forgets all weights.
    fn clear(&mut self) {
        self.values.clear();
        lift(self.orders.as_mut_slice(), self.weighed.as_slice());
        self.weighed.clear();
    }

    /// Where an order stands: past all where a process isn't there.
    fn place(&self, p: u32, q: u32) -> usize {
        if p < self.processes && q < self.processes {
            p as usize * self.processes as usize + q as usize
        } else {
            usize::MAX
        }
    }

    /// A fact has this weight from now on.
    fn set(&mut self, fact: Fact, weight: u32) -> Result<(), MemoryFault> {
        match fact {
            Fact::Order(p, q) => {
                let place = self.place(p, q);
                self.weighed.push(place)?;
                put(self.orders.as_mut_slice(), place, weight);
            }
            Fact::Start(_) | Fact::End(_) => self.values.put(fact, weight),
            Fact::FirstRound(_) | Fact::LateRound(_) => self.values.put(fact, weight),
            Fact::Closed => {}
        }
        Ok(())
    }

    /// The weight of a fact.
    fn of(&self, fact: Fact) -> u32 {
        match fact {
            Fact::Order(p, q) => at(self.orders.as_slice(), self.place(p, q)),
            Fact::Start(_) | Fact::End(_) => self.values.of_fact(fact),
            Fact::FirstRound(_) | Fact::LateRound(_) => self.values.of_fact(fact),
            Fact::Closed => 0,
        }
    }
}
