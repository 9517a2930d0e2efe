//! Which steps does a closer need?

use crate::counted::add_counted;
use std::alloc::Global;
use tt_infer::{Fact, FactSet, Facts, target};
use ttp_model::{Instance, MemoryFault, Step, has_flag};

/// Steps one after another, of which some are marked.
pub trait Marked {
    /// Whether the step at a place is marked.
    fn is_marked(&self, place: usize) -> bool;
}

/// Marks at steps, and the facts that the marked ones read, in memory that is used again.
#[derive(Drop)]
pub struct Marks {
    marked: Vec<bool>,
    wanted: FactSet,
    /// Whether something was wanted before.
    is_used: bool,
    /// What one step rests on, in room that is used again.
    counted: Vec<Fact>,
}

impl Marks {
    /// No marks.
    pub fn none(alloc: Global, instance: &Instance) -> Result<Self, MemoryFault> {
        Ok(Marks {
            marked: Vec::new(alloc),
            wanted: FactSet::none(alloc, instance)?,
            is_used: false,
            counted: Vec::new(alloc),
        })
    }

    /// Marks the steps that the close needs, where this is known after them: the step that closes, and each that was the last
    /// to sharpen a fact before a marked step read it. How many are marked.
    pub fn set_to(&mut self, facts: &Facts, steps: &[Step]) -> Result<usize, MemoryFault> {
        self.begin(steps.len())?;
        self.wanted.insert(Fact::Closed);
        self.mark(facts, steps)
    }

    /// Begins with no mark at so many steps, and wants nothing.
    fn begin(&mut self, steps: usize) -> Result<(), MemoryFault> {
        self.marked.clear();
        self.marked.resize(steps, false)?;
        if self.is_used {
            self.wanted.clear();
        }
        self.is_used = true;
        Ok(())
    }

    /// Marks the steps that are needed for the facts that are wanted, the last first. How many are marked.
    fn mark(&mut self, facts: &Facts, steps: &[Step]) -> Result<usize, MemoryFault> {
        let mut count = 0usize;
        for k in (0..steps.len()).rev() {
            let step = &steps[k];
            if k < self.marked.len() && self.wanted.remove(target(facts.instance(), step)) {
                self.marked[k] = true;
                count = count.saturating_add(1);
                self.want(facts, step)?;
            }
        }
        Ok(count)
    }

    /// Wants what a step rests on.
    fn want(&mut self, facts: &Facts, step: &Step) -> Result<(), MemoryFault> {
        self.counted.clear();
        add_counted(facts, step, &mut self.counted)?;
        for fact in self.counted.as_slice() {
            let _known = self.wanted.insert(*fact);
        }
        Ok(())
    }
}

impl Marked for Marks {
    /// Whether the closer needs the step at a place.
    fn is_marked(&self, place: usize) -> bool {
        has_flag(self.marked.as_slice(), place)
    }
}
