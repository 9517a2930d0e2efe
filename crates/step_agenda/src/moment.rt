//! What is known before a step of a log?

use crate::values::Values;
use tt_infer::Facts;
use ttp_model::Instance;

/// What is known before a step of a log, and what at first.
#[derive(Clone, Copy)]
pub struct Moment<'b, 'a> {
    /// What is known after the last step.
    pub facts: &'b Facts<'a>,
    pub now: &'b Values,
    pub first: &'b Values,
}

impl<'b, 'a> Moment<'b, 'a> {
    pub fn instance(&self) -> &'a Instance {
        self.facts.instance()
    }

    /// How long a process runs, in ticks: 0 where it isn't there.
    pub fn wcet(&self, p: u32) -> u64 {
        let instance = self.facts.instance();
        if (p as usize) < instance.processes().len() {
            u64::from(instance.process_at(p as usize).wcet)
        } else {
            0
        }
    }
}
