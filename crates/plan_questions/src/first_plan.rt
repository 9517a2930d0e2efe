//! When does a search end that is for any plan?

use planner::{FoundPlan, Gate, Name};
use std::sync::atomic::{AtomicBool, Ordering};
use ttp_model::Instance;

/// Ends a search once a plan is found, or another gate says that it doesn't go on, which follows all but the plans.
#[derive(Drop)]
pub struct FirstPlan<'a, G: Gate> {
    gate: &'a G,
    is_found: AtomicBool,
    /// Whether a plan may be looked for: from the start, or from when a worker has begun.
    has_begun: AtomicBool,
}

impl<'a, G: Gate> FirstPlan<'a, G> {
    /// None is found yet.
    pub fn beside(gate: &'a G) -> Self {
        FirstPlan {
            gate,
            is_found: AtomicBool::new(false),
            has_begun: AtomicBool::new(true),
        }
    }

    /// None is found yet, and none is looked for before workers begin.
    pub fn of_workers(gate: &'a G) -> Self {
        FirstPlan {
            gate,
            is_found: AtomicBool::new(false),
            has_begun: AtomicBool::new(false),
        }
    }
}

impl<'a, G: Gate> Gate for FirstPlan<'a, G> {
    fn start(&self, worker: usize) {
        self.has_begun.store(true, Ordering::SeqCst);
        self.gate.start(worker);
    }

    fn enter(&self, worker: usize, name: &Name) {
        self.gate.enter(worker, name);
    }

    fn leave(&self, worker: usize, name: &Name) {
        self.gate.leave(worker, name);
    }

    fn worked(&self, worker: usize, children: u32) {
        self.gate.worked(worker, children);
    }

    fn goes_on(&self, worker: usize) -> bool {
        self.has_begun.load(Ordering::SeqCst)
            && !self.is_found.load(Ordering::SeqCst)
            && self.gate.goes_on(worker)
    }

    fn enough(&self) -> u64 {
        u64::MAX
    }

    fn found(&self, _instance: &Instance, _found: &FoundPlan) {
        self.is_found.store(true, Ordering::SeqCst);
    }
}
