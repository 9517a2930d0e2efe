//! When do workers end who can't all begin?

use search_workers::{FoundPlan, Gate, Name};
use std::sync::atomic::{AtomicBool, Ordering};
use ttp_model::Instance;

/// Follows workers as another gate does, which is told of all, and calls all of them off once a thread can't be started for one.
#[derive(Drop)]
pub struct Muster<'a, G: Gate> {
    gate: &'a G,
    lacks_one: AtomicBool,
}

impl<'a, G: Gate> Muster<'a, G> {
    /// None is lacking yet.
    pub fn beside(gate: &'a G) -> Self {
        Muster {
            gate,
            lacks_one: AtomicBool::new(false),
        }
    }

    /// A thread can't be started.
    pub fn call_off(&self) {
        self.lacks_one.store(true, Ordering::SeqCst);
    }
}

impl<'a, G: Gate> Gate for Muster<'a, G> {
    ghost heard = { λ x. G.heard x.gate.now };

    fn start(&self, worker: usize) {
        self.gate.start(worker);
    }

    fn enter(&self, worker: usize, name: &Name) {
        self.gate.enter(worker, name);
    }

    fn leave(&self, worker: usize, name: &Name) {
        self.gate.leave(worker, name);
    }

    fn worked(&self, worker: usize, children: u32) {
        self.gate.worked(worker, children);
    }

    fn goes_on(&self, worker: usize) -> bool {
        !self.lacks_one.load(Ordering::SeqCst) && self.gate.goes_on(worker)
    }

    fn is_late(&self) -> bool {
        self.gate.is_late()
    }

    fn enough(&self) -> u64 {
        self.gate.enough()
    }

    fn found(&self, instance: &Instance, found: &FoundPlan) {
        self.gate.found(instance, found);
    }
}
