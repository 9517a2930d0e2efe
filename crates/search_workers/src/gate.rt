//! Who is told how workers go on, and says whether they do?

ghost use Rattle.std.specs.Prelude.{◌≡◌, false};
ghost use Rattle.ttp_model.specs.Instance.{Instance};
ghost use Rattle.search_workers.specs.Best.{IsPlanFound};
ghost use Rattle.search_workers.specs.declared.found.FoundPlan.{FoundPlan};

use crate::found::FoundPlan;
use branch_tree::Name;
use ttp_model::Instance;

/// What is called as workers go on, so that a test can hold them up and a search can be ended. Each call is to return.
pub trait Gate {
    /// Whether it may ever say that a worker doesn't go on.
    ghost ends: { Self → Type 0 } = { λ _. Unit {0} };

    /// What holds of it once it was told of a plan of an instance.
    ghost heard: { Self → Instance → FoundPlan → Type 0 } = { λ _ _ _. Unit {0} };

    /// A worker begins. It is called once for each, first.
    fn start(&self, worker: usize);

    /// A worker begins to work the task of this name.
    fn enter(&self, worker: usize, name: &Name);

    /// A worker is done with the task of this name, of which it was told before: it is worked, or memory was refused.
    fn leave(&self, worker: usize, name: &Name);

    /// A task is worked, by this worker or, as the first of them, by a thread that works what workers left: it has so many children, which are
    /// known from now on, and none where a leaf closes it. A worker has pushed them, and then says that it is done.
    fn worked(&self, _worker: usize, _children: u32) {}

    /// Whether a worker goes on. It is asked before each task that it may take, and ends where it doesn't. The caller's thread asks as the first of
    /// them, before a plan is looked for, and so do threads that work what workers left, before each task that they work or try.
    fn goes_on(&self, _worker: usize) -> bool
        ensures { result ≡ false → ends self.now }
    {
        true
    }

    /// Whether it is late, and stays so. It is asked before each task that a worker may take, which ends where it is. Who works what workers left
    /// works from then on so that the bound rises.
    fn is_late(&self) -> bool {
        false
    }

    /// A delay in ticks that is short enough for a plan to begin with: once one takes no more, none is looked for that is shorter. It is asked once,
    /// before a plan is looked for.
    fn enough(&self) -> u64 {
        0
    }

    /// A settled plan was found: a shorter one than all that who found it knew of. The plan that is answered is told again before the search ends.
    fn found(&self, instance: &Instance, found: &FoundPlan)
        requires { IsPlanFound instance.now found.now.plan found.now.delay }
        ensures { heard self.now instance.now found.now };
}

/// Holds up nobody, and ends nothing.
#[derive(Clone, Copy)]
pub struct FreeGate;

impl Gate for FreeGate {
    ghost ends = { λ _. ⊥ };

    fn start(&self, _worker: usize) {}

    fn enter(&self, _worker: usize, _name: &Name) {}

    fn leave(&self, _worker: usize, _name: &Name) {}

    fn found(&self, _instance: &Instance, _found: &FoundPlan) {}
}
