//! When does a search end whose user has waited long enough?

ghost use Rattle.std.specs.Prelude.{◌≡◌};
ghost use Rattle.std.specs.Prelude.{IsTrue, is_some, true};
ghost use Rattle.solve_command.specs.Patience.{is_enough, MayEnd};

use crate::progress::Follower;
use planner::{FoundPlan, Gate, Name};
use std::alloc::Global;
use std::rt::Clock;
use std::sync::atomic::{AtomicU64, Ordering};
use std::time::Instant;
use ttp_model::Instance;

/// Thousandths of the seconds that a search is given: all of them, and those after which its bound is to rise, as it does in the last quarter of a
/// budget.
const WHOLE: u64 = 1000;

const LATE: u64 = 750;

/// Whether the best plan found takes at most as long as was asked for.
pub fn is_enough(until: Option<u32>, best: Option<u64>) -> bool
    ensures { result ≡ is_enough until best }
{
    match (until, best) {
        (Some(most), Some(delay)) => delay <= u64::from(most),
        _ => false,
    }
}

/// When a search ends before it knows the least delay, though its budget isn't spent.
#[derive(Clone, Copy, PartialEq, Eq)]
pub struct Patience {
    /// Once a plan of at most so many ticks is found.
    pub until: Option<u32>,
    /// So many seconds after the program's start.
    pub seconds: Option<u64>,
}

/// Follows a search, as another follower does who is told of all, and ends it in time.
#[derive(Drop)]
pub struct Patient<'a, S: Clock, F: Follower> {
    follower: &'a F,
    clock: &'a S,
    started: Option<Instant>,
    patience: Patience,
    /// The delay of the best plan found, in ticks; the greatest number where none is.
    best: AtomicU64,
}

impl<'a, S: Clock, F: Follower> Patient<'a, S, F> {
    /// No plan is found yet. Where the clock can't be read, no search ends for its time.
    pub fn beside(follower: &'a F, clock: &'a S, patience: Patience) -> Self {
        Patient {
            follower,
            clock,
            started: Instant::now(clock).ok(),
            patience,
            best: AtomicU64::new(u64::MAX),
        }
    }

    /// The delay of the best plan found, where one is.
    fn best(&self) -> Option<u64> {
        match self.best.load(Ordering::SeqCst) {
            u64::MAX => None,
            delay => Some(delay),
        }
    }

    /// Whether as many thousandths of the seconds that were given have passed.
    fn has_passed(&self, thousandths: u64) -> bool
        ensures { result ≡ true → IsTrue (is_some self.now.patience.seconds) }
    {
        match (self.patience.seconds, &self.started) {
            (Some(seconds), Some(started)) => match started.elapsed(self.clock) {
                Ok(time) => time.as_millis() >= u128::from(seconds.saturating_mul(thousandths)),
                Err(_) => false,
            },
            _ => false,
        }
    }

    /// Whether the user has waited long enough.
    fn is_spent(&self) -> bool
        ensures { result ≡ true → MayEnd self.now.patience.until self.now.patience.seconds }
    {
        is_enough(self.patience.until, self.best()) || self.has_passed(WHOLE)
    }
}

impl<'a, S: Clock, F: Follower> Gate for Patient<'a, S, F> {
    ghost use Rattle.std.specs.Prelude.{◌⊎◌};
    ghost use Rattle.solve_command.specs.Patience.{MayEnd};

    ghost ends = { λ x. F.ends x.follower.now ⊎ MayEnd x.patience.until x.patience.seconds };

    ghost heard = { λ x. F.heard x.follower.now };

    fn start(&self, worker: usize) {
        self.follower.start(worker);
    }

    fn enter(&self, worker: usize, name: &Name) {
        self.follower.enter(worker, name);
    }

    fn leave(&self, worker: usize, name: &Name) {
        self.follower.leave(worker, name);
    }

    fn worked(&self, worker: usize, children: u32) {
        self.follower.worked(worker, children);
    }

    fn goes_on(&self, worker: usize) -> bool {
        self.follower.goes_on(worker) && !self.is_spent()
    }

    fn is_late(&self) -> bool {
        self.follower.is_late() || self.has_passed(LATE)
    }

    fn enough(&self) -> u64 {
        let until = self.patience.until.unwrap_or(0);
        self.follower.enough().max(u64::from(until))
    }

    fn found(&self, instance: &Instance, found: &FoundPlan) {
        self.best.fetch_min(found.delay, Ordering::SeqCst);
        self.follower.found(instance, found);
    }
}

impl<'a, S: Clock, F: Follower> Follower for Patient<'a, S, F> {
    fn begin(&self, alloc: Global, instance: &Instance) {
        self.follower.begin(alloc, instance);
    }

    fn end(&self) {
        self.follower.end();
    }
}
