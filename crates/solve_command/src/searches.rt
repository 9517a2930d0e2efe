//! How far are the searches of a question?

use crate::progress::Follower;
use crate::subtrees::Subtrees;
use crate::ticker::{Lines, Ticker};
use planner::{FoundPlan, Gate, Name};
use std::alloc::Global;
use std::fmt;
use std::rt::Clock;
use std::sync::atomic::{AtomicU64, Ordering};
use ttp_model::Instance;

/// How far the searches of a question are.
#[derive(Clone, Copy, PartialEq, Eq)]
pub struct SearchesReading {
    /// How long the program has been at work.
    pub seconds: u64,
    /// How many searches have begun to work subtrees.
    pub searches: u64,
    /// How many subtrees are worked in all of them.
    pub worked: u64,
    /// How many of these a second, since the last reading.
    pub rate: u64,
    /// How many of the last search are known and not worked yet.
    pub open: u64,
}

impl fmt::Display for SearchesReading {
    fn fmt<W: fmt::Write>(&self, f: &mut fmt::Formatter<W>) -> fmt::Result {
        let SearchesReading {
            seconds,
            searches,
            worked,
            rate,
            open,
        } = self;
        write!(
            f,
            "{seconds} s: search {searches}, {worked} subtrees worked in all, {rate} a second, {open} open"
        )
    }
}

/// Says how far the searches of a question are: a line a second, which who has worked a subtree writes.
#[derive(Drop)]
pub struct Searches<'a, S: Clock + Eprint> {
    ticker: Ticker<'a, S>,
    searches: AtomicU64,
    worked: AtomicU64,
    /// Those of the last search.
    subtrees: Subtrees,
    /// What was worked by the last line.
    told_worked: AtomicU64,
}

impl<'a, S: Clock + Eprint> Searches<'a, S> {
    /// No search has begun yet. Where the clock can't be read, no line is written.
    pub fn on(screen: &'a S, lines: Lines) -> Self {
        Searches {
            ticker: Ticker::on(screen, lines),
            searches: AtomicU64::new(0),
            worked: AtomicU64::new(0),
            subtrees: Subtrees::begin(),
            told_worked: AtomicU64::new(0),
        }
    }

    /// Writes the line of a second, so many seconds after the last one.
    fn tell(&self, seconds: u64, passed: u64) {
        let worked = self.worked.load(Ordering::SeqCst);
        let newly = worked.saturating_sub(self.told_worked.swap(worked, Ordering::SeqCst));
        self.ticker.write(SearchesReading {
            seconds,
            searches: self.searches.load(Ordering::SeqCst),
            worked,
            rate: newly.checked_div(passed).unwrap_or(0),
            open: self.subtrees.open(),
        });
    }
}

impl<'a, S: Clock + Eprint> Gate for Searches<'a, S> {
    ghost ends = { λ _. ⊥ };

    fn start(&self, worker: usize) {
        if worker == 0 {
            self.searches.fetch_add(1, Ordering::SeqCst);
        }
    }

    fn enter(&self, _worker: usize, name: &Name) {
        if name.is_root() {
            self.subtrees.begin_again();
        }
    }

    fn leave(&self, _worker: usize, _name: &Name) {}

    fn worked(&self, _worker: usize, children: u32) {
        self.subtrees.work(children);
        self.worked.fetch_add(1, Ordering::SeqCst);
        if let Some((seconds, passed)) = self.ticker.due(self.ticker.millis()) {
            self.tell(seconds, passed);
        }
    }

    fn found(&self, _instance: &Instance, _found: &FoundPlan) {}
}

impl<'a, S: Clock + Eprint> Follower for Searches<'a, S> {
    fn begin(&self, _alloc: Global, _instance: &Instance) {}

    fn end(&self) {
        if self.told_worked.load(Ordering::SeqCst) != 0 {
            self.ticker.end();
        }
    }
}
