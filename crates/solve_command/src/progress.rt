//! How far is a search?

use crate::subtrees::Subtrees;
use crate::ticker::{Lines, Ticker};
use planner::{FoundPlan, FreeGate, Gate, Name, root_bound};
use std::alloc::{AllocError, Global};
use std::fmt;
use std::rt::Clock;
use std::sync::atomic::{AtomicU64, Ordering};
use ttp_model::Instance;

/// Who follows a search: a gate of its workers, which hears of the instance before they begin, and that the search has ended.
pub trait Follower: Gate {
    /// The instance is read, and will be searched.
    fn begin(&self, alloc: Global, instance: &Instance);

    /// The search has ended, whatever came of it.
    fn end(&self);
}

impl Follower for FreeGate {
    fn begin(&self, _alloc: Global, _instance: &Instance) {}

    fn end(&self) {}
}

/// How far a search is.
#[derive(Clone, Copy, PartialEq, Eq)]
pub struct Reading {
    /// How long the program has been at work.
    pub seconds: u64,
    /// How many subtrees are worked.
    pub worked: u64,
    /// How many of these the worker with the fewest has worked.
    pub fewest: u64,
    /// How many of these a second, since the last reading.
    pub rate: u64,
    /// How many workers have in hand.
    pub held: u64,
    /// How many are known and not worked yet.
    pub open: u64,
    /// No plan has a delay below so many ticks, which is known before the search.
    pub low: u64,
    /// The delay of the best plan found, in ticks, where one is.
    pub best: Option<u64>,
}

/// The best delay, and by how much it is above the bound.
#[derive(Drop)]
struct BestAbove {
    best: Option<u64>,
    low: u64,
}

impl fmt::Display for BestAbove {
    fn fmt<W: fmt::Write>(&self, f: &mut fmt::Formatter<W>) -> fmt::Result {
        match self.best {
            Some(best) => write!(f, "best plan {best}, gap {}", best.saturating_sub(self.low)),
            None => write!(f, "no plan yet"),
        }
    }
}

impl fmt::Display for Reading {
    fn fmt<W: fmt::Write>(&self, f: &mut fmt::Formatter<W>) -> fmt::Result {
        let Reading {
            seconds,
            worked,
            fewest,
            rate,
            held,
            open,
            low,
            best,
        } = self;
        let above = BestAbove {
            best: *best,
            low: *low,
        };
        write!(
            f,
            "{seconds} s: {worked} subtrees worked, {fewest} or more by each worker, {rate} a second, {held} in work, {open} open, no plan below {low}, {above}"
        )
    }
}

/// What the workers of a search have done, once it has ended.
#[derive(Clone, Copy, PartialEq, Eq)]
pub struct Summary {
    /// How many milliseconds passed from the first subtree that was taken to the last that a worker was done with.
    pub millis: u64,
    /// How many subtrees the workers are done with.
    pub worked: u64,
    /// How many of these the worker with the fewest has worked.
    pub fewest: u64,
}

impl Summary {
    /// How many subtrees a second; 0 where no millisecond passed.
    pub fn rate(self) -> u64 {
        let thousandfold = self.worked.saturating_mul(1000);
        thousandfold.checked_div(self.millis).unwrap_or(0)
    }
}

impl fmt::Display for Summary {
    fn fmt<W: fmt::Write>(&self, f: &mut fmt::Formatter<W>) -> fmt::Result {
        let Summary {
            millis,
            worked,
            fewest,
        } = self;
        let rate = self.rate();
        write!(
            f,
            "searched for {millis} ms: {worked} subtrees worked, {fewest} or more by each worker, {rate} a second"
        )
    }
}

/// Says how far a search is: a line before it begins, then one a second, and one when it has ended. Who has worked a subtree writes those of
/// seconds, and no other waits for that.
#[derive(Drop)]
pub struct Progress<'a, S: Clock + Eprint> {
    ticker: Ticker<'a, S>,
    low: AtomicU64,
    /// The delay of the best plan found, in ticks; the greatest number where none is.
    best: AtomicU64,
    subtrees: Subtrees,
    /// How many subtrees workers took.
    taken: AtomicU64,
    /// How many subtrees each worker is done with.
    shares: Vec<AtomicU64>,
    /// What was worked by the last line.
    told_worked: AtomicU64,
    /// The milliseconds at which the first subtree was taken, at which the last was worked, and at which a worker was done with the last of its own.
    first: AtomicU64,
    now: AtomicU64,
    last: AtomicU64,
}

/// A count of nothing for each of so many workers.
fn no_shares(alloc: Global, workers: u32) -> Result<Vec<AtomicU64>, AllocError> {
    let mut shares = Vec::with_capacity(alloc, workers as usize)?;
    for _worker in 0..workers {
        shares.push(AtomicU64::new(0))?;
    }
    Ok(shares)
}

impl<'a, S: Clock + Eprint> Progress<'a, S> {
    /// So many workers have done nothing yet. Where the clock can't be read, the first line is the only one.
    pub fn on(
        alloc: Global,
        screen: &'a S,
        lines: Lines,
        workers: u32,
    ) -> Result<Self, AllocError> {
        Ok(Progress {
            ticker: Ticker::on(screen, lines),
            low: AtomicU64::new(0),
            best: AtomicU64::new(u64::MAX),
            subtrees: Subtrees::begin(),
            taken: AtomicU64::new(0),
            shares: no_shares(alloc, workers)?,
            told_worked: AtomicU64::new(0),
            first: AtomicU64::new(u64::MAX),
            now: AtomicU64::new(0),
            last: AtomicU64::new(0),
        })
    }

    /// How many subtrees all workers are done with, and how many the one with the fewest.
    fn done(&self) -> (u64, u64) {
        let (mut all, mut fewest) = (0u64, u64::MAX);
        for share in &self.shares {
            let count = share.load(Ordering::SeqCst);
            all = all.saturating_add(count);
            fewest = fewest.min(count);
        }
        (all, fewest.min(all))
    }

    /// What the workers have done so far.
    fn summary(&self) -> Summary {
        let (worked, fewest) = self.done();
        let first = self.first.load(Ordering::SeqCst);
        Summary {
            millis: self.last.load(Ordering::SeqCst).saturating_sub(first),
            worked,
            fewest,
        }
    }

    /// The delay of the best plan found, where one is.
    fn best(&self) -> Option<u64> {
        match self.best.load(Ordering::SeqCst) {
            u64::MAX => None,
            delay => Some(delay),
        }
    }

    /// Writes the line of a second, so many seconds after the last one.
    fn tell(&self, seconds: u64, passed: u64) {
        let (done, fewest) = self.done();
        let worked = self.subtrees.worked();
        let newly = worked.saturating_sub(self.told_worked.swap(worked, Ordering::SeqCst));
        let taken = self.taken.load(Ordering::SeqCst);
        let reading = Reading {
            seconds,
            worked,
            fewest,
            rate: newly.checked_div(passed).unwrap_or(0),
            held: taken.saturating_sub(done),
            open: self.subtrees.open(),
            low: self.low.load(Ordering::SeqCst),
            best: self.best(),
        };
        self.ticker.write(reading);
    }
}

impl<'a, S: Clock + Eprint> Gate for Progress<'a, S> {
    ghost ends = { λ _. ⊥ };

    fn start(&self, _worker: usize) {}

    fn enter(&self, _worker: usize, _name: &Name) {
        if self.taken.fetch_add(1, Ordering::SeqCst) == 0 {
            self.first.store(self.ticker.millis(), Ordering::SeqCst);
        }
    }

    fn leave(&self, worker: usize, _name: &Name) {
        let order = Ordering::SeqCst;
        self.last.fetch_max(self.now.load(order), order);
        if let Some(share) = self.shares.get(worker) {
            share.fetch_add(1, order);
        }
    }

    fn worked(&self, _worker: usize, children: u32) {
        let millis = self.ticker.millis();
        self.now.fetch_max(millis, Ordering::SeqCst);
        if let Some((seconds, passed)) = self.ticker.due(millis) {
            self.tell(seconds, passed);
        }
        self.subtrees.work(children);
    }

    fn found(&self, _instance: &Instance, found: &FoundPlan) {
        self.best.fetch_min(found.delay, Ordering::SeqCst);
    }
}

impl<'a, S: Clock + Eprint> Follower for Progress<'a, S> {
    fn begin(&self, alloc: Global, instance: &Instance) {
        let low = root_bound(alloc, instance, instance.past_horizon()).unwrap_or(0);
        self.low.store(u64::from(low), Ordering::SeqCst);
        let seconds = self.ticker.begin();
        self.tell(seconds, 0);
    }

    fn end(&self) {
        self.ticker.end();
        self.ticker.write_line(self.summary());
    }
}
