//! From a draft to better ones, by small changes.

ghost use Rattle.std.specs.Prelude.{◌≡◌, ◌<◌, ◌+◌, length};

use crate::chance::Chance;
use crate::change::Choice;
use crate::draft::{Change, Draft};
use crate::network::Network;
use crate::path::Path;
use crate::shelf::Shelf;
use crate::timetable::Timetable;

/// How a climb goes.
#[derive(Clone, Copy)]
pub struct Pace {
    /// How many schedules it tries.
    pub turns: u64,
    /// How much longer a schedule may become at first, in thousandths of the first one's delay.
    pub heat: u64,
    /// Whether messages may be made to wait.
    pub holds: bool,
    /// A delay in ticks that is short enough: the climb ends with a schedule of no more in which nothing is late.
    pub enough: u64,
}

/// The best draft that a climb has come to.
#[derive(Drop)]
pub struct Summit {
    pub draft: Draft,
    /// By how much processes end too late in its schedule, together.
    pub lateness: u64,
    pub delay: u64,
}

impl Summit {
    /// What is to be least: what is late, and then the delay.
    pub fn rank(&self) -> (u64, u64) {
        (self.lateness, self.delay)
    }

    /// Whether nothing is late in its schedule, which takes at most so many ticks.
    pub fn is_enough(&self, enough: u64) -> bool {
        self.lateness == 0 && self.delay <= enough
    }

    pub fn into_draft(self) -> Draft {
        let Summit { draft, .. } = self;
        draft
    }
}

/// How many lists are taken to make it, beside those of the draft that it sets out from.
pub const CLIMB_TABLES: usize = 24;

/// A climb: the draft that it has come to, with what makes its schedule long, and the best one so far.
#[derive(Drop)]
pub struct Climb {
    draft: Draft,
    path: Path,
    cost: u64,
    chance: Chance,
    timetable: Timetable,
    best: Summit,
}

impl Climb {
    /// A climb that is to set out from this draft, in lists of the shelf.
    pub fn new(shelf: &mut Shelf, network: &Network, draft: Draft, chance: Chance) -> Self
        requires { 23 < length shelf.old.tables.items }
        ensures { length shelf.new.tables.items + 24 ≡ length shelf.old.tables.items }
    {
        let best = Summit {
            draft: draft.copy(shelf),
            lateness: u64::MAX,
            delay: u64::MAX,
        };
        Climb {
            draft,
            path: Path::new(shelf, network.homes.len(), network.bytes.len()),
            cost: 0,
            chance,
            timetable: Timetable::new(shelf, network),
            best,
        }
    }

    /// Tries changes of the draft, and keeps those that don't make its schedule much longer, with
    /// less and less leeway: threshold accepting (Dueck and Scheuer, Journal of Computational
    /// Physics 1990). It ends before where its best schedule is short enough.
    pub fn run(&mut self, network: &Network, pace: Pace) {
        self.timetable.bus.lay_out(network, &self.draft);
        self.make(network, u64::MAX);
        self.stay();
        let most = self.timetable.delay.saturating_mul(pace.heat) / 1000;
        for left in (0..pace.turns).rev() {
            if self.best.is_enough(pace.enough) {
                break;
            }
            let leeway = (most.saturating_mul(left) / pace.turns.max(1)).saturating_add(1);
            self.step(network, leeway, pace.holds);
        }
    }

    /// The best draft so far.
    pub fn into_summit(self) -> Summit {
        let Climb { best, .. } = self;
        best
    }

    /// Tries one change. One that changes nothing costs no schedule.
    fn step(&mut self, network: &Network, leeway: u64, holds: bool) {
        let choice = Choice {
            network: &*network,
            draft: &self.draft,
            path: &self.path,
            holds,
        };
        let change = choice.next(&mut self.chance);
        if self.draft.has(change) {
            return;
        }
        let back = self.change(network, change);
        let most = self.cost.saturating_add(leeway);
        if self.make(network, most) && self.timetable.cost() <= most {
            self.stay();
        } else {
            let _ = self.change(network, back);
        }
    }

    /// Makes a change of the draft, and gives the one that takes it back.
    fn change(&mut self, network: &Network, change: Change) -> Change {
        let back = self.draft.make(network, change);
        if change.is_of_slots() {
            self.timetable.bus.lay_out(network, &self.draft);
        }
        back
    }

    /// Makes the schedule of the draft, where there is one of at most so many ticks, and remembers the draft where less is
    /// late than ever before, or as much and the schedule is shorter.
    fn make(&mut self, network: &Network, most: u64) -> bool {
        if !self.timetable.make(network, &self.draft, most) {
            return false;
        }
        let lateness = self.timetable.lateness;
        let delay = self.timetable.delay;
        if (lateness, delay) < self.best.rank() {
            self.best.draft.take_over(&self.draft);
            self.best.lateness = lateness;
            self.best.delay = delay;
        }
        true
    }

    /// Goes on from the schedule that was made.
    fn stay(&mut self) {
        self.cost = self.timetable.cost();
        self.path.take_over(&self.timetable.path);
    }
}
