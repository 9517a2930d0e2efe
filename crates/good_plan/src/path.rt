//! What makes a schedule as long as it is.

ghost use Rattle.std.specs.Prelude.{◌≡◌, ◌<◌, ◌+◌, length};

use crate::chance::Chance;
use crate::shelf::Shelf;
use crate::table::Table;

/// What each process waits for last, and where it ends late.
#[derive(Drop)]
pub struct Path {
    /// By process, the process that it starts right after or has its last message from; else their
    /// number.
    blockers: Table,
    /// By message, from which round on it could be sent, and the one in which it is.
    firsts: Table,
    rounds: Table,
    /// The process that ends last.
    last: usize,
    /// The process that ends too late by most, and by how much: by 0 where none does.
    latest: usize,
    most: u64,
}

impl Path {
    /// Nothing waits, of so many processes and messages.
    pub fn new(shelf: &mut Shelf, processes: usize, messages: usize) -> Self
        requires { 2 < length shelf.old.tables.items }
        ensures { length shelf.new.tables.items + 3 ≡ length shelf.old.tables.items }
    {
        let mut path = Path {
            blockers: shelf.zeros(processes),
            firsts: shelf.zeros(messages),
            rounds: shelf.zeros(messages),
            last: 0,
            latest: 0,
            most: 0,
        };
        path.begin();
        path
    }

    /// Nothing waits again. What was noted of messages stays until they are sent.
    pub fn begin(&mut self) {
        self.blockers.fill(self.blockers.len() as u64);
        self.last = 0;
        self.latest = 0;
        self.most = 0;
    }

    /// Takes what another one has noted of the same processes and messages.
    pub fn take_over(&mut self, other: &Path) {
        self.blockers.take_over(&other.blockers);
        self.firsts.take_over(&other.firsts);
        self.rounds.take_over(&other.rounds);
        self.last = other.last;
        self.latest = other.latest;
        self.most = other.most;
    }

    pub fn block(&mut self, process: usize, by: usize) {
        self.blockers.set(process, by as u64);
    }

    /// A message is sent in a round, and could be from another one on.
    pub fn send(&mut self, message: usize, first: u64, round: u64) {
        self.firsts.set(message, first);
        self.rounds.set(message, round);
    }

    /// Whether a message is sent later than it could be.
    pub fn is_held_up(&self, message: usize) -> bool {
        self.firsts.at(message) < self.rounds.at(message)
    }

    /// Whether another message is sent in a round in which this one could be.
    pub fn is_in_front(&self, other: usize, message: usize) -> bool {
        let round = self.rounds.at(other);
        self.firsts.at(message) <= round && round < self.rounds.at(message)
    }

    pub fn ends_last(&mut self, process: usize) {
        self.last = process;
    }

    /// A process ends so much too late.
    pub fn is_late(&mut self, process: usize, late: u64) {
        if late > self.most {
            self.most = late;
            self.latest = process;
        }
    }

    /// A process and the one that waits for it, by chance of those that lead to the last end or,
    /// mostly where there is one, to the latest one. None where that process waits for none.
    pub fn link(&self, chance: &mut Chance) -> Option<(usize, usize)> {
        let end = if self.most > 0 && chance.below(4) > 0 {
            self.latest
        } else {
            self.last
        };
        let length = self.length(end);
        if length == 0 {
            return None;
        }
        let after = self.back(end, chance.below(length));
        Some((self.blockers.place_at(after), after))
    }

    /// How many waits lead to a process.
    fn length(&self, end: usize) -> usize {
        let mut at = end;
        for length in 0..self.blockers.len() {
            at = self.blockers.place_at(at);
            if at >= self.blockers.len() {
                return length;
            }
        }
        0
    }

    /// The process so many waits before.
    fn back(&self, end: usize, waits: usize) -> usize {
        let mut at = end;
        for _ in 0..waits {
            at = self.blockers.place_at(at);
        }
        at
    }
}
