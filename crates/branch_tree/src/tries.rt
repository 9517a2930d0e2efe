//! Which orders of two processes are worth a try?

ghost use Rattle.std.specs.Prelude.{◌<◌, length};

use std::alloc::Global;
use tt_infer::Facts;
use ttp_model::MemoryFault;

/// Tries are made at each node where this share of them, in millionths, led to a branch lately: a guess.
const ENOUGH: u32 = 300_000;

/// Else at one in so many nodes: a guess.
const SELDOM: u32 = 16;

/// When two processes can run.
#[derive(Clone, Copy, PartialEq, Eq)]
struct Windows {
    first_from: u32,
    first_until: u32,
    second_from: u32,
    second_until: u32,
}

/// Whether tries helped lately, and what was tried last.
#[derive(Drop)]
pub struct Tries {
    /// The share of tries that led to a branch, the later ones counting more, in millionths.
    share: u32,
    /// How many nodes went by without any.
    passed: u32,
    /// By two processes, when they could run as their order was tried last.
    seen: Option<Vec<Windows>>,
}

/// No process can run so.
const NEVER: Windows = Windows {
    first_from: 0,
    first_until: 0,
    second_from: 0,
    second_until: 0,
};

/// Writes what is seen at a place, where that is there. Whether it differs from what stood there.
fn note_at(seen: &mut [Windows], place: usize, now: Windows) -> bool {
    if place >= seen.len() {
        return true;
    }
    let is_new = seen[place] != now;
    seen[place] = now;
    is_new
}

/// When two processes can run by what is known.
fn windows_of(facts: &Facts, p: u32, q: u32) -> Windows
    requires first { p < length facts.now.instance.processes }
    requires second { q < length facts.now.instance.processes }
{
    Windows {
        first_from: facts.es(p),
        first_until: facts.le(p),
        second_from: facts.es(q),
        second_until: facts.le(q),
    }
}

impl Tries {
    /// Before any.
    pub fn none() -> Self {
        Tries {
            share: 500_000,
            passed: 0,
            seen: None,
        }
    }

    /// Whether to try at a node.
    pub fn are_due(&mut self) -> bool {
        if self.share >= ENOUGH {
            return true;
        }
        self.passed = self.passed.saturating_add(1) % SELDOM;
        self.passed == 0
    }

    /// Takes note of whether the tries at a node led to a branch.
    pub fn note(&mut self, helped: bool) {
        let gain = if helped { 20_000 } else { 0 };
        self.share = (self.share - self.share / 50).saturating_add(gain);
    }

    /// Whether two processes can run at other times than when their order was tried last. Takes note of when they can.
    pub fn is_new(
        &mut self,
        alloc: Global,
        facts: &Facts,
        p: u32,
        q: u32,
    ) -> Result<bool, MemoryFault> {
        let count = facts.instance().processes().len();
        if p as usize >= count || q as usize >= count {
            return Ok(false);
        }
        let mut seen = match self.seen.take() {
            Some(seen) => seen,
            None => vec![in alloc; NEVER; count * count]?,
        };
        let place = p as usize * count + q as usize;
        let is_new = note_at(&mut seen, place, windows_of(facts, p, q));
        self.seen = Some(seen);
        Ok(is_new)
    }
}
