//! Which processes go before which?

ghost use Rattle.std.specs.Prelude.{◌≡◌, ℕ, ◌<◌, ◌⊎◌, IfOk, OnOk, IsTrue};
ghost use Rattle.tt_choice.specs.Precedence.{goes_before, nothing_before, put_before, take_back};

use std::alloc::Global;
use std::marker::Model;
use ttp_model::MemoryFault;

/// A square table with a test for each two processes: whether the first goes before the second.
/// It takes a bit for each test, and a question one look.
#[derive(Drop)]
pub struct Precedence {
    /// How many processes there are.
    processes: u32,
    /// A row of tests for each process, one row after another, 64 tests in a word, the first in its lowest bit.
    words: Vec<u64>,
}

impl Model for Precedence {
    ghost use Rattle.std.specs.Prelude.{◌*◌, ◌≤◌, length};
    ghost use Rattle.tt_choice.specs.Packed.{packed};
    ghost use Rattle.tt_choice.specs.Precedence.{Precedence};

    ghost Value = { Precedence };

    ghost view = { λ s. packed s.processes s.words.items };

    ghost invariant = { λ s. s.processes * s.processes ≤ length s.words.items * 64 };
}

impl Precedence {
    /// No process goes before another.
    pub fn none(alloc: Global, processes: u32) -> Result<Self, MemoryFault>
        ensures { IfOk result (λ b. b ≡ nothing_before processes) }
    {
        let tests = processes as usize * processes as usize;
        let words = vec![in alloc; 0u64; tests / 64 + 1]?;
        Ok(Precedence { processes, words })
    }

    /// The same table in memory of its own.
    pub fn copy(&self, alloc: Global) -> Result<Self, MemoryFault>
        ensures { IfOk result (λ b. b ≡ self.now) }
    {
        let words = Vec::from_slice(alloc, self.words.as_slice())?;
        Ok(Precedence {
            processes: self.processes,
            words,
        })
    }

    /// Becomes the same table as another, in the memory that it has where that suffices. After a refusal no process is
    /// there.
    pub fn set_to(&mut self, other: &Precedence) -> Result<(), MemoryFault>
        ensures { OnOk result (self.new ≡ other.now) }
    {
        self.processes = 0;
        self.words.clear();
        self.words.extend_from_slice(other.words.as_slice())?;
        self.processes = other.processes;
        Ok(())
    }

    /// How many processes the table is for.
    pub fn processes(&self) -> u32
        ensures { result ≡ self.now.processes }
    {
        self.processes
    }

    /// Whether `p` goes before `q`: never where one of them isn't there.
    pub fn goes_before(&self, p: u32, q: u32) -> bool
        ensures { result ≡ goes_before self.now p q }
    {
        if p < self.processes && q < self.processes {
            let place = p as usize * self.processes as usize + q as usize;
            (self.words[place / 64] >> (place % 64)) % 2 == 1
        } else {
            false
        }
    }

    /// Lets `p` go before `q`.
    pub fn put(&mut self, p: u32, q: u32)
        requires first { p < self.old.processes }
        requires second { q < self.old.processes }
        ensures value { self.new ≡ put_before self.old p q }
        ensures now { IsTrue (goes_before self.new p q) }
        ensures kept { (j k : ℕ) → IsTrue (goes_before self.old j k)
            → IsTrue (goes_before self.new j k) }
        ensures only { (j k : ℕ) → IsTrue (goes_before self.new j k)
            → IsTrue (goes_before self.old j k) ⊎ ((j ≡ p) × (k ≡ q)) }
    {
        let place = p as usize * self.processes as usize + q as usize;
        self.words[place / 64] |= 1u64 << (place % 64);
    }

    /// Lets `p` go before `q` no more, of processes that are there.
    pub(crate) fn take_back(&mut self, p: u32, q: u32)
        ensures { self.new ≡ take_back self.old p q }
    {
        let place = p as usize * self.processes as usize + q as usize;
        if place < self.processes as usize * self.processes as usize {
            self.words[place / 64] &= !(1u64 << (place % 64));
        }
    }
}
