//! Which flags are up?

ghost use Rattle.std.specs.Prelude.{◌≡◌, Bool, false, true, length, replicate, slice_index_or, slice_set, IfOk};

use std::alloc::Global;
use std::marker::Model;
use ttp_model::MemoryFault;

/// A flag for each of so many places. Taking all of them down costs one step, but for once in very many times.
#[derive(Drop)]
pub struct Flags {
    /// How often flags were taken down, and one more.
    count: u64,
    /// The count at which each was put up last.
    counts: Vec<u64>,
}

impl Model for Flags {
    ghost use Rattle.std.specs.Prelude.{List, Bool};
    ghost use Rattle.used_decisions.specs.Flags.{AreUpTo, up_at};

    ghost Value = { List Bool };

    ghost view = { λ s. up_at s.count s.counts.items };

    ghost invariant = { λ s. AreUpTo s.count s.counts.items };
}

/// Forgets each count.
fn forget(counts: &mut Vec<u64>)
    ensures { counts.new.items ≡ replicate (length counts.old.items) 0 }
{
    for k in 0..counts.len() {
        counts[k] = 0;
    }
}

impl Flags {
    /// So many, all down.
    pub fn down(alloc: Global, count: usize) -> Result<Flags, MemoryFault>
        ensures { IfOk result (λ flags. flags ≡ replicate count false) }
    {
        Ok(Flags {
            count: 1,
            counts: vec![in alloc; 0u64; count]?,
        })
    }

    /// Takes all of them down.
    pub fn take_down(&mut self)
        ensures { self.new ≡ replicate (length self.old) false }
    {
        if self.count == u64::MAX {
            forget(&mut self.counts);
            self.count = 1;
        } else {
            self.count += 1;
        }
    }

    /// Puts one up, if it is there.
    pub fn put_up(&mut self, k: usize)
        ensures { self.new ≡ slice_set self.old k true }
    {
        if k < self.counts.len() {
            self.counts[k] = self.count;
        }
    }

    /// Whether one is there and up.
    pub fn is_up(&self, k: usize) -> bool
        ensures { result ≡ slice_index_or self.now k false }
    {
        match self.counts.get(k) {
            Some(count) => *count == self.count,
            None => false,
        }
    }
}
