//! Which branches of a path are used?

ghost use Rattle.std.specs.Prelude.{◌≡◌, ℕ, ◌<◌, ◌≤◌, ◌&&◌, ◌||◌, nat_lt, length, slice_index, slice_set, bit_or, IfOk, true, false};
ghost use Rattle.used_decisions.specs.Levels.{has_level};

use std::alloc::Global;
use std::marker::Model;
use ttp_model::MemoryFault;

/// How many levels a word has room for.
const WORD_LEVELS: u32 = 64;

/// A set of levels of a path: of its branches, the root's being level 0.
#[derive(Drop)]
pub struct Levels {
    /// A bit for each level, 64 in a word, the first in its lowest bit.
    words: Vec<u64>,
}

impl Model for Levels {
    ghost use Rattle.std.specs.Prelude.{List, Bool, length, ◌*◌};
    ghost use Rattle.tt_choice.specs.Packed.{bits_from};

    ghost Value = { List Bool };

    ghost view = { λ s. bits_from (length s.words.items * 64) 0 s.words.items };
}

/// Puts the bits of other words in, as far as there are words for them.
fn join_words(words: &mut Vec<u64>, others: &[u64])
    ensures room { length words.new.items ≡ length words.old.items }
    ensures value { (k : ℕ) → k < length words.old.items
        → slice_index words.new.items k ≡ bit_or (slice_index words.old.items k) (slice_index others.now k) }
{
    let count = words.len().min(others.len());
    for k in 0..count {
        words[k] |= others[k];
    }
}

impl Levels {
    /// None of so many levels.
    pub fn none_of(alloc: Global, count: u32) -> Result<Levels, MemoryFault>
        ensures room { IfOk result (λ levels. count ≤ length levels) }
        ensures none { IfOk result (λ levels. (level : ℕ) → has_level levels level ≡ false) }
    {
        let words = count.div_ceil(WORD_LEVELS) as usize;
        Ok(Levels {
            words: vec![in alloc; 0u64; words]?,
        })
    }

    /// All of so many levels, and maybe more.
    pub fn all_of(alloc: Global, count: u32) -> Result<Levels, MemoryFault>
        ensures room { IfOk result (λ levels. count ≤ length levels) }
        ensures all { IfOk result (λ levels. (level : ℕ) → level < length levels → has_level levels level ≡ true) }
    {
        let words = count.div_ceil(WORD_LEVELS) as usize;
        Ok(Levels {
            words: vec![in alloc; u64::MAX; words]?,
        })
    }

    /// Puts a level in, where there is room for it.
    pub fn insert(&mut self, level: u32)
        ensures { self.new ≡ slice_set self.old level true }
    {
        let word = (level / WORD_LEVELS) as usize;
        if word < self.words.len() {
            self.words[word] |= 1 << (level % WORD_LEVELS);
        }
    }

    pub fn contains(&self, level: u32) -> bool
        ensures { result ≡ has_level self.now level }
    {
        let word = (level / WORD_LEVELS) as usize;
        word < self.words.len() && (self.words[word] >> (level % WORD_LEVELS)) % 2 == 1
    }

    /// Puts the levels of another set in, as far as there is room for them.
    pub fn join(&mut self, other: &Levels)
        ensures room { length self.new ≡ length self.old }
        ensures value { (level : ℕ) → has_level self.new level
            ≡ (has_level self.old level || (nat_lt level (length self.old) && has_level other.now level)) }
    {
        join_words(&mut self.words, other.words.as_slice());
    }
}
