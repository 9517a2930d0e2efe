//! Which branches do times of slots rest on?

ghost use Rattle.std.specs.Prelude.{◌≡◌, ℕ, ◌<◌, ◌≤◌, length, take, All, IfOk, IfSome, IfNone, IsTrue, position, ◌==◌};
ghost use Rattle.ttp_model.specs.Instance.{Instance};
ghost use Rattle.tt_choice.specs.Kept.{fixes_above, fixes_below};
ghost use Rattle.used_decisions.specs.Levels.{has_level};
ghost use Rattle.used_decisions.specs.Turns.{last_of, placed_of};
ghost use Rattle.used_decisions.specs.Marks.{IsTold, ArePlacesTold};
ghost use Rattle.used_decisions.specs.Uses.{IsMore, IsGrown, HaveMarked};

use crate::levels::Levels;
use crate::path::Path;
use crate::turn::{Cut, OnChannel};
use std::alloc::Global;
use ttp_model::MemoryFault;

/// The branches above a leaf that steps use.
#[derive(Drop)]
pub struct Uses {
    levels: Levels,
    /// How many places of the slot order.
    places: usize,
    /// Whether the capacities that are fixed above the least option.
    above_least: bool,
    /// Whether the capacities that are fixed below the greatest option.
    below_most: bool,
}

impl Uses {
    /// None of the branches above a leaf, of which there are so many.
    pub fn nothing(alloc: Global, depth: u32) -> Result<Uses, MemoryFault>
        ensures { IfOk result (λ uses. depth ≤ length uses.levels) }
    {
        Ok(Uses {
            levels: Levels::none_of(alloc, depth)?,
            places: 0,
            above_least: false,
            below_most: false,
        })
    }

    /// Uses the branch of a level.
    fn mark(&mut self, level: u32)
        ensures more { IsMore self.old self.new }
        ensures told { level < length self.old.levels → IsTrue (has_level self.new.levels level) }
    {
        self.levels.insert(level);
    }

    /// Uses a branch, if there is one.
    pub fn branch(&mut self, level: Option<u32>)
        ensures more { IsMore self.old self.new }
        ensures told { IfSome level (λ level. level < length self.old.levels → IsTrue (has_level self.new.levels level)) }
    {
        if let Some(level) = level {
            self.mark(level);
        }
    }

    /// Uses a bound on the rounds of a message, if there is one.
    pub fn cut(&mut self, cut: Option<Cut>)
        ensures more { IsMore self.old self.new }
        ensures told { IfSome cut (λ cut. cut.level < length self.old.levels → IsTrue (has_level self.new.levels cut.level)) }
    {
        if let Some(cut) = cut {
            self.mark(cut.level);
        }
    }

    /// Uses the channel of a message, if a branch fixed it.
    pub fn channel(&mut self, channel: Option<OnChannel>)
        ensures more { IsMore self.old self.new }
        ensures told { IfSome channel (λ on. on.level < length self.old.levels → IsTrue (has_level self.new.levels on.level)) }
    {
        if let Some(on) = channel {
            self.mark(on.level);
        }
    }

    /// Uses the first so many places.
    fn first_places(&mut self, count: usize)
        ensures more { IsMore self.old self.new }
        ensures told { count ≤ self.new.places }
    {
        self.places = self.places.max(count);
    }

    /// Uses the place of a node in the slot order, with those in front of it, if it has one.
    pub fn place(&mut self, path: &Path, n: u32)
        ensures more { IsMore self.old self.new }
        ensures told { IfSome (position (λ one. one.node == n) (placed_of path.now.turns)) (λ k. k < self.new.places) }
    {
        if let Some(k) = path.place_of(n) {
            let count = path.order().len();
            self.first_places(k.saturating_add(1).min(count));
        }
    }

    /// Uses when a node's slot begins or ends at least: that depends on the nodes in front of it, or on all that are placed, and
    /// on no capacity that is the least anyway.
    pub fn least_slot(&mut self, path: &Path, n: u32)
        ensures more { IsMore self.old self.new }
        ensures capacities { IsTrue self.new.above_least }
        ensures front { IfSome (position (λ one. one.node == n) (placed_of path.now.turns)) (λ k. k ≤ self.new.places) }
        ensures all { IfNone (position (λ one. one.node == n) (placed_of path.now.turns))
            (length (placed_of path.now.turns) ≤ self.new.places) }
    {
        self.above_least = true;
        match path.place_of(n) {
            Some(k) => self.first_places(k),
            None => self.first_places(path.order().len()),
        }
    }

    /// Uses when a node's slot begins or ends at most: that depends on the nodes up to it, or on no place, and on no capacity that
    /// is the greatest anyway.
    pub fn greatest_slot(&mut self, path: &Path, n: u32)
        ensures more { IsMore self.old self.new }
        ensures capacities { IsTrue self.new.below_most }
        ensures place { IfSome (position (λ one. one.node == n) (placed_of path.now.turns)) (λ k. k < self.new.places) }
    {
        self.below_most = true;
        self.place(path, n);
    }

    /// The branches that are used.
    pub fn levels(self, path: &Path) -> Levels
        ensures kept { (level : ℕ) → IsTrue (has_level self.levels level) → IsTrue (has_level result level) }
        ensures places { All (λ turn. turn.level < length self.levels) path.now.turns
            → ArePlacesTold result self.places (placed_of path.now.turns) }
        ensures above { All (λ turn. turn.level < length self.levels) path.now.turns → IsTrue self.above_least
            → (n : ℕ) → n < length path.now.instance.nodes → IsTold result (last_of (fixes_above n) path.now.turns) }
        ensures below { All (λ turn. turn.level < length self.levels) path.now.turns → IsTrue self.below_most
            → (n : ℕ) → n < length path.now.instance.nodes
            → IsTold result (last_of (fixes_below path.now.instance n) path.now.turns) }
    {
        let Uses {
            levels,
            places,
            above_least,
            below_most,
        } = self;
        let mut levels = levels;
        mark_places(path, places, &mut levels);
        mark_above(path, above_least, &mut levels);
        mark_below(path, below_most, &mut levels);
        levels
    }
}

/// Puts in the branches that decided the first so many places.
fn mark_places(path: &Path, places: usize, levels: &mut Levels)
    ensures { HaveMarked (take places (placed_of path.now.turns)) levels.old levels.new }
{
    let order = path.order();
    let count = places.min(order.len());
    for placed in &order[..count] {
        levels.insert(placed.level);
    }
}

/// Puts in a branch, if there is one.
fn insert_branch(level: Option<u32>, levels: &mut Levels)
    ensures grown { IsGrown levels.old levels.new }
    ensures told { IfSome level (λ level. level < length levels.old → IsTrue (has_level levels.new level)) }
{
    if let Some(level) = level {
        levels.insert(level);
    }
}

/// Puts in the branches that fixed a capacity above the least option, where these are asked for.
fn mark_above(path: &Path, are_used: bool, levels: &mut Levels)
    ensures grown { IsGrown levels.old levels.new }
    ensures told { All (λ turn. turn.level < length levels.old) path.now.turns → IsTrue are_used
        → (n : ℕ) → n < length path.now.instance.nodes → IsTold levels.new (last_of (fixes_above n) path.now.turns) }
{
    if !are_used {
        return;
    }
    let count = path.instance().nodes().len() as u32;
    for n in 0..count {
        insert_branch(path.above_least(n), levels);
    }
}

/// Puts in the branches that fixed a capacity below the greatest option, where these are asked for.
fn mark_below(path: &Path, are_used: bool, levels: &mut Levels)
    ensures grown { IsGrown levels.old levels.new }
    ensures told { All (λ turn. turn.level < length levels.old) path.now.turns → IsTrue are_used
        → (n : ℕ) → n < length path.now.instance.nodes
        → IsTold levels.new (last_of (fixes_below path.now.instance n) path.now.turns) }
{
    if !are_used {
        return;
    }
    let count = path.instance().nodes().len() as u32;
    for n in 0..count {
        insert_branch(path.below_most(n), levels);
    }
}
