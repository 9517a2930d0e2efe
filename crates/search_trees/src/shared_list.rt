//! A list of which the first items are shared with other lists.

ghost use Rattle.std.specs.Prelude.{◌≡◌, [], ◌∷◌, ◌++◌, length, slice_get, IfOk, OnOk};
ghost use Rattle.std.specs.List.{flat_map};
ghost use Rattle.std.specs.Arc.{arc_slice_items};
ghost use Rattle.std.specs.Ordering.{nat_cmp};
ghost use Rattle.std.specs.Cmp.Lexicographic.{slice_cmp};
ghost use Rattle.search_trees.specs.Stretches.{AreWhole, stretch_length};

use crate::order::{compare, compare_whole};
use std::alloc::Global;
use std::cmp::Ordering;
use std::marker::Model;
use std::sync::ArcSlice;
use ttp_model::MemoryFault;

/// How many items a stretch has.
const STRETCH: usize = 64;

/// A list in stretches, which it shares with the lists that are made of it, and behind them a few items of its own. So one that has
/// an item more takes little memory, however long it is.
#[derive(Drop)]
pub(crate) struct SharedList<T> {
    stretches: Vec<ArcSlice<T>>,
    own: Vec<T>,
}

impl<T> Model for SharedList<T> {
    ghost use Rattle.std.specs.Prelude.{List, ◌++◌};
    ghost use Rattle.std.specs.List.{flat_map};
    ghost use Rattle.std.specs.Arc.{arc_slice_items};
    ghost use Rattle.search_trees.specs.Stretches.{AreWhole};

    ghost Value = { List T };

    ghost view = { λ s. flat_map arc_slice_items s.stretches.items ++ s.own.items };

    ghost invariant = { λ s. AreWhole arc_slice_items s.stretches.items };
}

/// Puts all items of these stretches behind others.
fn push_all<T: Copy + Drop>(
    items: &mut Vec<T>,
    stretches: &[ArcSlice<T>],
) -> Result<(), MemoryFault>
    ensures { OnOk result (items.new.items ≡ items.old.items ++ flat_map arc_slice_items stretches.now) }
{
    for stretch in stretches {
        items.extend_from_slice(stretch.as_slice())?;
    }
    Ok(())
}

/// Copies of these stretches, with one of these items behind them.
fn one_more<T: Copy + Drop>(
    alloc: Global,
    stretches: &[ArcSlice<T>],
    own: &[T],
) -> Result<Vec<ArcSlice<T>>, MemoryFault>
    requires whole { AreWhole arc_slice_items stretches.now }
    requires length { length own.now ≡ stretch_length }
    ensures items { IfOk result (λ all. flat_map arc_slice_items all.items ≡ flat_map arc_slice_items stretches.now ++ own.now) }
    ensures whole { IfOk result (λ all. AreWhole arc_slice_items all.items) }
{
    let last = ArcSlice::from_slice(alloc, own)?;
    let mut all = Vec::from_clones(alloc, stretches)?;
    all.push(last)?;
    Ok(all)
}

/// The item at a place of a list, if there is one.
fn item_at<T: Copy + Drop>(items: &[T], k: usize) -> Option<T>
    ensures { result ≡ slice_get items.now k }
{
    items.get(k).copied()
}

impl<T: Copy + Drop> SharedList<T> {
    /// No items. Takes no memory.
    pub fn new(alloc: Global) -> Self
        ensures { result ≡ [] }
    {
        SharedList {
            stretches: Vec::new(alloc),
            own: Vec::new(alloc),
        }
    }

    /// The same, whose stretches are shared, with room for one item more: a stretch of its own items is shared from now on.
    pub fn copy(&self, alloc: Global) -> Result<Self, MemoryFault>
        ensures { IfOk result (λ list. list ≡ self.now) }
    {
        if self.own.len() == STRETCH {
            let stretches = one_more(alloc, self.stretches.as_slice(), self.own.as_slice())?;
            return Ok(SharedList {
                stretches,
                own: Vec::new(alloc),
            });
        }
        let mut own = Vec::with_capacity(alloc, self.own.len().saturating_add(1))?;
        own.extend_from_slice(self.own.as_slice())?;
        let stretches = Vec::from_clones(alloc, self.stretches.as_slice())?;
        Ok(SharedList { stretches, own })
    }

    /// The same with an item more behind it.
    pub fn with(&self, alloc: Global, item: T) -> Result<Self, MemoryFault>
        ensures { IfOk result (λ list. list ≡ self.now ++ item ∷ []) }
    {
        let mut list = self.copy(alloc)?;
        list.own.push(item)?;
        Ok(list)
    }

    /// The item at a place, if there is one.
    pub fn get(&self, k: usize) -> Option<T>
        ensures { result ≡ slice_get self.now k }
    {
        let stretch = k / STRETCH;
        if stretch < self.stretches.len() {
            item_at(self.stretches[stretch].as_slice(), k % STRETCH)
        } else {
            item_at(self.own.as_slice(), k - self.stretches.len() * STRETCH)
        }
    }

    /// All items, in memory of their own.
    pub fn to_vec(&self, alloc: Global) -> Result<Vec<T>, MemoryFault>
        ensures { IfOk result (λ all. all.items ≡ self.now) }
    {
        let count = self.stretches.len().saturating_mul(STRETCH);
        let mut all = Vec::with_capacity(alloc, count.saturating_add(self.own.len()))?;
        push_all(&mut all, self.stretches.as_slice())?;
        all.extend_from_slice(self.own.as_slice())?;
        Ok(all)
    }
}

impl SharedList<u32> {
    /// Compares the items with those of a list: the first that differs decides.
    pub fn cmp_slice(&self, list: &[u32]) -> Ordering
        ensures { result ≡ slice_cmp nat_cmp self.now list.now }
    {
        compare(self.stretches.as_slice(), self.own.as_slice(), list)
    }

    /// Compares the items of two lists, stretch by stretch.
    pub fn cmp(&self, other: &Self) -> Ordering
        ensures { result ≡ slice_cmp nat_cmp self.now other.now }
    {
        let mine = self.stretches.as_slice();
        let others = other.stretches.as_slice();
        let order = compare_whole(mine, others);
        if order.is_ne() {
            return order;
        }
        let both = mine.len().min(others.len());
        if both < others.len() {
            let (_, rest) = others.split_at(both);
            compare(rest, other.own.as_slice(), self.own.as_slice()).reverse()
        } else {
            let (_, rest) = mine.split_at(both);
            compare(rest, self.own.as_slice(), other.own.as_slice())
        }
    }
}
