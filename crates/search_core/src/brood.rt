//! Which children of a branch are still in hand?

ghost use Rattle.std.specs.Prelude.{◌≡◌, ◌≢◌, ◌≤◌, ◌∷◌, [], drop, length, IfOk, MatchOption};
ghost use Rattle.search_trees.specs.Name.{child_names};

use search_trees::Name;
use std::alloc::Global;
use std::marker::Model;
use ttp_model::MemoryFault;

/// The names of a branch's children, rising, from one of them on: at least one name. Each is made
/// when it is asked for.
#[derive(Drop)]
pub struct Brood {
    parent: Name,
    next: u32,
    end: u32,
}

impl Model for Brood {
    ghost use Rattle.std.specs.Prelude.{List, ◌-◌, ◌<◌, map};
    ghost use Rattle.std.specs.List.{range_with_len};
    ghost use Rattle.search_trees.specs.Name.{Name, child_name};

    ghost Value = { List Name };

    ghost view = { λ s. map (child_name s.parent) (range_with_len s.next (s.end - s.next)) };

    ghost invariant = { λ s. s.next < s.end };
}

impl Brood {
    /// All children of a branch.
    pub(crate) fn of(parent: Name, count: u32) -> Self
        requires { 1 ≤ count }
        ensures { result ≡ child_names parent count }
    {
        Brood {
            parent,
            next: 0,
            end: count,
        }
    }

    /// The first name, in memory of its own.
    pub fn first(&self, alloc: Global) -> Result<Name, MemoryFault>
        ensures name { IfOk result (λ name. self.now ≡ name ∷ drop 1 self.now) }
        ensures some { self.now ≢ [] }
    {
        self.parent.child(alloc, self.next)
    }

    /// How many names there are.
    pub fn len(&self) -> u32
        ensures { result ≡ length self.now }
    {
        self.end - self.next
    }

    /// The names behind the first.
    pub(crate) fn rest(self) -> Option<Self>
        ensures { MatchOption result (drop 1 self ≡ []) (λ names. names ≡ drop 1 self) }
    {
        let Brood { parent, next, end } = self;
        if next + 1 == end {
            return None;
        }
        Some(Brood {
            parent,
            next: next + 1,
            end,
        })
    }
}
