//! What does a worker hold?

ghost use Rattle.std.specs.Prelude.{◌≡◌, ◌∷◌, drop, MatchResult};
ghost use Rattle.search_core.specs.World.{held_names};
ghost use Rattle.search_core.specs.Turns.{children_left, HasNames, IsUnmet};

use crate::brood::Brood;
use crate::reply::Illegal;
use search_trees::Name;
use std::alloc::Global;

/// What a worker holds between two events.
#[derive(Drop)]
pub enum Hand {
    Empty,
    Task(Name),
    Children(Brood),
    /// A delay that was found and isn't offered yet.
    Value(u32),
}

impl Hand {
    /// The task, or the first child, in memory of its own.
    pub(crate) fn first(&self, alloc: Global) -> Result<Name, Illegal>
        ensures { MatchResult result (λ name. held_names self.now ≡ name ∷ drop 1 (held_names self.now)) (IsUnmet (HasNames self.now) (Unit {0}) (Unit {0})) }
    {
        match self {
            Hand::Task(name) => Ok(name.copy(alloc)?),
            Hand::Children(brood) => Ok(brood.first(alloc)?),
            _ => Err(Illegal::WrongHand),
        }
    }

    /// What is held behind the first name.
    pub(crate) fn rest(self) -> Self
        ensures { result ≡ children_left (drop 1 (held_names self)) }
    {
        match self {
            Hand::Children(brood) => match brood.rest() {
                Some(brood) => Hand::Children(brood),
                None => Hand::Empty,
            },
            _ => Hand::Empty,
        }
    }
}
