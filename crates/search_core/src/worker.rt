//! What does one worker of a search have, and what can it do?

ghost use Rattle.std.specs.Prelude.{◌≡◌, ◌≢◌, [], ◌∷◌, ◌++◌, List, IsTrue, ◌↔◌, MatchResult, IfOk, IfErr, OnErr, OnOk};
ghost use Rattle.search_core.specs.World.{idle_seat};
ghost use Rattle.search_core.specs.Turns.{Pops, LosesFirst, TakesName, Looks, Works, Pushes, Offers, Rests, IsUnmet, HasTask, HasChildren, HasValue, HasNames, IsFitting};
ghost use Rattle.search_core.specs.declared.hand.Hand.TheVariants.{Empty, Task};
ghost use Rattle.search_trees.specs.Name.{Name};

use crate::event::Worked;
use crate::hand::Hand;
use crate::reply::Illegal;
use search_trees::{Name, Piece};
use std::alloc::Global;
use std::collections::VecDeque;
use std::marker::Model;
use std::mem;
use ttp_model::MemoryFault;

/// A worker: its deque, its hand, the best delay in ticks that it saw last, the pieces that it made,
/// and the names that it left.
#[derive(Drop)]
pub struct Worker {
    deque: VecDeque<Name>,
    hand: Hand,
    seen: u32,
    pieces: Vec<Piece>,
    left: Vec<Name>,
}

impl Model for Worker {
    ghost use Rattle.search_core.specs.World.{Worker};

    ghost Value = { Worker };

    ghost view = { λ s. record {
      deque = s.deque.items;
      hand = s.hand;
      seen = s.seen;
      pieces = s.pieces.items;
      left = s.left.items;
    } };
}

impl Worker {
    /// A worker that has nothing. Takes no memory.
    pub(crate) fn idle(alloc: Global, top: u32) -> Self
        ensures { result ≡ idle_seat top }
    {
        Worker {
            deque: VecDeque::new(alloc),
            hand: Hand::Empty,
            seen: top,
            pieces: Vec::new(alloc),
            left: Vec::new(alloc),
        }
    }

    /// A worker that has this name in its deque, and nothing else.
    pub(crate) fn with_name(alloc: Global, top: u32, name: Name) -> Result<Self, MemoryFault>
        ensures { IfOk result (λ s. s ≡ record (idle_seat top) { deque = name ∷ [] }) }
    {
        let mut worker = Worker::idle(alloc, top);
        worker.deque.push_back(name)?;
        Ok(worker)
    }

    /// Is its hand empty?
    pub(crate) fn is_idle(&self) -> bool
        ensures { IsTrue result ↔ (self.now.hand ≡ Empty) }
    {
        matches!(&self.hand, Hand::Empty)
    }

    /// The last name of its deque, in memory of its own.
    fn last(&self, alloc: Global) -> Result<Name, Illegal>
        ensures { MatchResult result (λ name. (front : List Name) × (self.now.deque ≡ front ++ name ∷ [])) (IsUnmet (Unit {0}) (self.now.deque ≢ []) (Unit {0})) }
    {
        match self.deque.back() {
            Some(name) => Ok(name.copy(alloc)?),
            None => Err(Illegal::EmptyDeque),
        }
    }

    /// The last name of its deque goes to its hand.
    pub(crate) fn pop(&mut self, alloc: Global) -> Result<Name, Illegal>
        ensures done { IfOk result (λ name. Pops self.old name self.new) }
        ensures same { OnErr result (self.new ≡ self.old) }
        ensures refused { IfErr result (IsUnmet (self.old.hand ≡ Empty) (self.old.deque ≢ []) (Unit {0})) }
    {
        if !self.is_idle() {
            return Err(Illegal::WrongHand);
        }
        let name = self.last(alloc)?;
        if let Some(last) = self.deque.pop_back() {
            self.hand = Hand::Task(last);
        }
        Ok(name)
    }

    /// Another worker takes the first name of its deque: the name, and a copy of it.
    pub(crate) fn lose_first(&mut self, alloc: Global) -> Result<(Name, Name), Illegal>
        ensures done { IfOk result (λ names. LosesFirst self.old names.0 self.new) }
        ensures copy { IfOk result (λ names. names.1 ≡ names.0) }
        ensures same { OnErr result (self.new ≡ self.old) }
        ensures refused { IfErr result (IsUnmet (Unit {0}) (self.old.deque ≢ []) (Unit {0})) }
    {
        let copy = match self.deque.front() {
            Some(name) => name.copy(alloc)?,
            None => return Err(Illegal::EmptyDeque),
        };
        match self.deque.pop_front() {
            Some(name) => Ok((name, copy)),
            None => Err(Illegal::EmptyDeque),
        }
    }

    /// A task goes to its hand.
    pub(crate) fn receive(&mut self, name: Name)
        requires { self.old.hand ≡ Empty }
        ensures { TakesName self.old name self.new }
    {
        self.hand = Hand::Task(name);
    }

    /// Sees the best delay before it works its task.
    pub(crate) fn look(&mut self, best: u32) -> Result<(), Illegal>
        ensures done { OnOk result (Looks self.old best self.new) }
        ensures same { OnErr result (self.new ≡ self.old) }
        ensures refused { IfErr result (IsUnmet (HasTask self.old.hand) (Unit {0}) (Unit {0})) }
        ensures memory { IfErr result (λ fault. fault ≢ Illegal.OutOfMemory) }
    {
        match &self.hand {
            Hand::Task(_) => {
                self.seen = best;
                Ok(())
            }
            _ => Err(Illegal::WrongHand),
        }
    }

    /// The name of its task, and a copy of it, where this work on it fits.
    fn names_of_task(&self, alloc: Global, worked: &Worked) -> Result<(Name, Name), Illegal>
        ensures task { IfOk result (λ names. self.now.hand ≡ Task names.0) }
        ensures copy { IfOk result (λ names. names.1 ≡ names.0) }
        ensures fits { OnOk result (IsFitting self.now.seen worked.now) }
        ensures refused { IfErr result (IsUnmet (HasTask self.now.hand) (Unit {0}) (IsFitting self.now.seen worked.now)) }
    {
        let Hand::Task(name) = &self.hand else {
            return Err(Illegal::WrongHand);
        };
        if !worked.is_fitting(self.seen) {
            return Err(Illegal::Misfit);
        }
        Ok((name.copy(alloc)?, name.copy(alloc)?))
    }

    /// Its task becomes a piece.
    pub(crate) fn work(&mut self, alloc: Global, worked: Worked) -> Result<(), Illegal>
        ensures done { OnOk result (Works self.old worked self.new) }
        ensures same { OnErr result (self.new ≡ self.old) }
        ensures refused { IfErr result (IsUnmet (HasTask self.old.hand) (Unit {0}) (IsFitting self.old.seen worked)) }
    {
        let (name, copy) = self.names_of_task(alloc, &worked)?;
        let (node, hand) = worked.outcome(copy);
        self.pieces.push(Piece { name, node })?;
        self.hand = hand;
        Ok(())
    }

    /// The first child in its hand goes to the back of its deque.
    pub(crate) fn push(&mut self, alloc: Global) -> Result<(), Illegal>
        ensures done { OnOk result (Pushes self.old self.new) }
        ensures same { OnErr result (self.new ≡ self.old) }
        ensures refused { IfErr result (IsUnmet (HasChildren self.old.hand) (Unit {0}) (Unit {0})) }
    {
        let Hand::Children(brood) = &self.hand else {
            return Err(Illegal::WrongHand);
        };
        let name = brood.first(alloc)?;
        self.deque.push_back(name)?;
        let hand = mem::replace(&mut self.hand, Hand::Empty);
        self.hand = hand.rest();
        Ok(())
    }

    /// The delay in its hand, which it gives away.
    pub(crate) fn offer(&mut self) -> Result<u32, Illegal>
        ensures done { IfOk result (λ v. Offers self.old v self.new) }
        ensures same { OnErr result (self.new ≡ self.old) }
        ensures refused { IfErr result (IsUnmet (HasValue self.old.hand) (Unit {0}) (Unit {0})) }
        ensures memory { IfErr result (λ fault. fault ≢ Illegal.OutOfMemory) }
    {
        let Hand::Value(value) = self.hand else {
            return Err(Illegal::WrongHand);
        };
        self.hand = Hand::Empty;
        Ok(value)
    }

    /// The one or first name in its hand stays unworked.
    pub(crate) fn rest(&mut self, alloc: Global) -> Result<(), Illegal>
        ensures done { OnOk result (Rests self.old self.new) }
        ensures same { OnErr result (self.new ≡ self.old) }
        ensures refused { IfErr result (IsUnmet (HasNames self.old.hand) (Unit {0}) (Unit {0})) }
    {
        let name = self.hand.first(alloc)?;
        self.left.push(name)?;
        let hand = mem::replace(&mut self.hand, Hand::Empty);
        self.hand = hand.rest();
        Ok(())
    }

    /// Its deque, from the first name to the last.
    pub fn deque(&self) -> &VecDeque<Name>
        ensures { result.now.items ≡ self.now.deque }
    {
        &self.deque
    }

    pub fn hand(&self) -> &Hand
        ensures { result.now ≡ self.now.hand }
    {
        &self.hand
    }

    /// The best delay in ticks that it saw last.
    pub fn seen(&self) -> u32
        ensures { result ≡ self.now.seen }
    {
        self.seen
    }

    /// The pieces that it made, in their order.
    pub fn pieces(&self) -> &[Piece]
        ensures { result.now ≡ self.now.pieces }
    {
        self.pieces.as_slice()
    }

    /// The names that it left.
    pub fn left(&self) -> &[Name]
        ensures { result.now ≡ self.now.left }
    {
        self.left.as_slice()
    }

    /// Its pieces and the names that it left, without the rest.
    pub fn into_results(self) -> (Vec<Piece>, Vec<Name>)
        ensures pieces { result.0.items ≡ self.pieces }
        ensures left { result.1.items ≡ self.left }
    {
        let Worker {
            deque: _,
            hand: _,
            seen: _,
            pieces,
            left,
        } = self;
        (pieces, left)
    }
}
