//! What can happen in a search?

ghost use Rattle.std.specs.Prelude.{◌≡◌, ℕ, ◌↔◌, IsTrue};
ghost use Rattle.search_core.specs.Turns.{IsFitting, node_made, hand_after};

use crate::brood::Brood;
use crate::hand::Hand;
use certificate::{Branch, Node};
use search_trees::Name;
use ttp_model::{Kind, Leaf};

/// What became of the task in a worker's hand.
#[derive(Drop)]
pub enum Worked {
    /// A branch of this kind, with so many children.
    Split(Kind, u32),
    /// A leaf at the goal that the worker saw.
    Closed(Leaf),
    /// A plan with this delay in ticks, and a leaf that closes the task at a goal of at least this delay.
    Found(Leaf, u32),
}

/// One thing that a worker does. Workers are named by number, from 0.
#[derive(Drop)]
pub enum Event {
    /// Takes the last name of its own deque.
    Pop(u32),
    /// Takes the first name of another's deque: the worker, and the other.
    Steal(u32, u32),
    /// Reads the best delay.
    Look(u32),
    /// Works the task in its hand.
    Work(u32, Worked),
    /// Pushes the first child in its hand.
    Push(u32),
    /// Offers the delay in its hand.
    Offer(u32),
    /// Leaves the first name in its hand unworked.
    Rest(u32),
}

impl Worked {
    /// Does its count, or its goal, fit a worker that saw this delay?
    pub(crate) fn is_fitting(&self, seen: u32) -> bool
        ensures { IsTrue result ↔ IsFitting seen self.now }
    {
        match self {
            Worked::Split(kind, count) => 1 <= *count && *count == kind.children(*count),
            Worked::Closed(leaf) => leaf.goal == seen,
            Worked::Found(leaf, delay) => *delay <= leaf.goal && leaf.goal < seen,
        }
    }

    /// The node that it makes, and what is in hand after it, for a task of this name.
    pub(crate) fn outcome(self, name: Name) -> (Node, Hand)
        requires { (seen : ℕ) × IsFitting seen self }
        ensures node { result.0 ≡ node_made self }
        ensures hand { result.1 ≡ hand_after name self }
    {
        match self {
            Worked::Split(kind, count) => (
                Node::Branch(Branch::new(kind, count)),
                Hand::Children(Brood::of(name, count)),
            ),
            Worked::Closed(leaf) => (Node::Leaf(leaf), Hand::Empty),
            Worked::Found(leaf, delay) => (Node::Leaf(leaf), Hand::Value(delay)),
        }
    }
}
