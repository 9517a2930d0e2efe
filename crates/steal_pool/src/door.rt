//! How does a worker that doesn't own a deque get at it?
ghost use Rattle.std.specs.Prelude.{◌≡◌, true, false};
ghost use Rattle.crossbeam_deque.specs.Handles.{view, IsPassOf, stealer_deque};

use crate::account::{Searched, Takes, Thief, Ticket};
use crossbeam_deque::Steal;
use search_trees::Task;

/// A stealer of a deque, and a pass for it.
#[derive(Drop)]
pub struct Door<J: Searched> {
    pub(crate) thief: Thief<J>,
    pub(crate) ticket: Ticket,
    pub ghost way: { IsPassOf (stealer_deque thief) ticket },
    pub ghost guest: { (view ticket).owner ≡ false },
    pub ghost live: { (view ticket).live ≡ true },
}

impl<J: Searched> Door<J> {
    ghost use Rattle.std.specs.Prelude.{◌≡◌, [], ◌∷◌, ◌++◌, IfSome, MatchOption};
    ghost use Rattle.search_trees.specs.Task.{IsTask};
    ghost use Rattle.steal_pool.specs.Door.{deque_of, taken_by};

    /// The task at the front, if there was one and nobody else took it.
    pub fn steal(&mut self) -> Option<Task>
        ensures same { deque_of self.new ≡ deque_of self.old }
        ensures taken { MatchOption result (taken_by self.new ≡ taken_by self.old) (λ t. taken_by self.new ≡ taken_by self.old ++ t ∷ []) }
        ensures task { IfSome result (IsTask J.instance) }
    {
        match self.thief.steal_as::<Takes<J>>(&mut self.ticket) {
            Steal::Success(task) => Some(task),
            Steal::Empty | Steal::Retry => None,
        }
    }
}
