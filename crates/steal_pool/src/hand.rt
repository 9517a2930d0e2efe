//! What does a worker push and take with?
ghost use Rattle.std.specs.Prelude.{◌≡◌, true};
ghost use Rattle.crossbeam_deque.specs.Handles.{worker_view, worker_flavor};

use crate::account::{Counts, Owner, Parts, Pushes, Searched, Takes};
use crate::door::Door;
use search_trees::Task;
use std::alloc::Global;
use ttp_model::MemoryFault;

/// What a worker pushes and takes with: the owner's end of its own deque, and a way into each deque of the pool.
#[derive(Drop)]
pub struct Hand<J: Searched> {
    pub(crate) number: usize,
    pub(crate) own: Owner<J>,
    pub(crate) doors: Vec<Door<J>>,
    pub ghost owner: { (worker_view own).owner ≡ true },
    pub ghost live: { (worker_view own).live ≡ true },
    pub ghost stack: { worker_flavor own ≡ 1 },
}

impl<J: Searched> Hand<J> {
    ghost use Rattle.std.specs.Prelude.{◌≡◌, ◌+◌, ◌-◌, [], ◌∷◌, ◌++◌, IfOk, OnOk, IfErr, IfSome, IfNone, OnErr, IsPermutation, vec_len, vec_capacity, ◌<◌, ◌≤◌};
    ghost use Rattle.search_trees.specs.Task.{IsTask};
    ghost use Rattle.steal_pool.specs.Hand.{pushed, taken, own_taken, own_deque, out_count, IsSameHand, IsFresh, OpensDoor, ClosesDoor, CountsOwn, HasSources, IsWithin, BalancesAlone};
    ghost use Rattle.steal_pool.specs.Door.{deque_of, taken_by, deques_of};

    /// The place of the hand in its pool.
    pub fn number(&self) -> usize
        ensures { result ≡ self.now.number }
    {
        self.number
    }

    /// A hand with no way into any deque, and room for so many.
    pub(crate) fn fresh(
        alloc: Global,
        number: usize,
        workers: usize,
    ) -> Result<Hand<J>, MemoryFault>
        ensures { IfOk result (λ h. IsFresh number h × (workers ≤ vec_capacity h.doors)) }
    {
        let doors = Vec::with_capacity(alloc, workers)?;
        let own = Owner::<J>::lifo_as(alloc, 16)?;
        Ok(Hand { number, own, doors })
    }

    /// A way into the own deque, for any hand.
    pub(crate) fn open(&mut self) -> Result<Door<J>, MemoryFault>
        ensures { IfOk result (λ d. OpensDoor self.old d self.new) }
    {
        let thief = self.own.stealer()?;
        let ticket = self.own.another::<Parts>();
        Ok(Door { thief, ticket })
    }

    /// Takes in what was taken through a way into the own deque.
    pub(crate) fn close(&mut self, door: Door<J>)
        requires { deque_of door ≡ own_deque self.old }
        ensures { ClosesDoor self.old door self.new }
    {
        let Door { thief: _, ticket } = door;
        self.own.absorb::<Parts>(ticket);
    }

    /// Adds a task to the back of the own deque. Where that has to grow and memory is refused, or where it is as large as it
    /// can be, the task comes back. It never waits.
    pub fn push(&mut self, task: Task) -> Result<(), (Task, MemoryFault)>
        requires { IsTask J.instance task }
        ensures same { IsSameHand self.old self.new }
        ensures taken { taken self.new ≡ taken self.old }
        ensures ok { OnOk result (pushed self.new ≡ pushed self.old ++ task ∷ []) }
        ensures err { IfErr result (λ e. (e.0 ≡ task) × (pushed self.new ≡ pushed self.old)) }
    {
        match self.own.push_as::<Pushes>(task) {
            Ok(()) => Ok(()),
            Err(task) => Err((task, MemoryFault)),
        }
    }

    /// The last task of the own deque.
    pub(crate) fn pop(&mut self) -> Option<Task>
        ensures same { IsSameHand self.old self.new }
        ensures doors { self.new.doors.items ≡ self.old.doors.items }
        ensures pushed { pushed self.new ≡ pushed self.old }
        ensures some { IfSome result (λ t. IsPermutation (taken self.new) (t ∷ taken self.old)) }
        ensures task { IfSome result (IsTask J.instance) }
        ensures within { IfSome result (λ _. out_count self.new ≡ 0 → IsWithin self.new) }
        ensures sources { IfSome result (λ _. out_count self.new ≡ 0 → HasSources self.new) }
        ensures none { IfNone result ((taken self.new ≡ taken self.old) × (own_taken self.new ≡ own_taken self.old) × BalancesAlone self.new) }
    {
        self.own.pop_as::<Takes<J>>()
    }

    /// Learns how what was taken compares with what was pushed.
    pub(crate) fn count(&mut self)
        ensures { CountsOwn self.old self.new }
    {
        self.own.len_as::<Counts>();
    }

    /// A task of the deque at this place.
    fn steal_at(&mut self, place: usize) -> Option<Task>
        requires { place < vec_len self.old.doors }
        ensures same { IsSameHand self.old self.new }
        ensures pushed { pushed self.new ≡ pushed self.old }
        ensures some { IfSome result (λ t. IsPermutation (taken self.new) (t ∷ taken self.old)) }
        ensures task { IfSome result (IsTask J.instance) }
        ensures none { IfNone result (taken self.new ≡ taken self.old) }
    {
        let door = &mut self.doors[place];
        door.steal()
    }

    /// A task of another deque.
    fn steal(&mut self) -> Option<Task>
        ensures same { IsSameHand self.old self.new }
        ensures pushed { pushed self.new ≡ pushed self.old }
        ensures some { IfSome result (λ t. IsPermutation (taken self.new) (t ∷ taken self.old)) }
        ensures task { IfSome result (IsTask J.instance) }
        ensures none { IfNone result (taken self.new ≡ taken self.old) }
    {
        for place in 0..self.doors.len() {
            if place != self.number {
                if let Some(task) = self.steal_at(place) {
                    return Some(task);
                }
            }
        }
        None
    }

    /// A task: the last of the own deque, or else the first of another one. Each is looked at once, and where somebody else
    /// is at it, it counts as empty. Takes no memory, and never waits.
    pub fn take(&mut self) -> Option<Task>
        ensures same { IsSameHand self.old self.new }
        ensures pushed { pushed self.new ≡ pushed self.old }
        ensures some { IfSome result (λ t. IsPermutation (taken self.new) (t ∷ taken self.old)) }
        ensures task { IfSome result (IsTask J.instance) }
        ensures none { IfNone result (taken self.new ≡ taken self.old) }
    {
        match self.pop() {
            Some(task) => Some(task),
            None => self.steal(),
        }
    }
}
