//! Which of the open leaves of a certificate does a part work, and which stay as they are?

ghost use Rattle.std.specs.Prelude.{◌≡◌, ◌≤◌, ◌<◌, ◌+◌, ◌++◌, ◌∷◌, [], List, IfOk, length, true, vec_len, vec_capacity};
ghost use Rattle.search_workers.specs.piece.Piece.{Piece};
ghost use Rattle.search_workers.specs.Task.{Task};
ghost use Rattle.planner.specs.Parts.{is_own, Deals, IsDealt, IsPartOf, IsPortion};

use crate::begun::Begun;
use search_workers::{Piece, Search, Task};
use std::alloc::Global;
use ttp_model::{MemoryFault, has_flag};

/// The open leaves whose number, counted in preorder from 0, is `number` modulo `count`.
#[derive(Clone, Copy)]
pub struct Portion {
    pub number: u32,
    pub count: u32,
}

/// A search of what a part works, and what is left beside it.
#[derive(Drop)]
pub struct Dealt {
    pub search: Search,
    /// The tasks that aren't worked.
    pub aside: Vec<Task>,
    /// The certificate's leaf of each of them.
    pub others: Vec<Piece>,
}

impl Portion {
    /// Whether an open leaf with this number is its own.
    fn has(self, number: usize) -> bool
        requires { IsPortion self }
        ensures { result ≡ is_own self number }
    {
        number as u64 % u64::from(self.count) == u64::from(self.number)
    }

    /// Whether it works an open leaf with this number.
    fn works(self, spared: &[bool], number: usize) -> bool
        requires { IsPortion self }
        ensures { result ≡ true → is_own self number ≡ true }
    {
        self.has(number) && !has_flag(spared, number)
    }

    /// Puts a task among those that are worked, or aside with the leaf where it stands, behind those that came before.
    fn put(
        self,
        spared: &[bool],
        number: usize,
        task: Task,
        leaf: Piece,
        own: &mut Vec<Task>,
        aside: &mut Vec<Task>,
        others: &mut Vec<Piece>,
    )
        requires part { IsPortion self }
        requires own { vec_len own.old < vec_capacity own.old }
        requires aside { vec_len aside.old < vec_capacity aside.old }
        requires others { vec_len others.old < vec_capacity others.old }
        ensures deals { (tasks : List Task) (leaves : List Piece) (front : List Task) (before : List Piece) → number ≡ length front
            → Deals self tasks leaves (front ++ task ∷ []) (before ++ leaf ∷ []) own.old.items aside.old.items others.old.items
            → Deals self tasks leaves front before own.new.items aside.new.items others.new.items }
        ensures own { (vec_len own.new ≤ vec_len own.old + 1) × (vec_capacity own.new ≡ vec_capacity own.old) }
        ensures aside { (vec_len aside.new ≤ vec_len aside.old + 1) × (vec_capacity aside.new ≡ vec_capacity aside.old) }
        ensures others { (vec_len others.new ≤ vec_len others.old + 1) × (vec_capacity others.new ≡ vec_capacity others.old) }
    {
        if self.works(spared, number) {
            own.push_reserved(task);
        } else {
            aside.push_reserved(task);
            others.push_reserved(leaf);
        }
    }

    /// Deals out tasks and the leaves where they stand, the last first, in the room that there is.
    fn deal_out(
        self,
        spared: &[bool],
        tasks: &mut Vec<Task>,
        leaves: &mut Vec<Piece>,
        own: &mut Vec<Task>,
        aside: &mut Vec<Task>,
        others: &mut Vec<Piece>,
    )
        requires part { IsPortion self }
        requires many { length tasks.old.items ≡ length leaves.old.items }
        requires own { (own.old.items ≡ []) × (vec_len own.old + vec_len tasks.old ≤ vec_capacity own.old) }
        requires aside { (aside.old.items ≡ []) × (vec_len aside.old + vec_len tasks.old ≤ vec_capacity aside.old) }
        requires others { (others.old.items ≡ []) × (vec_len others.old + vec_len tasks.old ≤ vec_capacity others.old) }
        ensures { IsDealt self tasks.old.items leaves.old.items own.new.items aside.new.items others.new.items }
    {
        for _dealt in 0..tasks.len() {
            match (tasks.pop(), leaves.pop()) {
                (Some(task), Some(leaf)) => {
                    self.put(spared, tasks.len(), task, leaf, own, aside, others)
                }
                _ => unreachable!(),
            }
        }
    }
}

/// What a part works of a search that goes on from a certificate: its own tasks, but for those with a flag by the number of their leaf. All others are
/// set aside, and the certificate's leaf of each stays.
pub fn part_of(
    alloc: Global,
    begun: Begun,
    part: Portion,
    spared: &[bool],
) -> Result<Dealt, MemoryFault>
    requires part { IsPortion part }
    requires many { length begun.search.tasks.items ≡ length begun.leaves.items }
    ensures { IfOk result (IsPartOf part begun) }
{
    let Begun { search, leaves } = begun;
    let (mut search, mut leaves) = (search, leaves);
    let count = search.tasks.len();
    let mut own = Vec::with_capacity(alloc, count)?;
    let mut aside = Vec::with_capacity(alloc, count)?;
    let mut others = Vec::with_capacity(alloc, count)?;
    let tasks = &mut search.tasks;
    part.deal_out(
        spared,
        tasks,
        &mut leaves,
        &mut own,
        &mut aside,
        &mut others,
    );
    search.tasks = own;
    Ok(Dealt {
        search,
        aside,
        others,
    })
}
