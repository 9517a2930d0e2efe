//! What is known of one deque: what it holds and what was taken of it are what was pushed, and all are tasks of one
//! instance.

use crossbeam_deque::protocol::{Join, Lesson, Outcome, Protocol, Split};
use crossbeam_deque::{Pass, Stealer, Worker};
use search_trees::Task;
use std::alloc::Global;
use std::collections::LinkedList;
use std::marker::{Brand, PhantomData};

/// The instance whose tasks a pool holds. It exists in proofs alone, and who makes a pool picks it.
pub trait Searched {
    ghost use Rattle.ttp_model.specs.Instance.{Instance};

    ghost instance: { Instance };
}

impl Searched for Brand {
    ghost use Rattle.steal_pool.specs.Account.{no_instance};

    ghost instance = { no_instance };
}

/// What a pass for a deque knows: the tasks that it pushed and took, and, for the owner's, how many others were made and
/// not yet joined. No value of it is made.
pub struct Tally {
    pub owner: bool,
    pub live: bool,
    pub out: u64,
    pub pushed: LinkedList<Task>,
    pub taken: LinkedList<Task>,
}

/// The rule that a deque keeps.
pub struct Fair<J: Searched> {
    of: PhantomData<J>,
}

impl<J: Searched> Protocol<Task, Tally> for Fair<J> {
    ghost use Rattle.search_trees.specs.Task.{IsTask};
    ghost use Rattle.steal_pool.specs.Account.{Fits, opened, spent};

    ghost holds = { λ items views. Fits (IsTask J.instance) items views };

    ghost first = { opened };

    ghost guest = { spent };
}

/// A task is pushed.
pub struct Pushes;

impl Outcome<Task, Tally> for Pushes {
    ghost use Rattle.steal_pool.specs.Account.{Pushed};

    ghost then = { Pushed };
}

/// A task is popped or stolen.
pub struct Takes<J: Searched> {
    of: PhantomData<J>,
}

impl<J: Searched> Outcome<Task, Tally> for Takes<J> {
    ghost use Rattle.search_trees.specs.Task.{IsTask};
    ghost use Rattle.steal_pool.specs.Account.{Took, IsEmptied};

    ghost then = { λ v tasks w. Took (IsTask J.instance) v tasks w };

    ghost empty = { IsEmptied };
}

/// How many tasks there are is looked at.
pub struct Counts;

impl Lesson<Task, Tally> for Counts {
    ghost use Rattle.steal_pool.specs.Account.{HasSources, IsWithin};

    ghost fact = { λ v _. IsWithin v × HasSources v };
}

/// Passes are made of the owner's, and joined to it.
pub struct Parts;

impl Split<Tally> for Parts {
    ghost use Rattle.steal_pool.specs.Account.{one_more_out, newcomer};

    ghost left = { one_more_out };

    ghost right = { λ _. newcomer };
}

impl Join<Tally> for Parts {
    ghost use Rattle.steal_pool.specs.Account.{taken_in, spent};

    ghost both = { taken_in };

    ghost spent = { spent };
}

/// The end of a deque at which its owner pushes and pops.
pub type Owner<J> = Worker<Task, Global, Tally, Fair<J>>;

/// The end at which the others steal.
pub type Thief<J> = Stealer<Task, Global, Tally, Fair<J>>;

/// A pass for a deque.
pub type Ticket = Pass<Task, Tally>;
