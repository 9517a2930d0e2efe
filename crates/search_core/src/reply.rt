//! What does an event answer?

ghost use Rattle.std.specs.Prelude.{◌≡◌};
ghost use Rattle.search_core.specs.declared.reply.Illegal.TheVariants.{OutOfMemory};

use search_trees::Name;
use std::alloc::{AllocError, AllocFailed};
use thiserror::Error;
use ttp_model::MemoryFault;

/// What an event that was done answers.
#[derive(Drop)]
pub enum Reply {
    /// The name that was taken.
    Name(Name),
    /// The best delay in ticks.
    Best(u32),
    /// Nothing more.
    Done,
}

/// Why an event is refused: the first of these that holds.
#[derive(Clone, Copy, Debug, PartialEq, Eq, Error)]
pub enum Illegal {
    /// A worker that it names isn't there, or steals from itself.
    #[error("no such worker")]
    NoSuchWorker,
    /// The worker's hand isn't as the event needs it.
    #[error("the hand is another")]
    WrongHand,
    /// There is no name to take.
    #[error("the deque is empty")]
    EmptyDeque,
    /// The count of children or the goal doesn't fit.
    #[error("the count or goal doesn't fit")]
    Misfit,
    /// Memory was refused.
    #[error("out of memory")]
    OutOfMemory,
}

impl From<MemoryFault> for Illegal {
    ghost from_gives = { λ _ e. e ≡ OutOfMemory };

    fn from(_: MemoryFault) -> Self {
        Illegal::OutOfMemory
    }
}

impl From<AllocError> for Illegal {
    ghost from_gives = { λ _ e. e ≡ OutOfMemory };

    fn from(_: AllocError) -> Self {
        Illegal::OutOfMemory
    }
}

impl<T: Drop> From<AllocFailed<T>> for Illegal {
    ghost from_gives = { λ _ e. e ≡ OutOfMemory };

    fn from(_: AllocFailed<T>) -> Self {
        Illegal::OutOfMemory
    }
}
