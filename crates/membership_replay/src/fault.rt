//! Why can't a cycle be replayed?

ghost use Rattle.std.specs.Prelude.{◌≡◌};
ghost use Rattle.membership_replay.specs.declared.fault.ReplayFault.TheVariants.{OutOfMemory};

use std::alloc::{AllocError, AllocFailed};
use thiserror::Error;

/// The first thing that is wrong: nodes are judged before losses.
#[derive(Clone, Copy, Debug, PartialEq, Eq, Error)]
pub enum ReplayFault {
    /// When there are fewer than three nodes.
    #[error("fewer than three nodes")]
    TooFewNodes,
    /// When the loss of this index is outside the cycle, or at a node that isn't there or is the
    /// slot's sender, and those before it are not.
    #[error("a loss can not be")]
    WrongLoss(usize),
    /// When memory is refused.
    #[error("out of memory")]
    OutOfMemory,
}

impl From<AllocError> for ReplayFault {
    ghost from_gives = { λ _ e. e ≡ OutOfMemory };

    fn from(_error: AllocError) -> ReplayFault {
        ReplayFault::OutOfMemory
    }
}

impl<T: Drop> From<AllocFailed<T>> for ReplayFault {
    ghost from_gives = { λ _ e. e ≡ OutOfMemory };

    fn from(_error: AllocFailed<T>) -> ReplayFault {
        ReplayFault::OutOfMemory
    }
}
