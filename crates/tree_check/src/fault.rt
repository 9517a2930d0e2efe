//! Why does a certificate not prove its bound?

ghost use Rattle.std.specs.Prelude.{◌≡◌};
ghost use Rattle.tree_check.specs.declared.fault.CertFault.TheVariants.{OutOfMemory};

use std::alloc::AllocFailed;
use thiserror::Error;
use ttp_model::MemoryFault;

/// What is wrong with a node of a certificate's tree, at the choice that the path from the root gives.
#[derive(Clone, Copy, Debug, PartialEq, Eq, Error)]
pub enum NodeFault {
    /// A branch has more or fewer children than it leads to choices.
    #[error("the branch has other children than it should")]
    ChildCount,
    /// What a branch decides isn't there, or is decided already.
    #[error("the branch isn't open")]
    NotOpen,
    /// A leaf's goal is below the bound.
    #[error("the leaf's goal is below the bound")]
    LowGoal,
    /// A step of a leaf isn't lawful where it stands.
    #[error("the step is refused")]
    RefusedStep,
    /// A leaf's last step leaves plans.
    #[error("the leaf isn't closed by its last step")]
    NotClosed,
}

/// Why a certificate isn't accepted. Of several reasons the first is told: a bound that is too great,
/// then what comes first in the text.
#[derive(Clone, Copy, Debug, PartialEq, Eq, Error)]
pub enum CertFault {
    /// The bound is more than a tick past the horizon. It stands on line 2 of a text.
    #[error("the bound is past the horizon")]
    LowTooGreat,
    /// Something is wrong at this line of the certificate's text, counted from 1: the node's line, or
    /// the step's for a refused step. A line past 18,446,744,073,709,551,615 is told as that.
    #[error("line {line}: {fault}")]
    At { line: u64, fault: NodeFault },
    /// Memory was refused.
    #[error("out of memory")]
    OutOfMemory,
}

impl From<MemoryFault> for CertFault {
    ghost from_gives = { λ _ e. e ≡ OutOfMemory };

    fn from(_: MemoryFault) -> Self {
        CertFault::OutOfMemory
    }
}

impl<T: Drop> From<AllocFailed<T>> for CertFault {
    ghost from_gives = { λ _ e. e ≡ OutOfMemory };

    fn from(_: AllocFailed<T>) -> Self {
        CertFault::OutOfMemory
    }
}
