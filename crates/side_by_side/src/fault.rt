//! Why are certificates not joined?

ghost use Rattle.std.specs.Prelude.{◌≡◌};
ghost use Rattle.side_by_side.specs.declared.fault.JoinFault.TheVariants.{OutOfMemory};

use std::alloc::AllocFailed;
use thiserror::Error;
use tree_check::NodeFault;
use ttp_model::MemoryFault;

/// Why certificates aren't joined: the first thing that is wrong with what would stand in their tree.
#[derive(Clone, Copy, Debug, PartialEq, Eq, Error)]
pub enum JoinFault {
    /// Something is wrong with the certificate of this number, from 0, at this line of its text, counted from 1: the node's line, or
    /// the step's for a refused step. A line past 18,446,744,073,709,551,615 is told as that.
    #[error("certificate {certificate}, line {line}: {fault}")]
    At {
        certificate: usize,
        line: u64,
        fault: NodeFault,
    },
    /// Memory was refused.
    #[error("out of memory")]
    OutOfMemory,
}

impl From<MemoryFault> for JoinFault {
    ghost from_gives = { λ _ e. e ≡ OutOfMemory };

    fn from(_: MemoryFault) -> Self {
        JoinFault::OutOfMemory
    }
}

impl<T: Drop> From<AllocFailed<T>> for JoinFault {
    ghost from_gives = { λ _ e. e ≡ OutOfMemory };

    fn from(_: AllocFailed<T>) -> Self {
        JoinFault::OutOfMemory
    }
}
