//! Why do pieces give no certificate?

ghost use Rattle.std.specs.Prelude.{◌≡◌};
ghost use Rattle.search_trees.specs.declared.fault.GatherFault.TheVariants.{OutOfMemory};

use thiserror::Error;
use ttp_model::MemoryFault;

/// Why pieces are not the tree of a certificate. Of several reasons the first of this list is told; a
/// want of memory in place of any.
#[derive(Clone, Copy, Debug, PartialEq, Eq, Error)]
pub enum GatherFault {
    /// A name stands at two pieces.
    #[error("a name stands twice")]
    DoubledName,
    /// The root or a child of a branch is missing.
    #[error("the root or a child is missing")]
    MissingName,
    /// A name is not the root's, and no branch has it as a child.
    #[error("a name has no branch above it")]
    StrayName,
    /// A leaf's goal is below the bound.
    #[error("a leaf's goal is below the bound")]
    LowGoal,
    /// Memory was refused.
    #[error("out of memory")]
    OutOfMemory,
}

impl From<MemoryFault> for GatherFault {
    ghost from_gives = { λ _ e. e ≡ OutOfMemory };

    fn from(_: MemoryFault) -> Self {
        GatherFault::OutOfMemory
    }
}
