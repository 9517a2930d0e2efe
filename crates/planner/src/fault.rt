//! Why does a search not begin with a certificate?

ghost use Rattle.std.specs.Prelude.{◌≡◌};
ghost use Rattle.planner.specs.declared.fault.BeginFault.TheVariants.{OutOfMemory};

use thiserror::Error;
use ttp_model::MemoryFault;

/// Why a search can't go on from a certificate that proves its bound.
#[derive(Clone, Copy, Debug, PartialEq, Eq, Error)]
pub enum BeginFault {
    /// Below the branch on this line of the text, counted from 1, a search could come to more branches one below another than a
    /// certificate may have. None that a search made has one. A line past 18,446,744,073,709,551,615 is told as that.
    #[error("line {line}: a search below this branch could come too deep")]
    TooDeep { line: u64 },
    /// Memory was refused.
    #[error("out of memory")]
    OutOfMemory,
}

impl From<MemoryFault> for BeginFault {
    ghost from_gives = { λ _ e. e ≡ OutOfMemory };

    fn from(_: MemoryFault) -> Self {
        BeginFault::OutOfMemory
    }
}
