//! Why are there no tables of a cycle?

ghost use Rattle.std.specs.Prelude.{◌≡◌};
ghost use Rattle.endless_schedules.specs.declared.fault.TableFault.TheVariants.{Memory};

use std::alloc::{AllocError, AllocFailed};
use ttp_model::{MemoryFault, Part};

/// Why the tables of a cycle aren't made.
#[derive(Clone, Copy)]
pub enum TableFault {
    /// When one of its lists would be longer than that of any instance.
    TooMany(Part),
    /// When memory was wanted, and refused.
    Memory,
}

impl From<MemoryFault> for TableFault {
    ghost from_gives = { λ _ e. e ≡ Memory };

    fn from(_fault: MemoryFault) -> TableFault {
        TableFault::Memory
    }
}

impl From<AllocError> for TableFault {
    ghost from_gives = { λ _ e. e ≡ Memory };

    fn from(_error: AllocError) -> TableFault {
        TableFault::Memory
    }
}

impl<T: Drop> From<AllocFailed<T>> for TableFault {
    ghost from_gives = { λ _ e. e ≡ Memory };

    fn from(_error: AllocFailed<T>) -> TableFault {
        TableFault::Memory
    }
}
