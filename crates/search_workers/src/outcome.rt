//! What is asked of a search, and what does it answer?

ghost use Rattle.std.specs.Prelude.{◌≡◌};
ghost use Rattle.search_workers.specs.Workers.{workers_of};
ghost use Rattle.search_workers.specs.declared.outcome.SolveFault.TheVariants as fault;

use crate::found::FoundPlan;
use certificate::Cert;
use thiserror::Error;
use ttp_model::{MemoryFault, Plan};

/// How many workers search at most.
pub const MOST_WORKERS: u32 = 16;

/// How a search is to be done.
#[derive(Clone, Copy)]
pub struct Options {
    /// How many workers search, each in a thread of its own: from 1 to 16, and else the nearer of these.
    pub workers: u32,
    /// How many subtrees are worked at most.
    pub budget: u64,
}

impl Options {
    /// How many workers search.
    pub fn crew(self) -> u32
        ensures { result ≡ workers_of self.workers }
    {
        self.workers.clamp(1, MOST_WORKERS)
    }
}

/// Why a search stopped before it knew the least delay.
#[derive(Clone, Copy, PartialEq, Eq)]
pub enum Why {
    /// As many subtrees were worked as the budget allows.
    Budget,
    /// Memory was refused.
    Memory,
    /// The gate said that it doesn't go on.
    CalledOff,
    /// The best plan takes at most so many ticks more than the bound as the gap allows.
    Gap,
    /// All that a part of a search was to work is done, and what others are to work is open.
    Part,
}

/// What a search found. Delays and bounds are in ticks; each answer has a certificate that shows it.
#[derive(Drop)]
pub enum Outcome {
    /// A plan, settled, whose delay is the least.
    Optimal {
        plan: Plan,
        delay: u64,
        cert: Cert,
    },
    /// No plan is valid.
    Infeasible {
        cert: Cert,
    },
    /// No plan has a delay below `low`; the best plan found, settled, where one was.
    Stopped {
        why: Why,
        low: u32,
        best: Option<FoundPlan>,
        cert: Cert,
    },
}

/// Why a search has no answer.
#[derive(Clone, Copy, Debug, PartialEq, Eq, Error)]
pub enum SolveFault {
    /// Memory was refused before there was anything to answer.
    #[error("out of memory")]
    Memory,
    /// A thread could not be started.
    #[error("a thread could not be started")]
    Thread,
}

impl From<MemoryFault> for SolveFault {
    ghost from_gives = { λ _ e. e ≡ fault.Memory };

    fn from(_: MemoryFault) -> Self {
        SolveFault::Memory
    }
}
