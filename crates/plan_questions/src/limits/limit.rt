//! What is answered of some processes that are to end early?

ghost use Rattle.std.specs.Prelude.{◌≡◌};
ghost use Rattle.plan_questions.specs.EndAnswers.{cert_of, tick_of};

use crate::cuts::middle;
use certificate::Cert;
use ttp_model::Plan;

/// How early the last of some processes can end, in ticks, with the certificate of the last search.
#[derive(Drop)]
pub enum EndLimit {
    /// At `end` and not before; the plan does it, and none that does has a smaller delay.
    Least {
        end: u32,
        plan: Plan,
        cert: Cert,
    },
    /// At `end` and not before; the plan does it, and whether another that does has a smaller delay isn't known.
    Reached {
        end: u32,
        plan: Plan,
        cert: Cert,
    },
    /// Not before `low`, and at `high`, as the plan does it.
    Between {
        low: u32,
        high: u32,
        plan: Plan,
        cert: Cert,
    },
    /// Not before `low`; no plan is known.
    Unknown {
        low: u32,
        cert: Cert,
    },
    /// No plan is valid.
    Infeasible {
        cert: Cert,
    },
}

/// By when these processes had to end in the last search, in ticks: none where it was of the instance itself.
pub fn tick_of(limit: &EndLimit) -> Option<u32>
    ensures { result ≡ tick_of limit.now }
{
    match limit {
        EndLimit::Least { end, .. } => Some(*end),
        EndLimit::Reached { end, .. } => Some(*end),
        EndLimit::Between { low, high, .. } => Some(middle(*low, *high)),
        EndLimit::Unknown { .. } => None,
        EndLimit::Infeasible { .. } => None,
    }
}

/// The certificate of the last search.
pub fn cert_of(limit: &EndLimit) -> &Cert
    ensures { result.now ≡ cert_of limit.now }
{
    match limit {
        EndLimit::Least { cert, .. } => cert,
        EndLimit::Reached { cert, .. } => cert,
        EndLimit::Between { cert, .. } => cert,
        EndLimit::Unknown { cert, .. } => cert,
        EndLimit::Infeasible { cert } => cert,
    }
}
