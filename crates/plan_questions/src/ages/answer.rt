//! What is answered of a chain whose age is to be small?

use certificate::Cert;
use ttp_model::Plan;

/// The least age that a chain can have, in ticks.
#[derive(Drop)]
pub enum LeastAge {
    /// It is `age`, as in the plan; with one less there is no plan, as the certificate shows.
    Least { age: u32, plan: Plan, cert: Cert },
    /// It is `age`, as in the plan; `job` is the index of the first process of the instance that has no room by itself with one less.
    Window { age: u32, job: usize, plan: Plan },
    /// Not below `low`, and `high` in the plan.
    Between { low: u32, high: u32, plan: Plan },
    /// Not below `low`; no plan is known.
    Unknown { low: u32 },
    /// No plan is valid.
    Never,
}
