//! What is answered of an instance that has no plan?

use ttp_model::Plan;

/// How many ticks later all has to end for there to be a plan: the horizon and all deadlines.
#[derive(Drop)]
pub enum Lateness {
    /// `late` ticks, and with fewer there is none.
    Least { late: u32, plan: Plan },
    /// Not fewer than `low`; with `high` there is this plan.
    Between { low: u32, high: u32, plan: Plan },
    /// Not fewer than `low`; no plan is known however late.
    Unknown { low: u32 },
    /// There is none with all ends at `MOST_TICKS`, the latest that an instance can state.
    Never,
}
