//! What is answered of some processes that are to run longer?

use certificate::Cert;
use ttp_model::Plan;

/// By how much longer some processes may run, all at once, in ticks or in thousandths.
#[derive(Drop)]
pub enum Margin {
    /// By `margin`, as the plan does; with one more there is no plan, as the certificate shows.
    Greatest {
        margin: u32,
        plan: Plan,
        cert: Cert,
    },
    /// By `margin`, as the plan does; of this index is the first process that has no room for one more, whatever the plan.
    Window {
        margin: u32,
        process: usize,
        plan: Plan,
    },
    /// By `low`, as the plan does, and not by more than `high`.
    Between {
        low: u32,
        high: u32,
        plan: Plan,
    },
    /// Not by more than `high`; no plan is known.
    Unknown {
        high: u32,
    },
    /// No plan is valid, as long as they run.
    Never,
}
