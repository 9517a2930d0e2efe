//! Which plan did a search find?

ghost use Rattle.std.specs.Prelude.{◌≡◌, IfOk};
ghost use Rattle.ttp_model.specs.Instance.{Instance};
ghost use Rattle.ttp_model.specs.Rules.{IsInstance};
ghost use Rattle.search_workers.specs.Searching.{IsBetter, IsFound};

use std::alloc::Global;
use ttp_model::{MemoryFault, Plan};

/// A plan that a search knows, found or given, with its delay.
#[derive(Drop)]
pub struct FoundPlan {
    pub plan: Plan,
    /// In ticks.
    pub delay: u64,
}

/// The better of two plans, where there is one.
pub fn better(a: Option<FoundPlan>, b: Option<FoundPlan>) -> Option<FoundPlan>
    ensures { (i : Instance) → IsInstance i → IsFound i a → IsFound i b → IsBetter i a b result }
{
    match (a, b) {
        (Some(a), Some(b)) if b.delay < a.delay => Some(b),
        (Some(a), Some(_)) => Some(a),
        (Some(a), None) => Some(a),
        (None, b) => b,
    }
}

/// The same plan in memory of its own.
fn copied_plan(alloc: Global, plan: &Plan) -> Result<Plan, MemoryFault>
    ensures { IfOk result (λ copy. copy ≡ plan.now) }
{
    Ok(Plan {
        order: plan.order.copy(alloc)?,
        caps: plan.caps.copy(alloc)?,
        starts: plan.starts.copy(alloc)?,
        rounds: plan.rounds.copy(alloc)?,
        channels: plan.channels.copy(alloc)?,
    })
}

/// The same of a plan that may have been found.
pub fn copied(alloc: Global, best: &Option<FoundPlan>) -> Result<Option<FoundPlan>, MemoryFault>
    ensures { IfOk result (λ copy. copy ≡ best.now) }
{
    let Some(found) = best else {
        return Ok(None);
    };
    let plan = copied_plan(alloc, &found.plan)?;
    Ok(Some(FoundPlan {
        plan,
        delay: found.delay,
    }))
}
