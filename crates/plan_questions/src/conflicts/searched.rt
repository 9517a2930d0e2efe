//! Is there a plan by some constraints of an instance alone?

ghost use Rattle.std.specs.Prelude.{IfOk};
ghost use Rattle.plan_questions.specs.Searches.{Tells};
ghost use Rattle.instance_variants.specs.Only.{only};

use crate::asking::Asking;
use crate::sought::{Sought, any_plan};
use instance_variants::{Constraints, with_only};
use planner::{Gate, SolveFault};
use std::alloc::Global;
use std::marker::Sync;
use std::sync::Wait;
use std::thread::Threads;
use ttp_model::Instance;

/// Looks for any plan of an instance by these of its constraints alone.
pub fn searched<R: Threads + Wait + Sync, G: Gate + Sync>(
    rt: &R,
    asking: &Asking<'_, G>,
    instance: &Instance,
    constraints: &Constraints,
) -> Result<Sought, SolveFault>
    ensures { IfOk result (Tells (only instance.now constraints.now) asking.now.options) }
{
    let looser = with_only(asking.alloc, instance, constraints)?;
    any_plan(rt, asking, &looser)
}
