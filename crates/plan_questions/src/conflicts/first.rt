//! Has an instance a plan, and if not, from which constraints on is looked for those that leave none?

ghost use Rattle.std.specs.Prelude.{IfOk};
ghost use Rattle.plan_questions.specs.Conflicts.{IsFirstAnswer};

use super::conflict::{Conflict, begun};
use super::searched::searched;
use super::turning::turn;
use crate::asking::Asking;
use crate::sought::Sought;
use instance_variants::Constraints;
use planner::{Gate, SolveFault};
use std::marker::Sync;
use std::sync::Wait;
use std::thread::Threads;
use ttp_model::{Instance, Plan};

/// What a first search says of why an instance has no plan.
#[derive(Drop)]
pub enum FirstAnswer {
    /// It has one, with this delay in ticks.
    Plan { delay: u64, plan: Plan },
    /// It has none: all its constraints together leave none.
    None { conflict: Conflict },
    /// The search was stopped before it knew whether there is one.
    Unknown,
}

/// Asks whether an instance has a plan. Where it has none, `next_need` leaves constraints out.
pub fn first_answer<R: Threads + Wait + Sync, G: Gate + Sync>(
    rt: &R,
    asking: &Asking<'_, G>,
    instance: &Instance,
) -> Result<FirstAnswer, SolveFault>
    ensures { IfOk result (IsFirstAnswer instance.now asking.now.options) }
{
    let _nodes = instance.nodes();
    let kept = Constraints::of(asking.alloc, instance)?;
    match searched(rt, asking, instance, &kept)? {
        Sought::Found { delay, plan } => Ok(FirstAnswer::Plan { delay, plan }),
        Sought::Open { .. } => Ok(FirstAnswer::Unknown),
        Sought::Absent { cert } => {
            let mut conflict = begun(asking.alloc, kept, cert)?;
            turn(asking.alloc, instance, &mut conflict)?;
            Ok(FirstAnswer::None { conflict })
        }
    }
}
