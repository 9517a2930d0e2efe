//! How early can the last of some processes end, and which plan does it?

ghost use Rattle.std.specs.Prelude.{◌≡◌, ◌≤◌, ◌⊎◌, IfOk};
ghost use Rattle.ttp_model.specs.Plans.{IsValid};
ghost use Rattle.ttp_model.specs.Delays.{delay};
ghost use Rattle.planner.specs.Answers.{IsOutcome, Shows};
ghost use Rattle.instance_variants.specs.Cut.{CanEndBy, cut};
ghost use Rattle.instance_variants.specs.Ends.{AreThere, IsLowerEnd};
ghost use Rattle.plan_questions.specs.EndAnswers.{EndsAt, IsEndLimit};

use super::chains::longest_to;
use super::end_cut::EndCut;
use super::limit::EndLimit;
use crate::asking::Asking;
use crate::cuts::{LeastNumber, least_number};
use instance_variants::with_deadlines;
use planner::{Gate, Options, Outcome, SolveFault, solve_with};
use std::alloc::Global;
use std::marker::Sync;
use std::sync::Wait;
use std::thread::Threads;
use ttp_model::{Instance, Plan, delay};

/// Searches for the plan of the least delay among those that end these processes by `end`.
fn shortest_by<R: Threads + Wait + Sync, G: Gate + Sync>(
    rt: &R,
    asking: &Asking<'_, G>,
    instance: &Instance,
    processes: &[u32],
    end: u32,
) -> Result<Outcome, SolveFault>
    requires { CanEndBy instance.now processes.now end }
    ensures answer { IfOk result (IsOutcome (cut instance.now processes.now end) asking.now.options 0) }
    ensures shows { IfOk result (Shows (cut instance.now processes.now end)) }
{
    let earlier = with_deadlines(asking.alloc, instance, processes, end)?;
    solve_with(rt, asking.alloc, &earlier, asking.options, asking.gate)
}

/// The plan of the smaller delay: the first where these are the same.
fn shorter(instance: &Instance, plan: Plan, other: Plan) -> Plan
    requires plan { IsValid instance.now plan }
    requires other { IsValid instance.now other }
    ensures one { (result ≡ plan) ⊎ (result ≡ other) }
    ensures first { delay instance.now result ≤ delay instance.now plan }
    ensures second { delay instance.now result ≤ delay instance.now other }
{
    if delay(instance, &other) < delay(instance, &plan) {
        other
    } else {
        plan
    }
}

/// What the last search says, once the least end is known.
fn told(
    instance: &Instance,
    processes: &[u32],
    options: Options,
    end: u32,
    plan: Plan,
    outcome: Outcome,
) -> EndLimit
    requires there { AreThere instance.now processes.now }
    requires ends { EndsAt instance.now processes.now plan end }
    requires lower { IsLowerEnd instance.now processes.now end }
    requires answer { IsOutcome (cut instance.now processes.now end) options 0 outcome }
    requires shows { Shows (cut instance.now processes.now end) outcome }
    ensures { IsEndLimit instance.now processes.now options result }
{
    match outcome {
        Outcome::Optimal { plan, cert, .. } => EndLimit::Least { end, plan, cert },
        Outcome::Infeasible { .. } => unreachable!(),
        Outcome::Stopped { best, cert, .. } => match best {
            Some(other) => {
                let plan = shorter(instance, plan, other.plan);
                EndLimit::Reached { end, plan, cert }
            }
            None => EndLimit::Reached { end, plan, cert },
        },
    }
}

/// How early the last of these processes can end, and of the plans that do it one of the least delay. Searches first for any plan,
/// then for one that ends them half way between what its end is and the longest chain to them, and so on; each of these searches
/// ends at its first plan, and the last one is for the shortest. Each has the whole budget. Where one is stopped without a plan
/// less is answered; where the last one is, the end is still the least.
pub fn least_end<R: Threads + Wait + Sync, G: Gate + Sync>(
    rt: &R,
    asking: &Asking<'_, G>,
    instance: &Instance,
    processes: &[u32],
) -> Result<EndLimit, SolveFault>
    requires { AreThere instance.now processes.now }
    ensures { IfOk result (IsEndLimit instance.now processes.now asking.now.options) }
{
    let _nodes = instance.nodes();
    let low = longest_to(asking.alloc, instance, processes)?;
    let cut = EndCut {
        instance,
        processes,
        low,
    };
    let least = least_number(rt, asking, &cut)?;
    match least {
        LeastNumber::Exact {
            number: end,
            plan,
            ..
        } => {
            let outcome = shortest_by(rt, asking, instance, processes, end)?;
            Ok(told(instance, processes, asking.options, end, plan, outcome))
        }
        LeastNumber::Apart {
            low,
            high,
            plan,
            cert,
        } => Ok(EndLimit::Between {
            low,
            high,
            plan,
            cert,
        }),
        LeastNumber::Open { cert } => Ok(EndLimit::Unknown { low, cert }),
        LeastNumber::Never { cert } => Ok(EndLimit::Infeasible { cert }),
    }
}
