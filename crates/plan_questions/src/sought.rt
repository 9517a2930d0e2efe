//! Is there any plan of an instance, and which?

ghost use Rattle.std.specs.Prelude.{◌<◌, IfOk, MatchOption};
ghost use Rattle.planner.specs.Answers.{IsOutcome, Shows};
ghost use Rattle.plan_questions.specs.Searches.{Tells};

use crate::asking::Asking;
use crate::first_plan::FirstPlan;
use certificate::Cert;
use planner::{FoundPlan, Gate, Options, Outcome, SolveFault, solve_with};
use std::alloc::Global;
use std::marker::Sync;
use std::sync::Wait;
use std::thread::Threads;
use ttp_model::{Instance, Plan};

/// How many subtrees are worked before a plan is looked for: with 256 the ten instances of bench/why but for the hardest took a third of the
/// time that they took with none.
const FIRST_TRY: u64 = 256;

/// What a search for any plan tells.
#[derive(Drop)]
pub enum Sought {
    /// A valid plan, with its delay in ticks.
    Found { delay: u64, plan: Plan },
    /// There is none, as the certificate shows.
    Absent { cert: Cert },
    /// The search was stopped, and had found none: the certificate shows how far it got.
    Open { cert: Cert },
}

/// What an answer says of whether there is a plan.
fn told(instance: &Instance, options: Options, outcome: Outcome) -> Sought
    requires answer { IsOutcome instance.now options 0 outcome }
    requires shows { Shows instance.now outcome }
    ensures { Tells instance.now options result }
{
    match outcome {
        Outcome::Optimal { plan, delay, cert } => {
            drop(cert);
            Sought::Found { delay, plan }
        }
        Outcome::Infeasible { cert } => Sought::Absent { cert },
        Outcome::Stopped { best, cert, .. } => match best {
            Some(FoundPlan { plan, delay }) => {
                drop(cert);
                Sought::Found { delay, plan }
            }
            None => Sought::Open { cert },
        },
    }
}

/// What a search with these options says of an instance, which ends with its first plan.
fn searched<R: Threads + Wait + Sync, G: Gate + Sync>(
    rt: &R,
    asking: &Asking<'_, G>,
    instance: &Instance,
    options: Options,
    gate: &FirstPlan<'_, G>,
) -> Result<Sought, SolveFault>
    ensures { IfOk result (Tells instance.now options) }
{
    let outcome = solve_with(rt, asking.alloc, instance, options, gate)?;
    Ok(told(instance, options, outcome))
}

/// Works a few subtrees of an instance, where no plan is looked for before: they may tell whether there is one.
fn tried<R: Threads + Wait + Sync, G: Gate + Sync>(
    rt: &R,
    asking: &Asking<'_, G>,
    instance: &Instance,
) -> Result<Option<Sought>, SolveFault>
    requires { FIRST_TRY < asking.now.options.budget }
    ensures { IfOk result (λ tried. MatchOption tried (Unit {0}) (Tells instance.now asking.now.options)) }
{
    let options = Options {
        budget: FIRST_TRY,
        ..asking.options
    };
    let gate = FirstPlan::of_workers(asking.gate);
    match searched(rt, asking, instance, options, &gate)? {
        Sought::Found { delay, plan } => Ok(Some(Sought::Found { delay, plan })),
        Sought::Absent { cert } => Ok(Some(Sought::Absent { cert })),
        Sought::Open { .. } => Ok(None),
    }
}

/// Looks for any plan of an instance. A few subtrees are worked first, since to look for a plan by small changes takes longer than most answers
/// that there is none. A search ends once it has found a plan: each worker takes no further subtree then.
pub fn any_plan<R: Threads + Wait + Sync, G: Gate + Sync>(
    rt: &R,
    asking: &Asking<'_, G>,
    instance: &Instance,
) -> Result<Sought, SolveFault>
    ensures { IfOk result (Tells instance.now asking.now.options) }
{
    if asking.options.budget > FIRST_TRY {
        if let Some(sought) = tried(rt, asking, instance)? {
            return Ok(sought);
        }
    }
    let gate = FirstPlan::beside(asking.gate);
    searched(rt, asking, instance, asking.options, &gate)
}
