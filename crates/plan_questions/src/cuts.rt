//! With which least number does an instance that is cut by it have a plan, and which?

ghost use Rattle.std.specs.Prelude.{◌≡◌, ◌<◌, ◌-◌, IfOk, MatchOption};
ghost use Rattle.ttp_model.specs.declared.plan.Plan.{Plan};
ghost use Rattle.ttp_model.specs.Instance.{Instance};
ghost use Rattle.ttp_model.specs.Rules.{IsInstance};
ghost use Rattle.ttp_model.specs.Plans.{IsValid};
ghost use Rattle.plan_questions.specs.Searches.{Tells};
ghost use Rattle.plan_questions.specs.Cuts.{Cutting, IsCutting, IsLeastNumber, middle};
ghost use Rattle.plan_questions.specs.Halving.{IsKnown, IsOpenAt};

use crate::asking::Asking;
use crate::sought::{Sought, any_plan};
use certificate::Cert;
use planner::{Gate, SolveFault};
use std::alloc::Global;
use std::marker::Sync;
use std::sync::Wait;
use std::thread::Threads;
use ttp_model::{Instance, MemoryFault, Plan};

/// An instance that is cut by a number: with a greater one it has more plans.
pub trait Cut {
    /// What is known of a value.
    ghost is_sound: { Self → Type 0 };

    /// How it cuts.
    ghost cutting: { Self → Cutting };

    /// A number that no plan is below.
    fn least(&self) -> u32
        ensures { result ≡ (cutting self.now).least };

    /// The greatest number that is asked for: with it there is a plan, if there is one with any.
    fn most(&self) -> u32
        ensures { result ≡ (cutting self.now).most };

    /// The instance with a number.
    fn instance_at(&self, alloc: Global, number: u32) -> Result<Instance, MemoryFault>
        requires sound { is_sound self.now }
        requires rules { IsInstance ((cutting self.now).at number) }
        ensures { IfOk result (λ other. other ≡ (cutting self.now).at number) };

    /// The number by which a plan is measured.
    fn measured(&self, plan: &Plan, number: u32) -> u32
        requires sound { is_sound self.now }
        requires valid { IsValid ((cutting self.now).at number) plan.now }
        ensures { result ≡ (cutting self.now).measure plan.now };
}

/// The least number with which there is a plan.
#[derive(Drop)]
pub enum LeastNumber {
    /// It is `number`, as this plan shows; that it isn't one less shows the certificate, where a search had to tell.
    Exact {
        number: u32,
        plan: Plan,
        below: Option<Cert>,
    },
    /// Not below `low`; with `high` there is this plan. A search half way was stopped, with this certificate.
    Apart {
        low: u32,
        high: u32,
        plan: Plan,
        cert: Cert,
    },
    /// No plan is known: the search with the greatest number was stopped.
    Open {
        cert: Cert,
    },
    /// There is none with the greatest number.
    Never {
        cert: Cert,
    },
}

/// What is known of the least number with which there is a plan.
#[derive(Drop)]
pub struct Known {
    /// With fewer there is no plan.
    pub low: u32,
    /// What shows that there is none with one less, where a search had to tell.
    pub below: Option<Cert>,
    /// With this there is this one.
    pub high: u32,
    pub plan: Plan,
}

/// A number half way, below `high` where that is the greater one.
pub fn middle(low: u32, high: u32) -> u32
    ensures { result ≡ middle low high }
{
    low + high.saturating_sub(low) / 2
}

/// Looks for any plan of the instance with a number.
fn any_at<C: Cut, R: Threads + Wait + Sync, G: Gate + Sync>(
    rt: &R,
    asking: &Asking<'_, G>,
    cut: &C,
    number: u32,
) -> Result<Sought, SolveFault>
    requires sound { C.is_sound cut.now }
    requires rules { IsInstance ((C.cutting cut.now).at number) }
    ensures { IfOk result (Tells ((C.cutting cut.now).at number) asking.now.options) }
{
    let other = cut.instance_at(asking.alloc, number)?;
    any_plan(rt, asking, &other)
}

/// Searches for a plan half way, and learns from what is found; where the search was stopped without a plan, its certificate.
fn narrow<C: Cut, R: Threads + Wait + Sync, G: Gate + Sync>(
    rt: &R,
    asking: &Asking<'_, G>,
    cut: &C,
    known: &mut Known,
) -> Result<Option<Cert>, SolveFault>
    requires sound { C.is_sound cut.now }
    requires cutting { IsCutting (C.cutting cut.now) }
    requires known { IsKnown (C.cutting cut.now) asking.now.options known.old }
    requires apart { known.old.low < known.old.high }
    ensures known { IsKnown (C.cutting cut.now) asking.now.options known.new }
    ensures closer { IfOk result (λ stopped. MatchOption stopped
        (known.new.high - known.new.low < known.old.high - known.old.low)
        (IsOpenAt (C.cutting cut.now) asking.now.options known.new)) }
{
    let number = middle(known.low, known.high);
    match any_at(rt, asking, cut, number)? {
        Sought::Found { plan, .. } => {
            known.high = cut.measured(&plan, number);
            known.plan = plan;
            Ok(None)
        }
        Sought::Absent { cert } => {
            known.low = number + 1;
            known.below = Some(cert);
            Ok(None)
        }
        Sought::Open { cert } => Ok(Some(cert)),
    }
}

/// Halves what is between until nothing is, or a search is stopped without a plan: its certificate.
fn halve<C: Cut, R: Threads + Wait + Sync, G: Gate + Sync>(
    rt: &R,
    asking: &Asking<'_, G>,
    cut: &C,
    known: &mut Known,
) -> Result<Option<Cert>, SolveFault>
    requires sound { C.is_sound cut.now }
    requires cutting { IsCutting (C.cutting cut.now) }
    requires known { IsKnown (C.cutting cut.now) asking.now.options known.old }
    ensures known { IsKnown (C.cutting cut.now) asking.now.options known.new }
    ensures end { IfOk result (λ stopped. MatchOption stopped
        (known.new.low ≡ known.new.high)
        (IsOpenAt (C.cutting cut.now) asking.now.options known.new)) }
{
    'halves: while known.low < known.high {
        let stopped = narrow(rt, asking, cut, known)?;
        if stopped.is_some() {
            return Ok(stopped);
        }
    }
    Ok(None)
}

/// Searches for plans with smaller numbers than one that is known.
fn least_below<C: Cut, R: Threads + Wait + Sync, G: Gate + Sync>(
    rt: &R,
    asking: &Asking<'_, G>,
    cut: &C,
    known: Known,
) -> Result<LeastNumber, SolveFault>
    requires sound { C.is_sound cut.now }
    requires cutting { IsCutting (C.cutting cut.now) }
    requires known { IsKnown (C.cutting cut.now) asking.now.options known }
    ensures { IfOk result (IsLeastNumber (C.cutting cut.now) asking.now.options) }
{
    let mut known = known;
    let stopped = halve(rt, asking, cut, &mut known)?;
    let Known {
        low,
        below,
        high,
        plan,
    } = known;
    match stopped {
        Some(cert) => Ok(LeastNumber::Apart {
            low,
            high,
            plan,
            cert,
        }),
        None => Ok(LeastNumber::Exact {
            number: high,
            plan,
            below,
        }),
    }
}

/// The least number with which there is a plan, and such a plan. Searches first with the greatest number: where there is no plan then,
/// there is none with a smaller one. Else the plan's own measure is enough, and a search half way tells whether less is, and so on.
/// Each search ends at its first plan, and has the whole budget; where one is stopped before that, less is answered.
pub fn least_number<C: Cut, R: Threads + Wait + Sync, G: Gate + Sync>(
    rt: &R,
    asking: &Asking<'_, G>,
    cut: &C,
) -> Result<LeastNumber, SolveFault>
    requires sound { C.is_sound cut.now }
    requires cutting { IsCutting (C.cutting cut.now) }
    ensures { IfOk result (IsLeastNumber (C.cutting cut.now) asking.now.options) }
{
    let most = cut.most();
    match any_at(rt, asking, cut, most)? {
        Sought::Found { plan, .. } => {
            let low = cut.least();
            let high = cut.measured(&plan, most);
            let below = None;
            least_below(
                rt,
                asking,
                cut,
                Known {
                    low,
                    below,
                    high,
                    plan,
                },
            )
        }
        Sought::Absent { cert } => Ok(LeastNumber::Never { cert }),
        Sought::Open { cert } => Ok(LeastNumber::Open { cert }),
    }
}
