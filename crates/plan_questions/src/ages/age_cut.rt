//! How is an instance cut by the age that a chain may have?

ghost use Rattle.std.specs.Prelude.{◌≡◌, IfOk, min};
ghost use Rattle.ttp_model.specs.Rules.{IsInstance};
ghost use Rattle.ttp_model.specs.Plans.{IsValid};
ghost use Rattle.rates_model.specs.Rates.{chain_at};
ghost use Rattle.endless_schedules.specs.Aging.{IsAging, aged, own_age};
ghost use Rattle.plan_questions.specs.AgeHalving.{age_cutting};

use crate::cuts::Cut;
use endless_schedules::{Aging, greatest_age, with_age};
use std::alloc::Global;
use ttp_model::{Instance, MemoryFault, Plan};

/// A chain whose age is to be small.
#[derive(Drop)]
pub struct AgeCut<'a> {
    pub aging: &'a Aging<'a>,
    /// An age that no plan is below.
    pub low: u32,
    /// The chain's bound.
    pub most: u32,
}

/// The instance with an age, or with the chain's bound where that is less.
fn with_least(
    alloc: Global,
    aging: &Aging<'_>,
    most: u32,
    number: u32,
) -> Result<Instance, MemoryFault>
    requires aging { IsAging aging.now }
    requires most { most ≡ (chain_at aging.now.rates.now aging.now.chain).age }
    requires rules { IsInstance (aged aging.now.rates.now aging.now.chain (min number most)) }
    ensures { IfOk result (λ other. other ≡ aged aging.now.rates.now aging.now.chain (min number most)) }
{
    with_age(alloc, aging, number.min(most))
}

/// The age of the chain in a plan that is valid with some age.
fn own_age(aging: &Aging<'_>, most: u32, plan: &Plan, number: u32) -> u32
    requires aging { IsAging aging.now }
    requires most { most ≡ (chain_at aging.now.rates.now aging.now.chain).age }
    requires valid { IsValid (aged aging.now.rates.now aging.now.chain (min number most)) plan.now }
    ensures { result ≡ own_age aging.now.rates.now aging.now.chain plan.now }
{
    let _nodes = aging.base.nodes();
    let _chains = aging.rates.chains();
    let chain = aging.rates.chain_at(aging.chain);
    greatest_age(aging.rates, plan, chain, aging.waits.as_slice()) as u32
}

impl<'a> Cut for AgeCut<'a> {
    ghost use Rattle.std.specs.Prelude.{◌≡◌};
    ghost use Rattle.rates_model.specs.Rates.{chain_at};
    ghost use Rattle.endless_schedules.specs.Aging.{IsAging};
    ghost use Rattle.plan_questions.specs.AgeHalving.{age_cutting};

    ghost is_sound = { λ s. IsAging s.aging.now × (s.most ≡ (chain_at s.aging.now.rates.now s.aging.now.chain).age) };

    ghost cutting = { λ s. age_cutting s.aging.now.rates.now s.aging.now.chain s.low s.most };

    fn least(&self) -> u32 {
        self.low
    }

    fn most(&self) -> u32 {
        self.most
    }

    fn instance_at(&self, alloc: Global, number: u32) -> Result<Instance, MemoryFault> {
        with_least(alloc, self.aging, self.most, number)
    }

    fn measured(&self, plan: &Plan, number: u32) -> u32 {
        own_age(self.aging, self.most, plan, number)
    }
}
