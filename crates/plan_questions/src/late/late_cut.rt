//! How is an instance cut by a number of ticks that all may end later?

ghost use Rattle.std.specs.Prelude.{◌≡◌};
ghost use Rattle.ttp_model.specs.Plans.{IsValid};
ghost use Rattle.instance_variants.specs.Later.{later};
ghost use Rattle.instance_variants.specs.Lateness.{lateness};
ghost use Rattle.plan_questions.specs.LateAnswers.{late_cutting};

use crate::cuts::Cut;
use instance_variants::{lateness, with_later};
use std::alloc::Global;
use ttp_model::{Instance, MOST_TICKS, MemoryFault, Plan};

/// An instance that has no plan, in which all may end a number of ticks later.
#[derive(Drop)]
pub struct LateCut<'a> {
    pub instance: &'a Instance,
}

/// By how many ticks a plan is late that is valid where all ends are `x` ticks later.
fn own_lateness(instance: &Instance, plan: &Plan, x: u32) -> u32
    requires { IsValid (later instance.now x) plan.now }
    ensures { result ≡ lateness instance.now plan.now }
{
    lateness(instance, plan) as u32
}

impl<'a> Cut for LateCut<'a> {
    ghost is_sound = { λ s. Unit {0} };

    ghost cutting = { λ s. late_cutting s.instance.now };

    fn least(&self) -> u32 {
        1
    }

    fn most(&self) -> u32 {
        MOST_TICKS
    }

    fn instance_at(&self, alloc: Global, number: u32) -> Result<Instance, MemoryFault> {
        with_later(alloc, self.instance, number)
    }

    fn measured(&self, plan: &Plan, number: u32) -> u32 {
        own_lateness(self.instance, plan, number)
    }
}
