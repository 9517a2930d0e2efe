//! How is an instance cut by what processes lack of the most for which there is room?

ghost use Rattle.std.specs.Prelude.{◌≡◌, ◌-◌, IfOk};
ghost use Rattle.ttp_model.specs.Rules.{IsInstance};
ghost use Rattle.ttp_model.specs.Plans.{IsValid};
ghost use Rattle.instance_variants.specs.Longer.{longer, own_margin};
ghost use Rattle.plan_questions.specs.MarginAnswers.{margin_cutting};

use crate::cuts::Cut;
use instance_variants::{Scale, own_margin, with_longer};
use std::alloc::Global;
use ttp_model::{Instance, MemoryFault, Plan};

/// An instance in which some processes run longer, by `most` less a number.
#[derive(Drop)]
pub struct MarginCut<'a> {
    pub instance: &'a Instance,
    pub processes: &'a [u32],
    pub scale: Scale,
    pub most: u32,
}

/// The instance in which these processes run longer by `most` less a number.
fn with_lack(
    alloc: Global,
    instance: &Instance,
    processes: &[u32],
    scale: Scale,
    most: u32,
    number: u32,
) -> Result<Instance, MemoryFault>
    requires { IsInstance (longer instance.now processes.now scale (most - number)) }
    ensures { IfOk result (λ other. other ≡ longer instance.now processes.now scale (most - number)) }
{
    let more = most.saturating_sub(number);
    with_longer(alloc, instance, processes, scale, more)
}

/// What the own margin of a plan lacks of `most`.
fn own_lack(
    instance: &Instance,
    processes: &[u32],
    scale: Scale,
    most: u32,
    plan: &Plan,
    number: u32,
) -> u32
    requires { IsValid (longer instance.now processes.now scale (most - number)) plan.now }
    ensures { result ≡ most - own_margin instance.now processes.now scale plan.now most }
{
    most - own_margin(instance, processes, scale, plan, most)
}

impl<'a> Cut for MarginCut<'a> {
    ghost is_sound = { λ s. Unit {0} };

    ghost cutting = { λ s. margin_cutting s.instance.now s.processes.now s.scale s.most };

    fn least(&self) -> u32 {
        0
    }

    fn most(&self) -> u32 {
        self.most
    }

    fn instance_at(&self, alloc: Global, number: u32) -> Result<Instance, MemoryFault> {
        with_lack(
            alloc,
            self.instance,
            self.processes,
            self.scale,
            self.most,
            number,
        )
    }

    fn measured(&self, plan: &Plan, number: u32) -> u32 {
        own_lack(
            self.instance,
            self.processes,
            self.scale,
            self.most,
            plan,
            number,
        )
    }
}
