//! How is an instance cut by a tick by which some processes have to end?

ghost use Rattle.std.specs.Prelude.{◌≡◌, IfOk};
ghost use Rattle.ttp_model.specs.Rules.{IsInstance};
ghost use Rattle.ttp_model.specs.Plans.{IsValid};
ghost use Rattle.instance_variants.specs.Cut.{cut};
ghost use Rattle.instance_variants.specs.Ends.{AreThere, last_end};
ghost use Rattle.plan_questions.specs.EndAnswers.{end_cutting};

use crate::cuts::Cut;
use instance_variants::{last_end, with_deadlines};
use std::alloc::Global;
use ttp_model::{Instance, MOST_TICKS, MemoryFault, Plan};

/// An instance in which some processes have to end by a tick, which they can't before `low`.
#[derive(Drop)]
pub struct EndCut<'a> {
    pub instance: &'a Instance,
    pub processes: &'a [u32],
    pub low: u32,
}

/// The instance in which these processes have to end by `d`.
fn with_ends(
    alloc: Global,
    instance: &Instance,
    processes: &[u32],
    d: u32,
) -> Result<Instance, MemoryFault>
    requires there { AreThere instance.now processes.now }
    requires rules { IsInstance (cut instance.now processes.now d) }
    ensures { IfOk result (λ other. other ≡ cut instance.now processes.now d) }
{
    with_deadlines(alloc, instance, processes, d)
}

/// When the last of these processes ends in a plan that ends them by `d`.
fn own_end(instance: &Instance, processes: &[u32], plan: &Plan, d: u32) -> u32
    requires there { AreThere instance.now processes.now }
    requires valid { IsValid (cut instance.now processes.now d) plan.now }
    ensures { result ≡ last_end instance.now plan.now processes.now }
{
    last_end(instance, plan, processes) as u32
}

impl<'a> Cut for EndCut<'a> {
    ghost is_sound = { λ s. AreThere s.instance.now s.processes.now };

    ghost cutting = { λ s. end_cutting s.instance.now s.processes.now s.low };

    fn least(&self) -> u32 {
        self.low
    }

    fn most(&self) -> u32 {
        MOST_TICKS
    }

    fn instance_at(&self, alloc: Global, number: u32) -> Result<Instance, MemoryFault> {
        with_ends(alloc, self.instance, self.processes, number)
    }

    fn measured(&self, plan: &Plan, number: u32) -> u32 {
        own_end(self.instance, self.processes, plan, number)
    }
}
