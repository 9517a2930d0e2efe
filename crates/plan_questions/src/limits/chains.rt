//! Before which tick can some processes not have ended, whatever the plan?

ghost use Rattle.std.specs.Prelude.{◌≡◌, ◌<◌, All, IfOk, length, map, slice_index};
ghost use Rattle.ttp_model.specs.Lists.{greatest};
ghost use Rattle.instance_variants.specs.Ends.{AreThere, IsLowerEnd};
ghost use Rattle.plan_questions.specs.EndAnswers.{IsBehindChains};

use plan_facts::longest_chains;
use std::alloc::Global;
use ttp_model::{Instance, MemoryFault};

/// The greatest of what is said of these processes; 0 where there are none.
fn greatest_of(times: &[u64], processes: &[u32]) -> u64
    requires { All (λ p. p < length times.now) processes.now }
    ensures { result ≡ greatest (map (slice_index times.now) processes.now) }
{
    let mut greatest = 0;
    for p in processes {
        greatest = times[*p as usize].max(greatest);
    }
    greatest
}

/// What the longest chain to any of these processes adds up to: in no valid plan they have all ended before.
pub fn longest_to(alloc: Global, instance: &Instance, processes: &[u32]) -> Result<u32, MemoryFault>
    requires { AreThere instance.now processes.now }
    ensures lower { IfOk result (IsLowerEnd instance.now processes.now) }
    ensures chains { IfOk result (IsBehindChains instance.now processes.now) }
{
    let ends = longest_chains(alloc, instance)?;
    let _nodes = instance.nodes();
    Ok(greatest_of(ends.as_slice(), processes) as u32)
}
