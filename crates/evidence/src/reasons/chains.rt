//! What is told of the chain that makes the path bound?

ghost use Rattle.std.specs.Prelude.{◌≡◌, ℕ, ◌∷◌, IfOk, List, Some};
ghost use Rattle.ttp_model.specs.Chains.{least_transfer};
ghost use Rattle.ttp_model.specs.Instance.{source_of};
ghost use Rattle.ttp_model.specs.Names.{message_name};
ghost use Rattle.plan_reasons.specs.declared.path_lines.PathPart.{PathPart};
ghost use Rattle.plan_reasons.specs.declared.path_lines.Transfer.{Transfer};

use plan_reasons::{PathChain, path_chain_reason};
use std::alloc::Global;
use ttp_model::{Instance, MemoryFault};

/// A message for which the last process waits is told to take all of its ticks.
pub fn all_ticks_of_a_transfer_are_told(
    alloc: Global,
    instance: &Instance,
) -> Result<PathChain<'_>, MemoryFault>
    ensures { IfOk result (λ r. (part : PathPart) (others : List PathPart) (x : Transfer) → r.parts.items ≡ part ∷ others → part.transfer ≡ Some x
        → (m : ℕ) × (x.message.now ≡ message_name instance.now m) × (x.ticks ≡ least_transfer instance.now (source_of instance.now m))) }
{
    path_chain_reason(alloc, instance)
}
