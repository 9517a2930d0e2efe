//! Steps that are appended, and steps in memory of their own.

ghost use Rattle.std.specs.Prelude.{◌≡◌, ◌++◌, ◌∷◌, [], IfOk, OnOk, OnErr};

use std::alloc::Global;
use ttp_model::{MemoryFault, Step};

/// Appends a step.
pub fn add(steps: &mut Vec<Step>, step: Step) -> Result<(), MemoryFault>
    ensures { OnOk result (steps.new.items ≡ steps.old.items ++ step ∷ []) }
{
    steps.push(step)?;
    Ok(())
}

/// Appends the same step in memory of its own, which is taken for its place and for the processes of a cycle. Nothing is
/// appended where it is refused.
pub fn push_copy(alloc: Global, steps: &mut Vec<Step>, step: &Step) -> Result<(), MemoryFault>
    ensures ok { OnOk result (steps.new.items ≡ steps.old.items ++ step.now ∷ []) }
    ensures err { OnErr result (steps.new.items ≡ steps.old.items) }
{
    steps.try_reserve(1)?;
    let copy = step.copied(alloc)?;
    steps.push_reserved(copy);
    Ok(())
}

/// The same steps in memory of their own.
pub fn all_copied(alloc: Global, steps: &[Step]) -> Result<Vec<Step>, MemoryFault>
    ensures { IfOk result (λ copies. copies.items ≡ steps.now) }
{
    let mut copies = Vec::with_capacity(alloc, steps.len())?;
    push_copies(alloc, &mut copies, steps)?;
    Ok(copies)
}

/// Appends the same steps in memory of their own. After a refusal some are appended.
pub fn push_copies(alloc: Global, copies: &mut Vec<Step>, steps: &[Step]) -> Result<(), MemoryFault>
    ensures { OnOk result (copies.new.items ≡ copies.old.items ++ steps.now) }
{
    for step in steps {
        push_copy(alloc, copies, step)?;
    }
    Ok(())
}
