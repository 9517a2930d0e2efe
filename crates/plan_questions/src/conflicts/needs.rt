//! Of which constraints that leave no plan is it known that they are needed?

ghost use Rattle.std.specs.Prelude.{◌≡◌, [], All, IfOk, map};
ghost use Rattle.ttp_model.specs.Instance.{Instance};
ghost use Rattle.planner.specs.outcome.Options.{Options};
ghost use Rattle.instance_variants.specs.Constraints.{listed};
ghost use Rattle.plan_questions.specs.Conflicts.{AreMarked, IsMarked, IsNarrowing};

use super::conflict::Conflict;
use instance_variants::{Constraint, Constraints};
use std::alloc::Global;
use ttp_model::MemoryFault;

/// A constraint that leaves no plan with others.
#[derive(Clone, Copy, PartialEq, Eq)]
pub struct Need {
    pub constraint: Constraint,
    /// Whether it is known that there is a plan without it, by the others.
    pub is_shown: bool,
}

/// A constraint, and whether it is among those that are known to be needed.
fn need_of(needed: &[Constraint], constraint: Constraint) -> Need
    ensures constraint { result.constraint ≡ constraint }
    ensures marked { IsMarked needed.now result }
{
    Need {
        constraint,
        is_shown: needed.contains(&constraint),
    }
}

/// The constraints that are kept, and whether each is among those that are known to be needed.
#[tactic(auto, using(crate::proofs::Told::one_more_told))]
fn needs_of(
    alloc: Global,
    kept: &Constraints,
    needed: &[Constraint],
) -> Result<Vec<Need>, MemoryFault>
    ensures all { IfOk result (λ needs. map (λ need. need.constraint) needs.items ≡ listed kept.now) }
    ensures marked { IfOk result (λ needs. All (IsMarked needed.now) needs.items) }
{
    let list = kept.list(alloc)?;
    let mut needs = Vec::new(alloc);
    for constraint in list.as_slice() {
        needs.push(need_of(needed, *constraint))?;
    }
    Ok(needs)
}

/// The constraints that are kept, in the instance's order, and whether each is known to be needed: once all are decided a search without
/// any other was stopped.
pub fn marked(alloc: Global, conflict: &Conflict) -> Result<Vec<Need>, MemoryFault>
    ensures { (i : Instance) (options : Options) → IsNarrowing i options conflict.now → conflict.now.pending.items ≡ []
        → IfOk result (λ needs. AreMarked i options conflict.now.kept conflict.now.needed.items needs.items) }
{
    let needs = needs_of(alloc, &conflict.kept, conflict.needed.as_slice())?;
    Ok(needs)
}
