//! Which figures are told to be different?

ghost use Rattle.std.specs.Prelude.{◌≡◌, ◌≢◌, ℕ, List, ◌++◌, Contains, IfOk, Some, codes, decimal};
ghost use Rattle.plan_format.specs.declared.column.Column.TheVariants.{Start};
ghost use Rattle.plan_changes.specs.Figures.{figure_for, names_of};
ghost use Rattle.plan_changes.specs.Names.{names_of_either};
ghost use Rattle.evidence.specs.Parts.{IsPartOf};

use plan_changes::{Changes, MemoryFault, Planned, changes_of};
use std::alloc::Global;

/// Of a process that starts at another tick the old one is told first, and then the new one.
pub fn starts_before_and_after(
    alloc: Global,
    old: &Planned,
    new: &Planned,
) -> Result<Changes, MemoryFault>
    ensures { (name : List ℕ) (before after : ℕ) → Contains (names_of_either (names_of Start old.now) (names_of Start new.now)) name
        → figure_for Start old.now name ≡ Some before → figure_for Start new.now name ≡ Some after → before ≢ after
        → IfOk result (λ changes. IsPartOf (codes "start " ++ name ++ (codes " " ++ decimal before) ++ (codes " " ++ decimal after) ++ codes "\n")
        changes.text.items) }
{
    changes_of(alloc, old, new)
}
