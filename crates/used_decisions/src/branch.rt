//! A branch of which some children aren't closed.

ghost use Rattle.std.specs.Prelude.{◌≡◌, ◌<◌, ℕ, IfOk, IsTrue, length, slice_set, true, false, ◌≤◌};
ghost use Rattle.used_decisions.specs.Levels.{has_level};

use crate::levels::Levels;
use std::alloc::Global;
use ttp_model::{Kind, MemoryFault};

/// A branch of which some children aren't closed.
#[derive(Drop)]
pub struct OpenBranch {
    pub kind: Kind,
    pub children: u32,
    /// The children that are closed.
    pub closed: Levels,
    /// The branches above it that those use.
    pub used: Levels,
}

impl OpenBranch {
    /// None of its children is closed; so many branches are above it.
    pub fn of(
        alloc: Global,
        kind: Kind,
        children: u32,
        depth: u32,
    ) -> Result<OpenBranch, MemoryFault>
        ensures kind { IfOk result (λ branch. branch.kind ≡ kind) }
        ensures children { IfOk result (λ branch. branch.children ≡ children) }
        ensures closed { IfOk result (λ branch. (k : ℕ) → has_level branch.closed k ≡ false) }
        ensures wide { IfOk result (λ branch. depth ≤ length branch.used) }
    {
        let closed = Levels::none_of(alloc, children)?;
        let used = Levels::none_of(alloc, depth)?;
        Ok(OpenBranch {
            kind,
            children,
            closed,
            used,
        })
    }

    /// Whether each child is closed.
    pub fn is_closed(&self) -> bool
        ensures { IsTrue result → (k : ℕ) → k < self.now.children → IsTrue (has_level self.now.closed k) }
    {
        for k in 0..self.children {
            if !self.closed.contains(k) {
                return false;
            }
        }
        true
    }
}
