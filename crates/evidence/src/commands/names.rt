//! Which child does a name tell at its place, and which processes are no twins?

ghost use Rattle.std.specs.Prelude.{◌≡◌, IfOk, IsTrue, Some, length};
ghost use Rattle.ttp_model.specs.Graph.{HasLink};

use search_trees::Name;
use std::alloc::Global;
use tt_moves::twins;
use ttp_model::{Instance, MemoryFault};

/// A child's name tells its number behind those of the way to its parent, which has so many.
pub fn child_is_told_behind_its_parent(
    alloc: Global,
    parent: &Name,
    count: usize,
    index: u32,
) -> Result<Option<u32>, MemoryFault>
    requires { count ≡ length parent.now }
    ensures { IfOk result (λ told. told ≡ Some index) }
{
    let name = parent.child(alloc, index)?;
    Ok(name.get(count))
}

/// Two processes of which the second links to the first are no twins.
pub fn linked_processes_are_no_twins(instance: &Instance, p: u32, q: u32) -> bool
    requires { HasLink instance.now q p }
    ensures { ¬ IsTrue result }
{
    twins(instance, p, q)
}
