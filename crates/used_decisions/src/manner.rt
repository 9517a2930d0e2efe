//! Is a search plain?

ghost use Rattle.std.specs.Prelude.{◌≡◌, IfOk};
ghost use Rattle.used_decisions.specs.Manners.{usual_manner};

use std::alloc::Global;
use tt_choice::Choice;
use ttp_model::{Instance, MemoryFault};

/// How a search treats what its answer doesn't need.
#[derive(Clone, Copy, PartialEq, Eq)]
pub enum Manner {
    /// It works each subtree and looks for no plan before; its certificate is the tree that was worked.
    Plain,
    /// It leaves subtrees that another one shows to be of no use, and branches of its certificate that nothing needs.
    Sparing,
}

/// How much the root leaves to choose, at most, where a search is plain: such a tree is worked as fast as a plan is found.
const LITTLE: usize = 32;

/// The manner in which an instance is searched: plainly where the root leaves at most 32 to choose, since such a tree is worked
/// as fast as a plan is found, and shows how a search goes.
pub fn usual_manner(alloc: Global, instance: &Instance) -> Result<Manner, MemoryFault>
    ensures { IfOk result (λ manner. manner ≡ usual_manner instance.now) }
{
    let root = Choice::root(alloc, instance)?;
    if root.size_left(instance) <= LITTLE {
        Ok(Manner::Plain)
    } else {
        Ok(Manner::Sparing)
    }
}
