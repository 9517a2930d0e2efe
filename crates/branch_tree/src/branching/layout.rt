//! What of the layout is open?

ghost use Rattle.std.specs.Prelude.{◌≡◌};
ghost use Rattle.tt_choice.specs.Choice.{IsChoice};
ghost use Rattle.branch_tree.specs.Branching.{MayBranch};

use tt_choice::Choice;
use ttp_model::{Instance, Kind};

/// A free capacity with several options, or which node comes next, where several are left. A branch
/// with one child tells nothing more of the slots, and can wait.
pub fn layout(instance: &Instance, choice: &Choice) -> Option<Kind>
    requires { IsChoice instance.now choice.now }
    ensures { MayBranch instance.now choice.now result }
{
    let count = instance.nodes().len() as u32;
    for n in 0..count {
        let kind = Kind::Cap(n);
        if choice.is_open(instance, &kind) && has_options(instance, n) {
            return Some(kind);
        }
    }
    if choice.prefix().len() + 1 < instance.nodes().len() {
        return Some(Kind::Place);
    }
    None
}

/// Whether nothing of the layout is chosen but the node that comes first.
pub fn is_bare(instance: &Instance, choice: &Choice) -> bool
    requires { IsChoice instance.now choice.now }
{
    let count = instance.nodes().len() as u32;
    for n in 0..count {
        if has_options(instance, n) && choice.fixed_cap(n).is_some() {
            return false;
        }
    }
    choice.prefix().len() < 2
}

/// How many decisions on the layout stand, of those that had several options.
pub fn decisions(instance: &Instance, choice: &Choice) -> usize
    requires { IsChoice instance.now choice.now }
{
    let count = instance.nodes().len() as u32;
    let mut fixed = 0usize;
    for n in 0..count {
        if has_options(instance, n) && choice.fixed_cap(n).is_some() {
            fixed = fixed.saturating_add(1);
        }
    }
    choice.prefix().len().saturating_add(fixed)
}

/// Whether node `n` has several capacities to choose from.
fn has_options(instance: &Instance, n: u32) -> bool {
    let nodes = instance.nodes();
    (n as usize) < nodes.len() && nodes[n as usize].capacities.len() > 1
}
