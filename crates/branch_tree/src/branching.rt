//! Which branch of a choice is taken?

ghost use Rattle.std.specs.Prelude.{◌≡◌, ◌<◌, ◌≤◌, length, IfOk, IsTrue, Some};
ghost use Rattle.ttp_model.specs.declared.step.Kind.TheVariants.{Place};
ghost use Rattle.tt_choice.specs.Choice.{IsChoice};
ghost use Rattle.branch_tree.specs.Branching.{MayBranch, Branches};

mod candidate;
mod channels;
mod crowds;
mod empty_halves;
mod layout;
mod orders;
mod overlaps;
mod rest;
mod rounds;

use crate::failures::Failures;
use crate::lessons::Lessons;
use crate::tries::Tries;
use search_trees::Propagator;
use std::alloc::Global;
use tt_choice::Choice;
use tt_infer::Facts;
use ttp_model::{Instance, Kind, MemoryFault};

/// The branch that a search takes, or none where nothing is left to choose: what is taken before the layout, then two
/// processes in one of whose orders no plan is left, where something of the layout is open and such pairs were found lately,
/// then the layout and the rest.
pub fn branch_on(
    alloc: Global,
    instance: &Instance,
    reached: &mut Propagator,
    lessons: &mut Lessons,
    at_root: bool,
) -> Result<Option<Kind>, MemoryFault>
    requires { reached.old.instance ≡ instance.now }
    ensures same { reached.new ≡ reached.old }
    ensures branches { IfOk result (Branches instance.now reached.old.current.facts.choice) }
    ensures root { IfOk result (λ kind. IsTrue at_root → 2 ≤ length instance.now.nodes
        → length reached.old.current.facts.choice.prefix < length instance.now.nodes → kind ≡ Some Place) }
{
    let facts = reached.facts();
    let choice = facts.choice();
    if let Some(kind) = early(instance, choice, facts, at_root) {
        return Ok(Some(kind));
    }
    if !at_root && are_due(instance, choice, &mut lessons.tries) {
        let found = orders::closing_pair(alloc, instance, reached, &mut lessons.tries)?;
        lessons.tries.note(found.is_some());
        if let Some(kind) = found {
            return Ok(Some(kind));
        }
    }
    let facts = reached.facts();
    Ok(late(instance, facts.choice(), facts, &lessons.failures))
}

/// Whether orders of two processes are tried: something of the layout is open, and little of it is decided or tries helped
/// lately.
fn are_due(instance: &Instance, choice: &Choice, tried: &mut Tries) -> bool
    requires { IsChoice instance.now choice.now }
{
    layout::layout(instance, choice).is_some()
        && (layout::decisions(instance, choice) <= 1 || tried.are_due())
}

/// The same without tries: first the layout, as every later decision rests on it, then what conflicts in the plan at hand,
/// then the rest. In the plan at hand each process starts and each message is sent as early as is known. Before the layout
/// come rounds that are ruled out for all subtrees at once.
///
/// At the root of a tree the first node is placed, where there are several.
pub fn branch(
    instance: &Instance,
    choice: &Choice,
    facts: &Facts,
    failures: &Failures,
    at_root: bool,
) -> Option<Kind>
    requires of { IsChoice instance.now choice.now }
    requires facts { facts.now.instance ≡ instance.now }
    ensures branches { Branches instance.now choice.now result }
    ensures root { IsTrue at_root → 2 ≤ length instance.now.nodes
        → length choice.now.prefix < length instance.now.nodes → result ≡ Some Place }
{
    match early(instance, choice, facts, at_root) {
        Some(kind) => Some(kind),
        None => late(instance, choice, facts, failures),
    }
}

/// What is taken before the layout: a node at the root, and rounds that are ruled out for all subtrees.
fn early(instance: &Instance, choice: &Choice, facts: &Facts, at_root: bool) -> Option<Kind>
    requires of { IsChoice instance.now choice.now }
    requires facts { facts.now.instance ≡ instance.now }
    ensures branch { MayBranch instance.now choice.now result }
    ensures root { IsTrue at_root → 2 ≤ length instance.now.nodes
        → length choice.now.prefix < length instance.now.nodes → result ≡ Some Place }
{
    if at_root && instance.nodes().len() > 1 && choice.is_open(instance, &Kind::Place) {
        return Some(Kind::Place);
    }
    if layout::is_bare(instance, choice) {
        return empty_halves::empty_half(instance, choice, facts);
    }
    None
}

/// The layout and what comes after it.
fn late(instance: &Instance, choice: &Choice, facts: &Facts, failures: &Failures) -> Option<Kind>
    requires of { IsChoice instance.now choice.now }
    requires facts { facts.now.instance ≡ instance.now }
    ensures { Branches instance.now choice.now result }
{
    if let Some(kind) = layout::layout(instance, choice) {
        return Some(kind);
    }
    if let Some(kind) = overlaps::tightest_pair(instance, choice, facts) {
        return Some(kind);
    }
    if let Some(kind) = crowds::tightest_round(instance, choice, facts, failures) {
        return Some(kind);
    }
    rest::rest(instance, choice, facts)
}
