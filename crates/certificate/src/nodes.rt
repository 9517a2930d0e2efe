//! Which node stands in the next lines?

ghost use Rattle.std.specs.Prelude.{◌≡◌, ◌+◌, ◌<◌, ◌≤◌, ◌^◌, ◌∷◌, ◌++◌, [], ℕ, List, Option, reverse, length, IfOk, IfErr, IfSome, IfNone, OnOk};
ghost use Rattle.certificate.specs.Words.{count_of, node_of_head};
ghost use Rattle.certificate.specs.Limits.{most_branches_above};
ghost use Rattle.certificate.specs.Lines.{node_lines};
ghost use Rattle.certificate.specs.Reading.{text_step, steps_at, text_node};
ghost use Rattle.certificate.specs.Sources.{Origin, Says, IsFaultOn, OrMemory};
ghost use Rattle.certificate.specs.Opened.{still_due, IsNext, TakesChild, IsRestFault};

use crate::fault::{LineFault, SourceFault};
use crate::head::{Head, head_in};
use crate::limits::MOST_BRANCHES_ABOVE;
use crate::node::Node;
use crate::source::LineSource;
use crate::steps::step_in;
use crate::version::Version;
use std::alloc::Global;
use ttp_model::{Leaf, Step, Steps};

/// The step in the next line of a text of this version.
fn step_of<L: LineSource>(
    alloc: Global,
    version: Version,
    source: &mut L,
) -> Result<Step, SourceFault>
    ensures said { IfOk result (Says (L.may_leave source.old) (L.may_leave source.new) (text_step version (L.passed source.old + 1))) }
    ensures passed { OnOk result (L.passed source.new ≡ L.passed source.old + 1) }
    ensures err { IfErr result (IsFaultOn (OrMemory (L.may_stop source.new)) (L.may_leave source.old) (text_step version (L.passed source.old + 1))) }
    ensures from { (origin : Origin) → L.may_be_from source.old origin → L.may_be_from source.new origin }
{
    let number = source.number();
    source.next_line()?;
    let step = step_in(alloc, version, number, source.line())?;
    Ok(step)
}

/// So many steps, one in each of the next lines, in this room.
pub fn steps_of<L: LineSource>(
    alloc: Global,
    version: Version,
    room: Vec<Step>,
    count: u32,
    source: &mut L,
) -> Result<Vec<Step>, SourceFault>
    ensures said { IfOk result (λ steps. Says (L.may_leave source.old) (L.may_leave source.new) (steps_at version count (L.passed source.old + 1)) steps.items) }
    ensures count { IfOk result (λ steps. length steps.items ≡ count) }
    ensures passed { OnOk result (L.passed source.new ≡ L.passed source.old + count) }
    ensures err { IfErr result (IsFaultOn (OrMemory (L.may_stop source.new)) (L.may_leave source.old) (steps_at version count (L.passed source.old + 1))) }
    ensures from { (origin : Origin) → L.may_be_from source.old origin → L.may_be_from source.new origin }
{
    let mut steps = room;
    steps.clear();
    for k in 0..count {
        let step = step_of(alloc, version, source)?;
        steps.push(step)?;
    }
    Ok(steps)
}

/// How many steps follow a node's line.
pub fn count_of(head: Head) -> u32
    ensures { result ≡ count_of head }
{
    match head {
        Head::OfLeaf(_, count) => count,
        _ => 0,
    }
}

fn node_with(head: Head, steps: Vec<Step>) -> Node
    requires { length steps.items < 2 ^ 32 }
    ensures { result ≡ node_of_head head steps.items }
{
    match head {
        Head::OfBranch(branch) => Node::Branch(branch),
        Head::OfLeaf(goal, _) => Node::Leaf(Leaf {
            goal,
            steps: Steps::new(steps),
        }),
    }
}

/// The node in the next lines, which stands below so many branches.
fn node_of<L: LineSource>(
    alloc: Global,
    version: Version,
    above: usize,
    source: &mut L,
) -> Result<Node, SourceFault>
    ensures said { IfOk result (Says (L.may_leave source.old) (L.may_leave source.new) (text_node version above (L.passed source.old + 1))) }
    ensures place { OnOk result (above ≤ most_branches_above) }
    ensures passed { IfOk result (λ node. L.passed source.new ≡ L.passed source.old + node_lines node) }
    ensures err { IfErr result (IsFaultOn (OrMemory (L.may_stop source.new)) (L.may_leave source.old) (text_node version above (L.passed source.old + 1))) }
    ensures from { (origin : Origin) → L.may_be_from source.old origin → L.may_be_from source.new origin }
{
    let number = source.number();
    source.next_line()?;
    let head = head_in(version, number, source.line())?;
    if above > MOST_BRANCHES_ABOVE {
        return Err(SourceFault::Text(LineFault::Depth.at(number)));
    }
    let room = Vec::new(alloc);
    let steps = steps_of(alloc, version, room, count_of(head), source)?;
    Ok(node_with(head, steps))
}

/// Closes the innermost branches that have no child to come. How many the next one out has, or none where all are closed;
/// that one is taken off too.
pub fn take_due(due: &mut Vec<u32>) -> Option<u32>
    ensures some { IfSome result (λ count. (0 < count) × (still_due (reverse due.old.items) ≡ count ∷ reverse due.new.items)) }
    ensures none { IfNone result (still_due (reverse due.old.items) ≡ []) }
{
    'open: while let Some(count) = due.pop() {
        if count > 0 {
            return Some(count);
        }
    }
    None
}

/// The next node of a tree, or none behind the last one, where the text has to end. A stack has for each open branch how
/// many of its children are still to come, and in front of them all whether the tree is.
pub fn next_node<L: LineSource>(
    alloc: Global,
    version: Version,
    source: &mut L,
    due: &mut Vec<u32>,
) -> Result<Option<Node>, SourceFault>
    ensures next { IfOk result (IsNext version (L.may_leave source.old) (L.may_leave source.new) due.old.items due.new.items (L.passed source.old + 1) (L.passed source.new + 1)) }
    ensures due { IfOk result (λ next. IfSome next (TakesChild due.old.items due.new.items)) }
    ensures passed { IfOk result (λ next. IfSome next (λ node. L.passed source.new ≡ L.passed source.old + node_lines node)) }
    ensures few { IfOk result (λ next. IfSome next (λ _. length due.new.items ≤ most_branches_above + 2)) }
    ensures closed { IfOk result (λ next. IfNone next (still_due (reverse due.old.items) ≡ [])) }
    ensures err { IfErr result (IsRestFault version (OrMemory (L.may_stop source.new)) (L.may_leave source.old) due.old.items (L.passed source.old + 1)) }
    ensures from { (origin : Origin) → L.may_be_from source.old origin → L.may_be_from source.new origin }
{
    let Some(count) = take_due(due) else {
        source.end()?;
        return Ok(None);
    };
    let node = node_of(alloc, version, due.as_slice().len(), source)?;
    due.push(count - 1)?;
    due.push(node.children())?;
    Ok(Some(node))
}
