//! Which child of a branch does a decision lead to, and what does a branch need?

ghost use Rattle.std.specs.Prelude.{◌≡◌, ◌<◌, ℕ, IfSome, IsTrue, All, length, slice_index, filter};
ghost use Rattle.std.specs.List.{range_with_len};
ghost use Rattle.ttp_model.specs.Instance.{Instance};
ghost use Rattle.tt_choice.specs.Choice.{Choice};
ghost use Rattle.tt_choice.specs.Changes.{unplaced};
ghost use Rattle.tt_choice.specs.Kinds.{decision_of, is_of_places};
ghost use Rattle.used_decisions.specs.Levels.{has_level};
ghost use Rattle.used_decisions.specs.Turns.{placed_of, nodes_of};
ghost use Rattle.used_decisions.specs.Uses.{HaveMarked};
ghost use Rattle.used_decisions.specs.Children.{is_free, free_nodes};

use crate::levels::Levels;
use crate::path::Path;
use crate::turn::Placed;
use tt_choice::{Decision, decision_at, is_of_places};
use ttp_model::Kind;

/// How many nodes below one aren't placed.
fn free_below(path: &Path, n: u32) -> u32
    ensures { result ≡ length (filter (is_free path.now.turns) (range_with_len 0 n)) }
{
    let mut count = 0;
    for v in 0..n {
        if path.place_of(v).is_none() {
            count += 1;
        }
    }
    count
}

/// Which child of a branch on the next place has this node there, if one has.
fn child_with(path: &Path, n: u32) -> Option<u32>
    ensures { IfSome result (λ k. slice_index (free_nodes path.now) k ≡ n) }
{
    if (n as usize) < path.instance().nodes().len() && path.place_of(n).is_none() {
        Some(free_below(path, n))
    } else {
        None
    }
}

/// This number, where it is that of the child to which a decision leads; a node is that of the child, where it is put next.
fn where_made(kind: Kind, decision: Decision, k: u32, node: Option<u32>) -> Option<u32>
    ensures { IfSome result (λ j. (j ≡ k) × ((i : Instance) (c : Choice)
        → IfSome node (λ n. n ≡ slice_index (unplaced i c) k) → decision ≡ decision_of i c kind k)) }
{
    let made = decision_at(kind, k, node)?;
    if made == decision { Some(k) } else { None }
}

/// Whether a decision leads to the first or the second child.
fn one_of_two(kind: Kind, decision: Decision) -> Option<u32>
    ensures { IfSome result (λ k. (i : Instance) (c : Choice) → decision ≡ decision_of i c kind k) }
{
    if let Some(first) = where_made(kind, decision, 0, None) {
        return Some(first);
    }
    where_made(kind, decision, 1, None)
}

/// Which child of a branch a decision leads to, from 0, if it leads to one.
pub fn child_of(path: &Path, kind: Kind, decision: Decision) -> Option<u32>
    ensures { IfSome result (λ k. (c : Choice) → c.prefix ≡ nodes_of (placed_of path.now.turns)
        → decision ≡ decision_of path.now.instance c kind k) }
{
    match decision {
        Decision::Place(n) => {
            let k = child_with(path, n)?;
            where_made(kind, decision, k, Some(n))
        }
        Decision::Cap(_, k) | Decision::Channel(_, k) => where_made(kind, decision, k, None),
        Decision::Before(_, _) | Decision::AtMost(_, _) | Decision::AtLeast(_, _) => {
            one_of_two(kind, decision)
        }
    }
}

/// Puts in the levels of these nodes.
fn insert_all(placed: &[Placed], levels: &mut Levels)
    ensures { HaveMarked placed.now levels.old levels.new }
{
    for one in placed {
        levels.insert(one.level);
    }
}

/// What a branch uses with what its children do: how many of them take a place depends on all places above.
pub fn used_with(path: &Path, kind: Kind, below: Levels) -> Levels
    ensures kept { (level : ℕ) → IsTrue (has_level below level) → IsTrue (has_level result level) }
    ensures places { IsTrue (is_of_places kind) → All (λ one. one.level < length below → IsTrue (has_level result one.level)) (placed_of path.now.turns) }
{
    let mut used = below;
    if is_of_places(kind) {
        insert_all(path.order(), &mut used);
    }
    used
}
