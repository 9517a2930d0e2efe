//! Which of two lists goes first, of which the items stand in stretches? The first item that differs decides.

ghost use Rattle.std.specs.Prelude.{◌≡◌, ℕ, List, ◌++◌, length, drop, min};
ghost use Rattle.std.specs.List.{flat_map};
ghost use Rattle.std.specs.Arc.{arc_slice_items};
ghost use Rattle.std.specs.Ordering.{nat_cmp, ordering_then};
ghost use Rattle.std.specs.Cmp.Lexicographic.{slice_cmp};
ghost use Rattle.search_trees.specs.Stretches.{AreWhole};

use std::cmp::Ordering;
use std::sync::ArcSlice;

/// Compares the items of stretches, and a few behind them, with those of a list.
pub fn compare(stretches: &[ArcSlice<u32>], own: &[u32], list: &[u32]) -> Ordering
    ensures { result ≡ slice_cmp nat_cmp (flat_map arc_slice_items stretches.now ++ own.now) list.now }
{
    let mut rest = list;
    for stretch in stretches {
        let items = stretch.as_slice();
        let (front, behind) = rest.split_at(items.len().min(rest.len()));
        let order = items.cmp(&front);
        if order.is_ne() {
            return order;
        }
        rest = behind;
    }
    own.cmp(&rest)
}

/// Compares stretches, each with the one at its place, as far as both lists have them.
pub fn compare_whole(a: &[ArcSlice<u32>], b: &[ArcSlice<u32>]) -> Ordering
    requires a { AreWhole arc_slice_items a.now }
    requires b { AreWhole arc_slice_items b.now }
    ensures { (x y : List ℕ) → slice_cmp nat_cmp (flat_map arc_slice_items a.now ++ x) (flat_map arc_slice_items b.now ++ y)
        ≡ ordering_then result (slice_cmp nat_cmp
        (flat_map arc_slice_items (drop (min (length a.now) (length b.now)) a.now) ++ x)
        (flat_map arc_slice_items (drop (min (length a.now) (length b.now)) b.now) ++ y)) }
{
    let both = a.len().min(b.len());
    for k in 0..both {
        let order = a[k].as_slice().cmp(&b[k].as_slice());
        if order.is_ne() {
            return order;
        }
    }
    Ordering::Equal
}
