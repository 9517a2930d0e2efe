//! How are the hands of a pool joined again, so that what is left can be had?

ghost use Rattle.std.specs.Prelude.{◌≡◌, IsPermutation};
ghost use Rattle.search_trees.specs.Account.{IsSourced};
ghost use Rattle.search_trees.specs.Task.{Task};
ghost use Rattle.steal_pool.specs.Drained.{pushed_there, taken_there};
ghost use Rattle.steal_pool.specs.Hand.{all_pushed, all_taken, IsPool};

use crate::account::Searched;
use crate::drained::Drained;
use crate::hand::Hand;
use crate::hands::{close_at, count_at, last_at};

/// Joins all passes of a pool, given all its hands in order of number. Each task that they took was pushed. Takes no memory, and a
/// step for each two workers.
pub fn drain<J: Searched>(mut hands: Vec<Hand<J>>) -> Drained<J>
    requires { IsPool hands.items }
    ensures pushed { pushed_there result ≡ all_pushed hands.items }
    ensures taken { IsPermutation (taken_there result) (all_taken hands.items) }
    ensures sourced { IsSourced Task (pushed_there result) (taken_there result) }
{
    let count = hands.len();
    for from in 0..count {
        for left in 0..count {
            let Some(door) = last_at(&mut hands, from) else {
                unreachable!()
            };
            close_at(&mut hands, count - 1 - left, door);
        }
    }
    for place in 0..count {
        count_at(&mut hands, place);
    }
    Drained { hands }
}
