//! How are the hands of a pool made, and what does each step on one of them change?
ghost use Rattle.std.specs.Prelude.{◌≡◌, ℕ, ◌<◌, [], ◌∷◌, length, vec_len, Contains, IfOk, OnOk, IfSome, IfNone, MatchOption, IsPermutation};
ghost use mathlib.Core.Option.{some};
ghost use lib.ListN.{get_elem?};
ghost use Rattle.search_trees.specs.Task.{IsTask};
ghost use Rattle.steal_pool.specs.Door.{deque_of};
ghost use Rattle.steal_pool.specs.Hand.{own_deque, IsPool, all_pushed, all_taken, ChangesAt, AddsDoor, OpensDoor, ClosesDoor, PopsTask, PopsNone, CountsOwn, IsClosed, AllWithin};

use crate::account::Searched;
use crate::door::Door;
use crate::hand::Hand;
use search_trees::Task;
use std::alloc::Global;
use ttp_model::{Instance, MemoryFault};

/// A way into the deque of this hand.
fn open_at<J: Searched>(hands: &mut Vec<Hand<J>>, place: usize) -> Result<Door<J>, MemoryFault>
    requires { place < vec_len hands.old }
    ensures len { vec_len hands.new ≡ vec_len hands.old }
    ensures opens { IfOk result (λ d. ChangesAt hands.old.items place (λ g h. OpensDoor g d h) hands.new.items) }
{
    let hand = &mut hands[place];
    match hand.open() {
        Ok(door) => Ok(door),
        Err(error) => Err(error),
    }
}

/// This hand has one way more.
fn add_at<J: Searched>(
    hands: &mut Vec<Hand<J>>,
    place: usize,
    door: Door<J>,
) -> Result<(), MemoryFault>
    requires { place < vec_len hands.old }
    ensures len { vec_len hands.new ≡ vec_len hands.old }
    ensures adds { OnOk result (ChangesAt hands.old.items place (λ g h. AddsDoor g door h) hands.new.items) }
{
    let hand = &mut hands[place];
    hand.doors.push(door)?;
    Ok(())
}

/// The last way of this hand, which it loses.
pub(crate) fn last_at<J: Searched>(hands: &mut Vec<Hand<J>>, place: usize) -> Option<Door<J>>
    requires { place < vec_len hands.old }
    ensures len { vec_len hands.new ≡ vec_len hands.old }
    ensures some { IfSome result (λ d. ChangesAt hands.old.items place (λ g h. AddsDoor h d g) hands.new.items) }
    ensures none { IfNone result ((g : _) → get_elem? hands.old.items place ≡ some g → g.doors.items ≡ []) }
{
    let hand = &mut hands[place];
    match hand.doors.pop() {
        Some(door) => Some(door),
        None => None,
    }
}

/// This hand takes back a way into its deque.
pub(crate) fn close_at<J: Searched>(hands: &mut Vec<Hand<J>>, place: usize, door: Door<J>)
    requires place { place < vec_len hands.old }
    requires leads { (g : _) → get_elem? hands.old.items place ≡ some g → deque_of door ≡ own_deque g }
    ensures len { vec_len hands.new ≡ vec_len hands.old }
    ensures closes { ChangesAt hands.old.items place (λ g h. ClosesDoor g door h) hands.new.items }
{
    let hand = &mut hands[place];
    hand.close(door);
}

/// A hand for each worker, in order of number, none of which has pushed or taken a task. The room for all passes is made
/// here.
pub fn pool<J: Searched>(
    alloc: Global,
    instance: &Instance,
    workers: usize,
) -> Result<Vec<Hand<J>>, MemoryFault>
    requires { instance.now ≡ J.instance }
    ensures len { IfOk result (λ hands. vec_len hands ≡ workers) }
    ensures pool { IfOk result (λ hands. IsPool hands.items) }
    ensures pushed { IfOk result (λ hands. all_pushed hands.items ≡ []) }
    ensures taken { IfOk result (λ hands. all_taken hands.items ≡ []) }
{
    let mut hands = Vec::new(alloc);
    for number in 0..workers {
        hands.push(Hand::fresh(alloc, number, workers)?)?;
    }
    for to in 0..workers {
        for from in 0..workers {
            let door = open_at(&mut hands, from)?;
            add_at(&mut hands, to, door)?;
        }
    }
    Ok(hands)
}

/// The last task of the own deque of this hand.
fn pop_at<J: Searched>(hands: &mut Vec<Hand<J>>, place: usize) -> Option<Task>
    requires { place < vec_len hands.old }
    ensures len { vec_len hands.new ≡ vec_len hands.old }
    ensures some { IfSome result (λ t. ChangesAt hands.old.items place (λ g h. PopsTask g t h) hands.new.items) }
    ensures task { IfSome result (IsTask J.instance) }
    ensures none { IfNone result (ChangesAt hands.old.items place PopsNone hands.new.items) }
{
    let hand = &mut hands[place];
    match hand.pop() {
        Some(task) => Some(task),
        None => None,
    }
}

/// This hand learns how what was taken of its deque compares with what was pushed.
pub(crate) fn count_at<J: Searched>(hands: &mut Vec<Hand<J>>, place: usize)
    requires { place < vec_len hands.old }
    ensures len { vec_len hands.new ≡ vec_len hands.old }
    ensures counts { ChangesAt hands.old.items place CountsOwn hands.new.items }
{
    let hand = &mut hands[place];
    hand.count();
}

/// The last task of the first deque that has one.
pub(crate) fn next_of<J: Searched>(hands: &mut Vec<Hand<J>>) -> Option<Task>
    requires closed { IsClosed hands.old.items }
    requires within { AllWithin hands.old.items }
    ensures closed { IsClosed hands.new.items }
    ensures within { AllWithin hands.new.items }
    ensures pushed { all_pushed hands.new.items ≡ all_pushed hands.old.items }
    ensures some { IfSome result (λ t. IsPermutation (all_taken hands.new.items) (t ∷ all_taken hands.old.items)) }
    ensures source { IfSome result (Contains (all_pushed hands.new.items)) }
    ensures task { IfSome result (IsTask J.instance) }
    ensures none { IfNone result (IsPermutation (all_pushed hands.new.items) (all_taken hands.new.items)) }
    ensures same { IfNone result (all_taken hands.new.items ≡ all_taken hands.old.items) }
{
    for place in 0..hands.len() {
        if let Some(task) = pop_at(hands, place) {
            return Some(task);
        }
    }
    None
}
