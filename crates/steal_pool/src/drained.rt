//! What is left of a pool, once all its hands are back?

ghost use Rattle.steal_pool.specs.Hand.{AllWithin, IsClosed};

use crate::account::Searched;
use crate::hand::Hand;
use crate::hands::next_of;
use search_trees::Task;

/// All hands of a pool, whose passes are joined: nobody else can take what is left.
#[derive(Drop)]
pub struct Drained<J: Searched> {
    pub(crate) hands: Vec<Hand<J>>,
    ghost closed: { IsClosed hands.items },
    ghost within: { AllWithin hands.items },
}

impl<J: Searched> Drained<J> {
    ghost use Rattle.std.specs.Prelude.{◌≡◌, ◌∷◌, ◌<◌, IfNone, IfSome, IsPermutation};
    ghost use Rattle.search_trees.specs.Account.{IsBalanced, IsSourced};
    ghost use Rattle.search_trees.specs.Task.{IsTask, Task};
    ghost use Rattle.steal_pool.specs.Drained.{left_there, pushed_there, taken_there};

    /// A task that is still in a deque, by its owner's pop, which was pushed; none once all are empty. Then each task was taken as
    /// often as it was pushed. Takes no memory.
    pub fn next(&mut self) -> Option<Task>
        ensures pushed { pushed_there self.new ≡ pushed_there self.old }
        ensures some { IfSome result (λ t. IsPermutation (taken_there self.new) (t ∷ taken_there self.old)) }
        ensures task { IfSome result (IsTask J.instance) }
        ensures fewer { IfSome result (λ _. left_there self.new < left_there self.old) }
        ensures sourced { IsSourced Task (pushed_there self.old) (taken_there self.old) → IsSourced Task (pushed_there self.new) (taken_there self.new) }
        ensures none { IfNone result (IsBalanced Task (pushed_there self.new) (taken_there self.new)) }
        ensures same { IfNone result (taken_there self.new ≡ taken_there self.old) }
    {
        next_of(&mut self.hands)
    }
}
