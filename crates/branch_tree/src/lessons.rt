//! What does a search learn as it goes?

use crate::failures::Failures;
use crate::tries::Tries;
use crate::worked::Worked;
use ttp_model::Instance;

/// What was seen of the subtrees so far, which tells what branches are taken.
#[derive(Drop)]
pub struct Lessons {
    pub tries: Tries,
    pub failures: Failures,
}

impl Lessons {
    /// Nothing was seen yet.
    pub fn none() -> Self {
        Lessons {
            tries: Tries::none(),
            failures: Failures::none(),
        }
    }

    /// Takes note of what became of a subtree.
    pub fn note(&mut self, instance: &Instance, worked: &Worked) {
        if let Worked::Closed(leaf) = worked {
            self.failures.note(instance, leaf);
        }
    }
}
