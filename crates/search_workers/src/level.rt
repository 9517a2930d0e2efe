//! Which of the tasks that are left has the fewest branches above it?

use crate::Task;
use certificate::MOST_BRANCHES_ABOVE;

/// Where the next one is looked for, if the last task takes the place of each that is worked, and its children come behind all.
#[derive(Clone, Copy)]
pub struct Level {
    /// No task has fewer branches above it.
    branches: usize,
    /// Each task before this place has more.
    from: usize,
}

/// The first task from a place on that has at most so many branches above it.
fn first_below(tasks: &[Task], branches: usize, from: usize) -> Option<usize> {
    for at in from..tasks.len() {
        if tasks[at].name().get(branches).is_none() {
            return Some(at);
        }
    }
    None
}

impl Level {
    /// In front of all tasks.
    pub fn top() -> Self {
        Level {
            branches: 0,
            from: 0,
        }
    }

    /// The place of a task with the fewest branches above it, the last one where there is none. Each task is passed once for each number of branches.
    pub fn pick(&mut self, tasks: &[Task]) -> usize {
        for branches in self.branches..MOST_BRANCHES_ABOVE + 1 {
            self.branches = branches;
            if let Some(at) = first_below(tasks, branches, self.from) {
                self.from = at;
                return at;
            }
            self.from = 0;
        }
        tasks.len().saturating_sub(1)
    }
}
