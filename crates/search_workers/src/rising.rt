//! Which task is worked next, where the bound of a search is to rise?

ghost use Rattle.std.specs.Prelude.{◌≡◌, All};
ghost use Rattle.ttp_model.specs.Instance.{Instance};
ghost use Rattle.search_workers.specs.Task.{IsTask};
ghost use Rattle.search_workers.specs.Workbench.{IsWorkbenchOf};

use crate::level::Level;
use crate::site::Site;
use crate::{Gate, Task, Workbench, is_closed_below, root_bound};
use std::alloc::Global;
use ttp_model::{Instance, MemoryFault};

/// In so many steps the goal rises from the bound of the whole tree to the delay that has to be beaten: a guess.
const STEPS: u32 = 32;

/// So many tasks are tried at most for each that is worked. After 8,000 subtrees 8 raise `layer10` to 546 and `chain11` to 480, 16
/// to 557 and 485, and 32 `layer10` to 575 in ten seconds more.
const TRIES: u64 = 16;

/// Which of the tasks that are left is worked next.
#[derive(Clone, Copy, PartialEq, Eq)]
pub enum Order {
    /// The newest.
    Newest,
    /// The newest that propagation doesn't close at a goal above the bound of the whole tree; once it closes all there the goal rises,
    /// and so does the bound.
    Rising,
    /// One with the fewest branches above it.
    Widest,
}

/// From which bound of the whole tree to which delay that has to be beaten the goal rises, in ticks, and to which step it has come.
#[derive(Clone, Copy)]
pub struct Slope {
    least: u32,
    most: u32,
    step: u32,
}

impl Slope {
    /// Always at the delay that has to be beaten.
    fn flat(most: u32) -> Self {
        Slope {
            least: most,
            most,
            step: 1,
        }
    }

    /// From the bound of the whole tree; flat where memory is refused for that.
    fn from_root(alloc: Global, instance: &Instance, most: u32) -> Self {
        let least = root_bound(alloc, instance, most).unwrap_or(most);
        Slope {
            least,
            ..Slope::flat(most)
        }
    }

    /// The goal of a step, in ticks.
    fn goal(self, step: u32) -> u32 {
        let gap = self.most.saturating_sub(self.least) as u64;
        let risen = gap.saturating_mul(step as u64) / STEPS as u64;
        (self.least as u64)
            .saturating_add(risen)
            .min(self.most as u64) as u32
    }
}

/// The goal to which the bound is to rise next, and of the tasks that are left which are closed there.
#[derive(Drop)]
pub struct Rising<'a> {
    bench: Workbench<'a>,
    /// Where the one with the fewest branches above it is looked for, if it is that which is to be next.
    level: Option<Level>,
    slope: Slope,
    /// For each task the last step at which propagation closed it; 0 where it closed it at none.
    closed: Vec<u32>,
    /// How many tasks may still be tried.
    tries: u64,
}

impl<'a> Rising<'a> {
    /// Begins at the bound of the whole tree, for so many turns. Where the newest is worked, and where memory is refused for that
    /// bound, no task is tried.
    pub fn new(alloc: Global, instance: &'a Instance, order: Order, most: u32, turns: u64) -> Self
        ensures { IsWorkbenchOf instance.now result.bench }
    {
        match order {
            Order::Newest => Rising::at(alloc, Slope::flat(most), 0),
            Order::Rising => {
                let slope = Slope::from_root(alloc, instance, most);
                Rising::at(alloc, slope, turns.saturating_mul(TRIES))
            }
            Order::Widest => Rising {
                level: Some(Level::top()),
                ..Rising::at(alloc, Slope::flat(most), 0)
            },
        }
    }

    /// At the step to which the goal has come, where nothing is known of tasks, and so many may be tried.
    pub fn at(alloc: Global, slope: Slope, tries: u64) -> Self
        ensures { (i : Instance) → IsWorkbenchOf i result.bench }
    {
        Rising {
            bench: Workbench::new(),
            level: None,
            slope,
            closed: Vec::new(alloc),
            tries,
        }
    }

    /// Whether one task more may be tried: none once who follows the search has said that it doesn't go on.
    fn may_try<G: Gate>(&mut self, gate: &G) -> bool
        ensures { self.new.bench ≡ self.old.bench }
    {
        if !gate.goes_on(0) {
            self.tries = 0;
        }
        self.tries > 0
    }

    /// Whether propagation closes a task at the goal of a step.
    fn closes(
        &mut self,
        alloc: Global,
        instance: &'a Instance,
        task: &Task,
        step: u32,
    ) -> Result<bool, MemoryFault>
        requires task { IsTask instance.now task.now }
        requires bench { IsWorkbenchOf instance.now self.old.bench }
        ensures { IsWorkbenchOf instance.now self.new.bench }
    {
        self.tries = self.tries.saturating_sub(1);
        let goal = self.slope.goal(step);
        is_closed_below(alloc, instance, &mut self.bench, task, goal)
    }

    /// Whether a task is known to be closed at the goal of a step.
    fn is_closed(&self, at: usize, step: u32) -> bool {
        match self.closed.get(at) {
            Some(closed) => *closed >= step,
            None => false,
        }
    }

    /// Notes that a task is closed at the goal of a step.
    fn note(&mut self, at: usize, step: u32)
        ensures { self.new.bench ≡ self.old.bench }
    {
        if let Some(closed) = self.closed.get_mut(at) {
            *closed = step;
        }
    }

    /// The newest task that propagation doesn't close at the goal of a step.
    fn newest_open<G: Gate>(
        &mut self,
        site: &Site<'a, G>,
        tasks: &[Task],
        step: u32,
    ) -> Result<Option<usize>, MemoryFault>
        requires tasks { All (IsTask site.now.instance.now) tasks.now }
        requires bench { IsWorkbenchOf site.now.instance.now self.old.bench }
        ensures { IsWorkbenchOf site.now.instance.now self.new.bench }
    {
        for at in (0..tasks.len()).rev() {
            if !self.is_closed(at, step) && self.may_try(site.gate) {
                if !self.closes(site.alloc, site.instance, &tasks[at], step)? {
                    return Ok(Some(at));
                }
                self.note(at, step);
            }
        }
        Ok(None)
    }

    /// The newest task that isn't closed at the goal, which rises as long as all are.
    fn open_task<G: Gate>(
        &mut self,
        site: &Site<'a, G>,
        tasks: &[Task],
    ) -> Result<Option<usize>, MemoryFault>
        requires tasks { All (IsTask site.now.instance.now) tasks.now }
        requires bench { IsWorkbenchOf site.now.instance.now self.old.bench }
        ensures { IsWorkbenchOf site.now.instance.now self.new.bench }
    {
        self.closed.resize(tasks.len(), 0)?;
        for step in self.slope.step..STEPS {
            self.slope.step = step;
            let found = self.newest_open(site, tasks, step)?;
            if found.is_some() {
                return Ok(found);
            }
        }
        self.slope.step = STEPS;
        Ok(None)
    }

    /// The place of the task that is to be worked next: one with the fewest branches above it, if such a one is asked for, and else the newest that
    /// propagation doesn't close at the goal, which rises as long as all are closed there. That is the newest of all where the goal has come to the delay that has to be beaten, where no more may be
    /// tried, or where memory is refused. Who follows the search is asked before each try. The last task takes the place of this one, which is
    /// no longer left.
    pub fn pick<G: Gate>(&mut self, site: &Site<'a, G>, tasks: &[Task]) -> usize
        requires tasks { All (IsTask site.now.instance.now) tasks.now }
        requires bench { IsWorkbenchOf site.now.instance.now self.old.bench }
        ensures { IsWorkbenchOf site.now.instance.now self.new.bench }
    {
        if let Some(level) = self.level {
            let mut level = level;
            let at = level.pick(tasks);
            self.level = Some(level);
            return at;
        }
        let newest = tasks.len().saturating_sub(1);
        if self.tries == 0 {
            return newest;
        }
        let at = match self.open_task(site, tasks) {
            Ok(Some(at)) => at,
            Ok(None) | Err(_) => newest,
        };
        self.forget(at);
        at
    }

    /// Nothing is known of a task any more, and the last one takes its place.
    fn forget(&mut self, at: usize)
        ensures { self.new.bench ≡ self.old.bench }
    {
        if at < self.closed.len() {
            let _last = self.closed.swap_remove(at);
        }
    }

    /// The newest of the tasks that some thread has that isn't closed at the goal to which it has come, and which is no longer left there; none where
    /// all are, where no more may be tried, or where memory is refused. None is tried where the goal has come to the delay that has to be beaten.
    pub fn pick_open<G: Gate>(&mut self, site: &Site<'a, G>, tasks: &[Task]) -> Option<usize>
        requires tasks { All (IsTask site.now.instance.now) tasks.now }
        requires bench { IsWorkbenchOf site.now.instance.now self.old.bench }
        ensures { IsWorkbenchOf site.now.instance.now self.new.bench }
    {
        let step = self.slope.step;
        if step >= STEPS {
            return tasks.len().checked_sub(1);
        }
        if self.closed.resize(tasks.len(), 0).is_err() {
            return None;
        }
        match self.newest_open(site, tasks, step) {
            Ok(Some(at)) => {
                self.forget(at);
                Some(at)
            }
            Ok(None) | Err(_) => None,
        }
    }

    /// Of each of so many tasks the last step at which it was closed, and how many may still be tried.
    pub fn known(self, tasks: usize) -> (Vec<u32>, u64) {
        let Rising {
            bench,
            closed,
            tries,
            ..
        } = self;
        drop(bench);
        let mut closed = closed;
        // Where memory is refused for it nothing is known of them.
        if closed.resize(tasks, 0).is_err() {
            closed.clear();
        }
        (closed, tries)
    }
}

/// The places of the newest tasks that aren't known to be closed at a step, the newest first, but no more than `most`.
fn unknown(
    alloc: Global,
    closed: &[u32],
    step: u32,
    most: usize,
) -> Result<Vec<usize>, MemoryFault> {
    let mut places = Vec::new(alloc);
    for at in (0..closed.len()).rev() {
        if places.len() < most && (step >= STEPS || closed[at] < step) {
            places.push(at)?;
        }
    }
    Ok(places)
}

/// What is known of the tasks of a search whose threads try them.
#[derive(Drop)]
pub struct Frontier {
    slope: Slope,
    closed: Vec<u32>,
    tries: u64,
}

impl Frontier {
    /// Begins at the bound of the whole tree, for so many turns.
    pub fn new(alloc: Global, instance: &Instance, most: u32, turns: u64) -> Self {
        Frontier {
            slope: Slope::from_root(alloc, instance, most),
            closed: Vec::new(alloc),
            tries: turns.saturating_mul(TRIES),
        }
    }

    /// To which step the goal has come.
    pub fn slope(&self) -> Slope {
        self.slope
    }

    /// How many tasks may be tried at most of so many.
    pub fn tries(&self, most: u64) -> u64 {
        self.tries.min(most)
    }

    /// The places of the tasks that are next, of so many, the newest first, and no more than `most`: those that aren't known to be closed at the goal,
    /// which rises where all are. They are the newest of all where it has come to the delay that has to be beaten, or where no more may be tried.
    pub fn places(
        &mut self,
        alloc: Global,
        tasks: usize,
        most: usize,
    ) -> Result<Vec<usize>, MemoryFault> {
        self.closed.resize(tasks, 0)?;
        if self.tries == 0 {
            self.slope.step = STEPS;
        }
        for step in self.slope.step..STEPS {
            self.slope.step = step;
            let places = unknown(alloc, self.closed.as_slice(), step, most)?;
            if !places.is_empty() {
                return Ok(places);
            }
        }
        self.slope.step = STEPS;
        unknown(alloc, self.closed.as_slice(), STEPS, most)
    }

    /// These two tasks change their places.
    pub fn swap(&mut self, a: usize, b: usize) {
        if a < self.closed.len() && b < self.closed.len() {
            self.closed.swap(a, b);
        }
    }

    /// So many tasks stay, behind which others come of which this is known; so many were tried.
    pub fn take_in(&mut self, kept: usize, closed: Vec<u32>, tries: u64) {
        let mut closed = closed;
        self.tries = self.tries.saturating_sub(tries);
        self.closed.truncate(kept);
        // Where memory is refused for it nothing is known of them.
        let _joined = self.closed.append(&mut closed);
    }
}
