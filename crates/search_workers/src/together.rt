//! What do several threads make of tasks side by side, each of a part of them?

ghost use Rattle.std.specs.Prelude.{◌≡◌, ◌≤◌, ◌<◌, ◌+◌, ◌-◌, ◌++◌, [], List, All, IfSome, None, length, vec_len, vec_capacity};
ghost use denote.Param.Send.{IsSync};
ghost use Rattle.ttp_model.specs.Instance.{Instance};
ghost use Rattle.ttp_model.specs.Rules.{IsInstance};
ghost use Rattle.ttp_model.specs.declared.limits.TheConstants.{MOST_NODES};
ghost use Rattle.search_workers.specs.Task.{Task, IsTask};
ghost use Rattle.search_workers.specs.Workbench.{IsWorkbenchOf};
ghost use Rattle.search_workers.specs.declared.aims.Aims.{Aims};
ghost use Rattle.search_workers.specs.Rounds.{IsEmpty};
ghost use Rattle.search_workers.specs.Searching.{limit_of, IsFound, IsSearchingOf, IsSomeSearch, SearchGoesOn};

use crate::found::{FoundPlan, better, copied};
use crate::rising::{Rising, Slope};
use crate::search::Search;
use crate::site::Site;
use crate::{Aims, Gate, Task, Workbench};
use std::alloc::Global;
use std::marker::Sync;
use std::mem;
use std::thread::{Threads, join_mut};
use ttp_model::MOST_NODES;

/// What some threads may do before they come together.
#[derive(Clone, Copy)]
pub struct Stint {
    pub threads: u32,
    /// How many tasks they work and try at most, and how many may be open in them.
    pub turns: u64,
    pub tries: u64,
    pub room: usize,
}

/// What some threads made of tasks, and what is known of those that are open then.
#[derive(Drop)]
pub struct Part {
    pub search: Search,
    /// For each task the last step at which propagation closed it; 0 where it closed it at none.
    pub closed: Vec<u32>,
    /// How many tasks were tried.
    pub tries: u64,
}

/// What goes with a part of a round.
#[derive(Drop)]
pub struct Round<'r, 'a, R: Threads, G: Gate> {
    pub rt: &'r R,
    pub site: &'r Site<'a, G>,
    pub slope: Slope,
    pub aims: Aims,
    pub best: &'r Option<FoundPlan>,
}

/// As much of a number as belongs to so many of the threads.
fn portion(all: u64, low: u32, threads: u32) -> u64
    ensures { result ≤ all }
{
    (all / u64::from(threads.max(1)))
        .saturating_mul(u64::from(low))
        .min(all)
}

impl Stint {
    /// What the first half of the threads may do with the first so many of some tasks, and what the others may do with the rest.
    fn halves(self, tasks: usize) -> (usize, Stint, Stint)
        requires several { 2 ≤ self.threads }
        requires room { tasks ≤ self.room }
        ensures at { result.0 ≤ tasks }
        ensures threads { result.1.threads + result.2.threads ≡ self.threads }
        ensures some { (0 < result.1.threads) × (0 < result.2.threads) }
        ensures turns { result.1.turns + result.2.turns ≤ self.turns }
        ensures first { result.0 ≤ result.1.room }
        ensures second { tasks - result.0 ≤ result.2.room }
        ensures room { result.1.room + result.2.room ≤ self.room }
    {
        let low = self.threads / 2;
        let at = portion(tasks as u64, low, self.threads) as usize;
        let turns = portion(self.turns, low, self.threads);
        let tries = portion(self.tries, low, self.threads);
        let more = (self.room - tasks) / 2;
        let first = Stint {
            threads: low,
            turns,
            tries,
            room: at + more,
        };
        let second = Stint {
            threads: self.threads - low,
            turns: self.turns - turns,
            tries: self.tries - tries,
            room: tasks - at + more,
        };
        (at, first, second)
    }
}

impl Search {
    /// A search of these tasks, of which none is worked yet.
    fn begun(alloc: Global, tasks: Vec<Task>, best: Option<FoundPlan>) -> Self
        ensures begun { (i : Instance) (aims : Aims) → All (IsTask i) tasks.items → IsFound i best
            → IsSearchingOf i aims tasks.items result.pieces.items result.tasks.items result.best }
        ensures tasks { result.tasks ≡ tasks }
        ensures none { vec_len result.pieces ≡ 0 }
    {
        Search {
            pieces: Vec::new(alloc),
            room: Vec::new(alloc),
            tasks,
            spared: 0,
            best,
        }
    }

    /// Makes the newest task that is open at the goal to which it has come the last, where there is one: whether there is.
    fn bring_open<'a, G: Gate>(&mut self, site: &Site<'a, G>, rising: &mut Rising<'a>) -> bool
        requires tasks { All (IsTask site.now.instance.now) self.old.tasks.items }
        requires bench { IsWorkbenchOf site.now.instance.now rising.old.bench }
        ensures searching { (aims : Aims) → SearchGoesOn site.now.instance.now aims self.old self.new }
        ensures pieces { vec_len self.new.pieces ≡ vec_len self.old.pieces }
        ensures tasks { vec_len self.new.tasks ≡ vec_len self.old.tasks }
        ensures bench { IsWorkbenchOf site.now.instance.now rising.new.bench }
    {
        let Some(at) = rising.pick_open(site, self.tasks.as_slice()) else {
            return false;
        };
        let count = self.tasks.len();
        self.bring_last(at, count);
        true
    }

    /// Works the newest task that is open at the goal to which it has come, where there is one and room for its children: whether it was worked.
    fn turn_below<'a, G: Gate>(
        &mut self,
        site: &Site<'a, G>,
        bench: &mut Workbench<'a>,
        rising: &mut Rising<'a>,
        room: usize,
        aims: Aims,
    ) -> bool
        requires searching { IsSomeSearch site.now.instance.now aims self.old }
        requires room { vec_len self.old.tasks ≤ room }
        requires bench { IsWorkbenchOf site.now.instance.now bench.old }
        requires rising { IsWorkbenchOf site.now.instance.now rising.old.bench }
        ensures searching { SearchGoesOn site.now.instance.now aims self.old self.new }
        ensures within { vec_len self.new.pieces ≤ vec_len self.old.pieces + 1 }
        ensures room { vec_len self.new.tasks ≤ room }
        ensures bench { IsWorkbenchOf site.now.instance.now bench.new }
        ensures rising { IsWorkbenchOf site.now.instance.now rising.new.bench }
    {
        let has_room = room - self.tasks.len() >= MOST_NODES;
        if has_room && site.gate.goes_on(0) && self.bring_open(site, rising) {
            return self.turn(site, bench, aims);
        }
        false
    }

    /// Works the newest tasks that are open at the goal to which it has come, until none is, or as many as may be.
    fn turns_below<'a, G: Gate>(
        &mut self,
        site: &Site<'a, G>,
        rising: &mut Rising<'a>,
        stint: Stint,
        aims: Aims,
    )
        requires searching { IsSomeSearch site.now.instance.now aims self.old }
        requires room { vec_len self.old.tasks ≤ stint.room }
        requires rising { IsWorkbenchOf site.now.instance.now rising.old.bench }
        ensures searching { SearchGoesOn site.now.instance.now aims self.old self.new }
        ensures within { vec_len self.new.pieces ≤ vec_len self.old.pieces + stint.turns }
        ensures room { vec_len self.new.tasks ≤ stint.room }
    {
        let mut bench = Workbench::new();
        for _turn in 0..stint.turns {
            if !self.turn_below(site, &mut bench, rising, stint.room, aims) {
                drop(bench);
                return;
            }
        }
        drop(bench);
    }

    /// What was made of the last tasks takes their place, in the room that there is.
    pub fn take_in(&mut self, made: Search)
        requires pieces { vec_len self.old.pieces + vec_len made.pieces ≤ vec_capacity self.old.pieces }
        requires tasks { vec_len self.old.tasks + vec_len made.tasks ≤ vec_capacity self.old.tasks }
        ensures searching { (i : Instance) (aims : Aims) (roots front more : List Task) → IsInstance i
            → IsSearchingOf i aims roots self.old.pieces.items ((front ++ self.old.tasks.items) ++ more) self.old.best
            → IsSearchingOf i aims more made.pieces.items made.tasks.items made.best
            → IsSearchingOf i aims roots self.new.pieces.items (front ++ self.new.tasks.items) self.new.best }
        ensures pieces { vec_len self.new.pieces ≡ vec_len self.old.pieces + vec_len made.pieces }
        ensures tasks { vec_len self.new.tasks ≡ vec_len self.old.tasks + vec_len made.tasks }
        ensures pieces_room { vec_capacity self.old.pieces ≤ vec_capacity self.new.pieces }
        ensures tasks_room { vec_capacity self.old.tasks ≤ vec_capacity self.new.tasks }
        ensures no_later { (i : Instance) → IsInstance i → IsFound i self.old.best → IsFound i made.best → limit_of i self.new.best ≤ limit_of i self.old.best }
    {
        let Search {
            pieces,
            tasks,
            best,
            ..
        } = made;
        let (mut pieces, mut tasks) = (pieces, tasks);
        match (
            self.pieces.append(&mut pieces),
            self.tasks.append(&mut tasks),
        ) {
            (Ok(()), Ok(())) => {}
            _ => unreachable!(),
        }
        self.best = better(mem::replace(&mut self.best, None), best);
    }
}

impl Part {
    /// Room for what threads make that may do so much; none where memory is refused.
    fn with_room(alloc: Global, stint: Stint) -> Option<Self>
        ensures none { IfSome result (λ part. IsEmpty part.search) }
        ensures pieces { IfSome result (λ part. stint.turns ≤ vec_capacity part.search.pieces) }
        ensures tasks { IfSome result (λ part. stint.room ≤ vec_capacity part.search.tasks) }
    {
        let Ok(pieces) = Vec::with_capacity(alloc, stint.turns as usize) else {
            return None;
        };
        let Ok(tasks) = Vec::with_capacity(alloc, stint.room) else {
            drop(pieces);
            return None;
        };
        let search = Search {
            pieces,
            room: Vec::new(alloc),
            tasks,
            spared: 0,
            best: None,
        };
        Some(Part {
            search,
            closed: Vec::new(alloc),
            tries: 0,
        })
    }

    /// Tasks that no thread works, of which nothing is known.
    fn unworked(alloc: Global, tasks: Vec<Task>) -> Self
        ensures begun { (i : Instance) (aims : Aims) → All (IsTask i) tasks.items
            → IsSearchingOf i aims tasks.items result.search.pieces.items result.search.tasks.items result.search.best }
        ensures tasks { result.search.tasks ≡ tasks }
        ensures none { vec_len result.search.pieces ≡ 0 }
    {
        Part {
            search: Search::begun(alloc, tasks, None),
            closed: Vec::new(alloc),
            tries: 0,
        }
    }

    /// What is known of more tasks comes behind this.
    fn know(&mut self, closed: Vec<u32>, tries: u64)
        ensures search { self.new.search ≡ self.old.search }
    {
        let mut closed = closed;
        self.tries = self.tries.saturating_add(tries);
        // Where memory is refused for it nothing is known of them.
        let _joined = self.closed.append(&mut closed);
    }
}

/// What both halves of the threads made, in the room that there is.
fn both(whole: Part, first: Part, second: Part) -> Part
    requires none { IsEmpty whole.search }
    requires pieces { vec_len first.search.pieces + vec_len second.search.pieces ≤ vec_capacity whole.search.pieces }
    requires tasks { vec_len first.search.tasks + vec_len second.search.tasks ≤ vec_capacity whole.search.tasks }
    ensures searching { (i : Instance) (aims : Aims) (front back : List Task) → IsInstance i
        → IsSearchingOf i aims front first.search.pieces.items first.search.tasks.items first.search.best
        → IsSearchingOf i aims back second.search.pieces.items second.search.tasks.items second.search.best
        → IsSearchingOf i aims (front ++ back) result.search.pieces.items result.search.tasks.items result.search.best }
    ensures pieces { vec_len result.search.pieces ≡ vec_len first.search.pieces + vec_len second.search.pieces }
    ensures tasks { vec_len result.search.tasks ≡ vec_len first.search.tasks + vec_len second.search.tasks }
{
    let mut whole = whole;
    let Part {
        search,
        closed,
        tries,
    } = first;
    whole.search.take_in(search);
    whole.know(closed, tries);
    let Part {
        search,
        closed,
        tries,
    } = second;
    whole.search.take_in(search);
    whole.know(closed, tries);
    whole
}

impl<'r, 'a, R: Threads + Sync, G: Gate + Sync> Round<'r, 'a, R, G> {
    /// What one thread makes of tasks.
    fn alone(&self, stint: Stint, tasks: Vec<Task>) -> Part
        requires tasks { All (IsTask self.now.site.now.instance.now) tasks.items }
        requires found { IsFound self.now.site.now.instance.now self.now.best.now }
        requires room { vec_len tasks ≤ stint.room }
        ensures searching { IsSearchingOf self.now.site.now.instance.now self.now.aims tasks.items result.search.pieces.items result.search.tasks.items result.search.best }
        ensures pieces { vec_len result.search.pieces ≤ stint.turns }
        ensures tasks { vec_len result.search.tasks ≤ stint.room }
    {
        let site = self.site;
        let Ok(best) = copied(site.alloc, self.best) else {
            return Part::unworked(site.alloc, tasks);
        };
        let mut search = Search::begun(site.alloc, tasks, best);
        let mut rising = Rising::at(site.alloc, self.slope, stint.tries);
        search.turns_below(site, &mut rising, stint, self.aims);
        let (closed, left) = rising.known(search.tasks.len());
        Part {
            search,
            closed,
            tries: stint.tries.saturating_sub(left),
        }
    }

    /// What threads make of tasks, each of a part of them.
    #[cycle(threads)]
    pub fn share(&self, stint: Stint, tasks: Vec<Task>) -> Part
        requires tasks { All (IsTask self.now.site.now.instance.now) tasks.items }
        requires found { IsFound self.now.site.now.instance.now self.now.best.now }
        requires room { vec_len tasks ≤ stint.room }
        ensures searching { IsSearchingOf self.now.site.now.instance.now self.now.aims tasks.items result.search.pieces.items result.search.tasks.items result.search.best }
        ensures pieces { vec_len result.search.pieces ≤ stint.turns }
        ensures tasks { vec_len result.search.tasks ≤ stint.room }
    {
        if stint.threads < 2 || tasks.len() < 2 {
            return self.alone(stint, tasks);
        }
        let Some(whole) = Part::with_room(self.site.alloc, stint) else {
            return self.alone(stint, tasks);
        };
        let (at, low, high) = stint.halves(tasks.len());
        let mut front = tasks;
        match front.split_off(at) {
            Ok(back) => self.apart(whole, low, front, high, back),
            Err(_) => {
                drop(whole);
                self.alone(stint, front)
            }
        }
    }

    /// What two halves of the threads make, each of its own tasks, in the room that there is.
    #[cycle(threads)]
    fn apart(&self, whole: Part, low: Stint, front: Vec<Task>, high: Stint, back: Vec<Task>) -> Part
        requires front { All (IsTask self.now.site.now.instance.now) front.items }
        requires back { All (IsTask self.now.site.now.instance.now) back.items }
        requires found { IsFound self.now.site.now.instance.now self.now.best.now }
        requires room { (vec_len front ≤ low.room) × (vec_len back ≤ high.room) }
        requires threads { (0 < low.threads) × (0 < high.threads) }
        requires none { IsEmpty whole.search }
        requires pieces { low.turns + high.turns ≤ vec_capacity whole.search.pieces }
        requires tasks { low.room + high.room ≤ vec_capacity whole.search.tasks }
        ensures searching { IsSearchingOf self.now.site.now.instance.now self.now.aims (front.items ++ back.items) result.search.pieces.items result.search.tasks.items result.search.best }
        ensures pieces { vec_len result.search.pieces ≤ low.turns + high.turns }
        ensures tasks { vec_len result.search.tasks ≤ low.room + high.room }
    {
        let _nodes = self.site.instance.nodes();
        let (mut front, mut back) = (front, back);
        let mut first = || -> Part
            requires { IsSync R.row × IsSync G.row × All (IsTask self.now.site.now.instance.now) front.items × IsFound self.now.site.now.instance.now self.now.best.now × (vec_len front ≤ low.room) }
            ensures searching { IsSearchingOf self.entry.now.site.now.instance.now self.entry.now.aims front.entry.items result.search.pieces.items result.search.tasks.items result.search.best }
            ensures pieces { vec_len result.search.pieces ≤ low.turns }
            ensures tasks { vec_len result.search.tasks ≤ low.room }
        {
            let tasks = mem::replace(&mut front, Vec::new(self.site.alloc));
            self.share(low, tasks)
        };
        let mut second = || -> Part
            requires { IsSync R.row × IsSync G.row × All (IsTask self.now.site.now.instance.now) back.items × IsFound self.now.site.now.instance.now self.now.best.now × (vec_len back ≤ high.room) }
            ensures searching { IsSearchingOf self.entry.now.site.now.instance.now self.entry.now.aims back.entry.items result.search.pieces.items result.search.tasks.items result.search.best }
            ensures pieces { vec_len result.search.pieces ≤ high.turns }
            ensures tasks { vec_len result.search.tasks ≤ high.room }
        {
            let tasks = mem::replace(&mut back, Vec::new(self.site.alloc));
            self.share(high, tasks)
        };
        let (one, other) = join_mut(self.rt, &mut first, &mut second);
        both(whole, one, other)
    }
}
