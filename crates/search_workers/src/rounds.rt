//! How do threads raise the bound of what is left, in rounds?

ghost use Rattle.std.specs.Prelude.{◌≡◌, ◌≤◌, ◌+◌, ◌++◌, List, All, IfOk, IsPermutation, OnErr, OnOk, length, vec_len, vec_capacity};
ghost use Rattle.search_workers.specs.Rounds.{HasRoomFor};
ghost use Rattle.search_workers.specs.Task.{Task};
ghost use Rattle.search_workers.specs.Searching.{limit_of, IsSearchingOf, IsSomeSearch, SearchGoesOn};

use crate::rising::Frontier;
use crate::search::{Search, aim};
use crate::site::Site;
use crate::together::{Part, Round, Stint};
use crate::{Aims, Gate, Task};
use std::alloc::Global;
use std::marker::Sync;
use std::thread::Threads;
use ttp_model::MemoryFault;

/// So many tasks are worked by each thread at most before all come together. Each begins a round with a propagation of all decisions on its first
/// task: in a processor second four threads work 460 subtrees of `chains256` with 32, and 690 with 512, where one thread alone works 990.
const TURNS: u64 = 512;

/// So many are tried meanwhile by each thread at most, and so many more may be open in it then.
const TRIES: u64 = 16 * TURNS;

const SPREAD: usize = 4096;

/// After so many rounds one thread works what is left.
const ROUNDS: u64 = 1 << 32;

/// Who may work side by side.
#[derive(Drop)]
pub struct Team<'a, R: Threads> {
    pub rt: &'a R,
    /// How many threads, with the caller's own.
    pub threads: u32,
}

/// Tasks that are next, and what may be done with them.
#[derive(Drop)]
struct Deal {
    tasks: Vec<Task>,
    stint: Stint,
    /// How many others stay.
    kept: usize,
}

impl Search {
    /// Asks for room for what a stint makes, and for leaves of all that is open then; beside it for the nodes of all these.
    fn make_room_for(&mut self, stint: Stint) -> Result<(), MemoryFault>
        ensures pieces { self.new.pieces.items ≡ self.old.pieces.items }
        ensures tasks { self.new.tasks.items ≡ self.old.tasks.items }
        ensures best { self.new.best ≡ self.old.best }
        ensures made { OnOk result (vec_len self.new.pieces + stint.turns ≤ vec_capacity self.new.pieces) }
        ensures left { OnOk result (vec_len self.new.tasks + stint.room ≤ vec_capacity self.new.tasks) }
    {
        let made = self.pieces.len();
        let more = (stint.turns as usize)
            .saturating_add(self.tasks.len())
            .saturating_add(stint.room);
        self.pieces.reserve(more)?;
        self.room.reserve(made.saturating_add(more))?;
        self.tasks.reserve(stint.room)?;
        Ok(())
    }

    /// Makes the tasks at these places, the newest first, the last ones: how many stay before them.
    fn bring_all(&mut self, frontier: &mut Frontier, places: &[usize]) -> usize
        ensures moved { IsPermutation self.old.tasks.items self.new.tasks.items }
        ensures pieces { self.new.pieces.items ≡ self.old.pieces.items }
        ensures best { self.new.best ≡ self.old.best }
        ensures kept { result ≤ vec_len self.new.tasks }
    {
        let mut kept = self.tasks.len();
        for at in places {
            self.bring_last(*at, kept);
            kept = kept.saturating_sub(1);
            frontier.swap(*at, kept);
        }
        kept
    }

    /// Takes out the tasks that are next, with room for what is made of them by so many turns at most.
    fn deal(
        &mut self,
        alloc: Global,
        frontier: &mut Frontier,
        threads: u32,
        turns: u64,
    ) -> Result<Deal, MemoryFault>
        ensures pieces { self.new.pieces.items ≡ self.old.pieces.items }
        ensures best { self.new.best ≡ self.old.best }
        ensures dealt { IfOk result (λ deal. IsPermutation self.old.tasks.items (self.new.tasks.items ++ deal.tasks.items)) }
        ensures stays { OnErr result (IsPermutation self.old.tasks.items self.new.tasks.items) }
        ensures turns { IfOk result (λ deal. deal.stint.turns ≤ turns) }
        ensures room { IfOk result (HasRoomFor self.new) }
    {
        let crew = u64::from(threads);
        let slice = TRIES.saturating_mul(crew);
        let places = frontier.places(alloc, self.tasks.len(), slice as usize)?;
        let kept = self.bring_all(frontier, places.as_slice());
        let dealt = self.tasks.len() - kept;
        let more = SPREAD.saturating_mul(threads as usize);
        let stint = Stint {
            threads,
            turns: turns.min(TURNS.saturating_mul(crew)),
            tries: frontier.tries(slice),
            room: dealt.saturating_add(more),
        };
        self.make_room_for(stint)?;
        let tasks = self.tasks.split_off(kept)?;
        Ok(Deal { tasks, stint, kept })
    }

    /// Works by all threads tasks that were taken out, as far as each may: whether something was worked or tried.
    fn work_deal<R: Threads + Sync, G: Gate + Sync>(
        &mut self,
        team: &Team<'_, R>,
        site: &Site<'_, G>,
        frontier: &mut Frontier,
        deal: Deal,
        aims: Aims,
    ) -> bool
        requires searching { (roots : List Task) × (aside : List Task)
            × IsSearchingOf site.now.instance.now aims roots self.old.pieces.items (aside ++ (self.old.tasks.items ++ deal.tasks.items)) self.old.best }
        requires room { HasRoomFor self.old deal }
        ensures searching { (roots aside : List Task)
            → IsSearchingOf site.now.instance.now aims roots self.old.pieces.items (aside ++ (self.old.tasks.items ++ deal.tasks.items)) self.old.best
            → IsSearchingOf site.now.instance.now aims roots self.new.pieces.items (aside ++ self.new.tasks.items) self.new.best }
        ensures within { vec_len self.new.pieces ≤ vec_len self.old.pieces + deal.stint.turns }
        ensures no_later { limit_of site.now.instance.now self.new.best ≤ limit_of site.now.instance.now self.old.best }
    {
        let _nodes = site.instance.nodes();
        let Deal { tasks, stint, kept } = deal;
        let round = Round {
            rt: team.rt,
            site,
            slope: frontier.slope(),
            aims,
            best: &self.best,
        };
        let Part {
            search,
            closed,
            tries,
        } = round.share(stint, tasks);
        frontier.take_in(kept, closed, tries);
        let worked = search.pieces.len() as u64;
        self.take_in(search);
        worked.saturating_add(tries) > 0
    }

    /// Works by all threads the tasks that are next, as far as each may, but no more than so many: whether something was worked or tried.
    fn round<R: Threads + Sync, G: Gate + Sync>(
        &mut self,
        team: &Team<'_, R>,
        site: &Site<'_, G>,
        frontier: &mut Frontier,
        turns: u64,
        aims: Aims,
    ) -> bool
        requires searching { IsSomeSearch site.now.instance.now aims self.old }
        ensures searching { SearchGoesOn site.now.instance.now aims self.old self.new }
        ensures within { length self.new.pieces.items ≤ length self.old.pieces.items + turns }
        ensures no_later { limit_of site.now.instance.now self.new.best ≤ limit_of site.now.instance.now self.old.best }
    {
        match self.deal(site.alloc, frontier, team.threads, turns) {
            Ok(deal) => self.work_deal(team, site, frontier, deal, aims),
            Err(_) => false,
        }
    }

    /// Works what is open by all threads of a team, in rounds, until `budget` pieces are made, the gate says that it doesn't go on, or nothing is done
    /// in one.
    fn take_rounds<R: Threads + Sync, G: Gate + Sync>(
        &mut self,
        team: &Team<'_, R>,
        site: &Site<'_, G>,
        budget: u64,
        aims: Aims,
    )
        requires searching { IsSomeSearch site.now.instance.now aims self.old }
        requires within { length self.old.pieces.items ≤ budget }
        ensures searching { SearchGoesOn site.now.instance.now aims self.old self.new }
        ensures within { length self.new.pieces.items ≤ budget }
        ensures no_later { limit_of site.now.instance.now self.new.best ≤ limit_of site.now.instance.now self.old.best }
    {
        let turns = budget - self.pieces.len() as u64;
        let most = aim(site.instance, aims, &self.best);
        let mut frontier = Frontier::new(site.alloc, site.instance, most, turns);
        for _round in 0..ROUNDS {
            let left = budget.saturating_sub(self.pieces.len() as u64);
            if left == 0 || !site.gate.goes_on(0) {
                return;
            }
            if !self.round(team, site, &mut frontier, left, aims) {
                return;
            }
        }
    }

    /// Puts what is open in the order of the tree: side by side there the steps that close one task mostly close the next.
    fn sort_tasks(&mut self)
        ensures moved { IsPermutation self.old.tasks.items self.new.tasks.items }
        ensures pieces { self.new.pieces.items ≡ self.old.pieces.items }
        ensures best { self.new.best ≡ self.old.best }
    {
        self.tasks.sort_unstable_by(|a, b| a.name().cmp(b.name()));
    }

    /// Works what is open by all threads of a team so that the bound rises, until `budget` pieces are made, none is open, the gate says that it doesn't
    /// go on, or memory is refused. A team of one works nothing.
    pub fn rise<R: Threads + Sync, G: Gate + Sync>(
        &mut self,
        team: &Team<'_, R>,
        site: &Site<'_, G>,
        budget: u64,
        aims: Aims,
    )
        requires searching { IsSomeSearch site.now.instance.now aims self.old }
        requires within { length self.old.pieces.items ≤ budget }
        ensures searching { SearchGoesOn site.now.instance.now aims self.old self.new }
        ensures within { length self.new.pieces.items ≤ budget }
        ensures no_later { limit_of site.now.instance.now self.new.best ≤ limit_of site.now.instance.now self.old.best }
    {
        if team.threads < 2 {
            return;
        }
        self.take_rounds(team, site, budget, aims);
        self.sort_tasks();
    }
}
