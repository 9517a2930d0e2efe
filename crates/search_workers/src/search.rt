//! The caller's part of a search: it works what is left of the tree.

ghost use Rattle.std.specs.Prelude.{◌≡◌, ◌≢◌, ◌≤◌, ◌<◌, ◌+◌, ◌++◌, [], ◌∷◌, All, IfSome, IsPermutation, List, None, OnOk, Some, cond, length, vec_len, vec_capacity};
ghost use Rattle.ttp_model.specs.declared.limits.TheConstants.{MOST_NODES};
ghost use Rattle.search_workers.specs.Gains.{IsGain};
ghost use Rattle.search_workers.specs.Task.{Task, IsTask};
ghost use Rattle.search_workers.specs.Workbench.{IsWorkbenchOf};
ghost use Rattle.search_workers.specs.declared.aims.Aims.{Aims};
ghost use Rattle.search_workers.specs.Searching.{aim_of, limit_of, IsCutShort, IsFound, IsWorkedOut, IsSearchingOf, IsSomeSearch, SearchGoesOn};
ghost use Rattle.search_workers.specs.declared.outcome.Why.TheVariants as why;
ghost use Rattle.search_workers.specs.declared.rising.Order.TheVariants as orders;

use crate::found::FoundPlan;
use crate::outcome::Why;
use crate::rising::{Order, Rising};
use crate::rounds::Team;
use crate::site::Site;
use crate::turn::{Gain, work_task};
use crate::{Aims, Gate, Piece, Task, Workbench, goal_of};
use certificate::Node;
use std::marker::Sync;
use std::thread::Threads;
use ttp_model::{Instance, MOST_NODES, MemoryFault};

/// What is worked, room for its nodes, and what is still open; the best plan that was found, settled.
#[derive(Drop)]
pub struct Search {
    pub pieces: Vec<Piece>,
    pub room: Vec<Node>,
    pub tasks: Vec<Task>,
    /// How many of them needn't be worked, as far as was seen.
    pub spared: usize,
    pub best: Option<FoundPlan>,
}

/// The delay that has to be beaten.
pub fn limit(instance: &Instance, best: &Option<FoundPlan>) -> u32
    requires { IsFound instance.now best.now }
    ensures { result ≡ limit_of instance.now best.now }
{
    let _nodes = instance.nodes();
    match best {
        Some(found) => found.delay as u32,
        None => instance.past_horizon(),
    }
}

/// The goal at which it works then, in ticks.
pub fn aim(instance: &Instance, aims: Aims, best: &Option<FoundPlan>) -> u32
    requires { IsFound instance.now best.now }
    ensures { result ≡ aim_of instance.now aims best.now }
{
    goal_of(instance, aims, limit(instance, best))
}

/// Puts tasks behind those that are open, in the room that there is.
fn open_all(pending: &mut Vec<Task>, tasks: Vec<Task>)
    requires { vec_len pending.old + vec_len tasks ≤ vec_capacity pending.old }
    ensures { pending.new.items ≡ pending.old.items ++ tasks.items }
{
    let mut tasks = tasks;
    match pending.append(&mut tasks) {
        Ok(()) => {}
        Err(_) => unreachable!(),
    }
}

impl Search {
    /// Asks for room: in the list of pieces for one more, and for leaves of all that is open once it is made; beside it for the
    /// nodes of all these; and in that of tasks for all that one of them can be split into.
    fn make_room(&mut self) -> Result<(), MemoryFault>
        ensures pieces { self.new.pieces.items ≡ self.old.pieces.items }
        ensures tasks { self.new.tasks.items ≡ self.old.tasks.items }
        ensures best { self.new.best ≡ self.old.best }
        ensures ends { OnOk result (vec_len self.new.pieces + vec_len self.new.tasks + MOST_NODES + 1 ≤ vec_capacity self.new.pieces) }
        ensures nodes { OnOk result (vec_len self.new.pieces + vec_len self.new.tasks + MOST_NODES + 1 ≤ vec_capacity self.new.room) }
        ensures split { OnOk result (vec_len self.new.tasks + MOST_NODES ≤ vec_capacity self.new.tasks) }
    {
        let made = self.pieces.len();
        let more = self.tasks.len() + MOST_NODES + 1;
        self.pieces.reserve(more)?;
        self.room.reserve(made + more)?;
        self.tasks.reserve(MOST_NODES)?;
        Ok(())
    }

    /// Adds what a task became that was worked at the search's goal, in the room that there is, and what is gained by that. A gate is told of a plan.
    fn add<G: Gate>(&mut self, instance: &Instance, piece: Piece, gain: Gain, gate: &G)
        requires one { vec_len self.old.pieces < vec_capacity self.old.pieces }
        requires split { vec_len self.old.tasks + MOST_NODES ≤ vec_capacity self.old.tasks }
        requires worked { (aims : Aims) × (task : Task) × IsGain instance.now (aim_of instance.now aims self.old.best) (record { task = task; piece = piece }) gain }
        ensures searching { (aims : Aims) (task : Task) (roots aside : List Task)
            → IsGain instance.now (aim_of instance.now aims self.old.best) (record { task = task; piece = piece }) gain
            → IsSearchingOf instance.now aims roots self.old.pieces.items ((aside ++ self.old.tasks.items) ++ task ∷ []) self.old.best
            → IsSearchingOf instance.now aims roots self.new.pieces.items (aside ++ self.new.tasks.items) self.new.best }
        ensures one { length self.new.pieces.items ≡ length self.old.pieces.items + 1 }
        ensures few { length self.new.tasks.items ≤ length self.old.tasks.items + MOST_NODES }
        ensures no_later { limit_of instance.now self.new.best ≤ limit_of instance.now self.old.best }
    {
        self.pieces.push_reserved(piece);
        match gain {
            Gain::Children(_, tasks) => open_all(&mut self.tasks, tasks),
            Gain::Nothing => {}
            Gain::Found(found) => {
                gate.found(instance, &found);
                self.best = Some(found);
            }
        }
    }

    /// Works the newest task, where there is one, on from the last one: whether it was worked. Where memory is refused, it is
    /// left. A gate is told of that, and of the plan that was found.
    pub fn turn<'a, G: Gate>(
        &mut self,
        site: &Site<'a, G>,
        bench: &mut Workbench<'a>,
        aims: Aims,
    ) -> bool
        requires searching { IsSomeSearch site.now.instance.now aims self.old }
        requires bench { IsWorkbenchOf site.now.instance.now bench.old }
        ensures searching { SearchGoesOn site.now.instance.now aims self.old self.new }
        ensures few { length self.new.tasks.items ≤ length self.old.tasks.items + MOST_NODES }
        ensures one { length self.new.pieces.items ≡ length self.old.pieces.items + cond result 1 0 }
        ensures no_later { limit_of site.now.instance.now self.new.best ≤ limit_of site.now.instance.now self.old.best }
        ensures bench { IsWorkbenchOf site.now.instance.now bench.new }
    {
        if self.make_room().is_err() {
            return false;
        }
        let Some(task) = self.tasks.pop() else {
            return false;
        };
        let goal = aim(site.instance, aims, &self.best);
        match work_task(site.alloc, site.instance, bench, task, goal) {
            Ok((piece, gain)) => {
                site.gate.worked(0, piece.node.children());
                self.add(site.instance, piece, gain, site.gate);
                true
            }
            Err(task) => {
                self.tasks.push_reserved(task);
                false
            }
        }
    }

    /// Makes the task that is to be worked next the newest.
    fn bring<'a, G: Gate>(&mut self, site: &Site<'a, G>, rising: &mut Rising<'a>)
        requires tasks { All (IsTask site.now.instance.now) self.old.tasks.items }
        requires bench { IsWorkbenchOf site.now.instance.now rising.old.bench }
        ensures searching { (aims : Aims) → SearchGoesOn site.now.instance.now aims self.old self.new }
        ensures pieces { self.new.pieces.items ≡ self.old.pieces.items }
        ensures best { self.new.best ≡ self.old.best }
        ensures bench { IsWorkbenchOf site.now.instance.now rising.new.bench }
    {
        let at = rising.pick(site, self.tasks.as_slice());
        let count = self.tasks.len();
        self.bring_last(at, count);
    }

    /// Makes a task the last of the first so many.
    pub fn bring_last(&mut self, at: usize, count: usize)
        ensures moved { IsPermutation self.old.tasks.items self.new.tasks.items }
        ensures pieces { self.new.pieces.items ≡ self.old.pieces.items }
        ensures best { self.new.best ≡ self.old.best }
    {
        if at < count && count <= self.tasks.len() {
            self.tasks.swap(at, count - 1);
        }
    }

    /// Works so many tasks, each time the one that is to be next in this order. Why it ended before, where memory was refused, or the gate said that it
    /// doesn't go on; where it is late the newest aren't worked any more.
    fn take_turns<'a, G: Gate>(
        &mut self,
        site: &Site<'a, G>,
        bench: &mut Workbench<'a>,
        rising: &mut Rising<'a>,
        turns: u64,
        order: Order,
        aims: Aims,
    ) -> Option<Why>
        requires searching { IsSomeSearch site.now.instance.now aims self.old }
        requires bench { IsWorkbenchOf site.now.instance.now bench.old }
        requires rising { IsWorkbenchOf site.now.instance.now rising.old.bench }
        ensures searching { SearchGoesOn site.now.instance.now aims self.old self.new }
        ensures within { length self.new.pieces.items ≤ length self.old.pieces.items + turns }
        ensures cut { IfSome result (IsCutShort (length self.old.pieces.items + turns) self.new.pieces.items) }
        ensures all { result ≡ None → order ≢ orders.Newest → length self.new.pieces.items ≡ length self.old.pieces.items + turns }
        ensures called_off { result ≡ Some why.CalledOff → G.ends site.now.gate.now }
        ensures no_later { limit_of site.now.instance.now self.new.best ≤ limit_of site.now.instance.now self.old.best }
    {
        for _turn in 0..turns {
            if !site.gate.goes_on(0) {
                return Some(Why::CalledOff);
            }
            if order == Order::Newest && site.gate.is_late() {
                return None;
            }
            self.bring(site, rising);
            if !self.turn(site, bench, aims) {
                return Some(Why::Memory);
            }
        }
        None
    }

    /// Works tasks in this order until `budget` pieces are made, or it is late for it. Why it ended before.
    fn work<G: Gate>(
        &mut self,
        site: &Site<'_, G>,
        budget: u64,
        order: Order,
        aims: Aims,
    ) -> Option<Why>
        requires searching { IsSomeSearch site.now.instance.now aims self.old }
        requires within { length self.old.pieces.items ≤ budget }
        ensures searching { SearchGoesOn site.now.instance.now aims self.old self.new }
        ensures within { length self.new.pieces.items ≤ budget }
        ensures cut { IfSome result (IsCutShort budget self.new.pieces.items) }
        ensures all { result ≡ None → order ≢ orders.Newest → length self.new.pieces.items ≡ budget }
        ensures called_off { result ≡ Some why.CalledOff → G.ends site.now.gate.now }
        ensures no_later { limit_of site.now.instance.now self.new.best ≤ limit_of site.now.instance.now self.old.best }
    {
        let mut bench = Workbench::new();
        let turns = budget - self.pieces.len() as u64;
        let most = aim(site.instance, aims, &self.best);
        let mut rising = Rising::new(site.alloc, site.instance, order, most, turns);
        let why = self.take_turns(site, &mut bench, &mut rising, turns, order, aims);
        drop(bench);
        drop(rising);
        why
    }

    /// Works tasks, the newest first until `part` pieces are made or the gate says that it is late, and then so that the bound rises, by all threads
    /// of the team. It ends where `budget` pieces are made, memory is refused, or the gate says that it doesn't go on. Why it ended, where tasks are
    /// left.
    pub fn go<R: Threads + Sync, G: Gate + Sync>(
        &mut self,
        team: &Team<'_, R>,
        site: &Site<'_, G>,
        part: u64,
        budget: u64,
        aims: Aims,
    ) -> Why
        requires searching { IsSomeSearch site.now.instance.now aims self.old }
        requires within { length self.old.pieces.items ≤ part }
        requires part { part ≤ budget }
        ensures searching { SearchGoesOn site.now.instance.now aims self.old self.new }
        ensures within { length self.new.pieces.items ≤ budget }
        ensures cause { IsWorkedOut budget self.new.pieces.items result }
        ensures called_off { result ≡ why.CalledOff → G.ends site.now.gate.now }
        ensures no_later { limit_of site.now.instance.now self.new.best ≤ limit_of site.now.instance.now self.old.best }
    {
        if let Some(why) = self.work(site, part, Order::Newest, aims) {
            return why;
        }
        self.rise(team, site, budget, aims);
        match self.work(site, budget, Order::Rising, aims) {
            Some(why) => why,
            None => Why::Budget,
        }
    }

    /// Works tasks on this thread, each time one with the fewest branches above it, so that many are left that take about as long. It ends where
    /// `budget` pieces are made, memory is refused, or the gate says that it doesn't go on. Why it ended, where tasks are left.
    pub fn widen<G: Gate>(&mut self, site: &Site<'_, G>, budget: u64, aims: Aims) -> Why
        requires searching { IsSomeSearch site.now.instance.now aims self.old }
        requires within { length self.old.pieces.items ≤ budget }
        ensures searching { SearchGoesOn site.now.instance.now aims self.old self.new }
        ensures within { length self.new.pieces.items ≤ budget }
        ensures cause { IsWorkedOut budget self.new.pieces.items result }
        ensures called_off { result ≡ why.CalledOff → G.ends site.now.gate.now }
        ensures no_later { limit_of site.now.instance.now self.new.best ≤ limit_of site.now.instance.now self.old.best }
    {
        match self.work(site, budget, Order::Widest, aims) {
            Some(why) => why,
            None => Why::Budget,
        }
    }
}
