//! What is a search at one moment, and what does an event make of it?

ghost use Rattle.std.specs.Prelude.{◌≡◌, ◌≤◌, IfOk};
ghost use Rattle.search_core.specs.World.{start};
ghost use Rattle.search_core.specs.Steps.{Answers, Runs};
ghost use Rattle.search_core.specs.declared.event.Event.TheVariants.{Pop, Steal, Look, Work, Push, Offer, Rest};

use crate::event::{Event, Worked};
use crate::reply::{Illegal, Reply};
use crate::worker::Worker;
use search_trees::Name;
use std::alloc::Global;
use std::collections::VecDeque;
use std::marker::Model;
use ttp_model::MemoryFault;

/// A search at one moment: the best delay in ticks, and the workers.
#[derive(Drop)]
pub struct World {
    best: u32,
    workers: Vec<Worker>,
}

impl Model for World {
    ghost use Rattle.search_core.specs.World.{World};

    ghost Value = { World };

    ghost view = { λ s. record { best = s.best; seats = s.workers.items } };
}

impl World {
    /// The core before the first event: the root's name in the first worker's deque, and `top` as the
    /// best delay that is known and that each worker has seen.
    pub fn start(alloc: Global, workers: u32, top: u32) -> Result<Self, MemoryFault>
        requires { 1 ≤ workers }
        ensures { IfOk result (λ world. world ≡ start workers top) }
    {
        let mut idle = Vec::with_capacity(alloc, workers as usize)?;
        idle.push(Worker::with_name(alloc, top, Name::root(alloc))?)?;
        for _ in 1..workers {
            idle.push(Worker::idle(alloc, top))?;
        }
        Ok(World {
            best: top,
            workers: idle,
        })
    }

    /// The best delay in ticks that was offered, or what the core began with.
    pub fn best(&self) -> u32
        ensures { result ≡ self.now.best }
    {
        self.best
    }

    pub fn workers(&self) -> &[Worker]
        ensures { result.now ≡ self.now.seats }
    {
        self.workers.as_slice()
    }

    pub fn into_workers(self) -> Vec<Worker>
        ensures { result.items ≡ self.seats }
    {
        let World { best: _, workers } = self;
        workers
    }

    /// One event: its reply, or why it is refused; then nothing is changed.
    pub fn step(&mut self, alloc: Global, event: Event) -> Result<Reply, Illegal>
        ensures { Answers self.old event result self.new }
    {
        match event {
            Event::Pop(worker) => self.pop(alloc, worker),
            Event::Steal(worker, other) => self.steal(alloc, worker, other),
            Event::Look(worker) => self.look(worker),
            Event::Work(worker, worked) => self.work(alloc, worker, worked),
            Event::Push(worker) => self.push(alloc, worker),
            Event::Offer(worker) => self.offer(worker),
            Event::Rest(worker) => self.rest(alloc, worker),
        }
    }

    /// Events one after another. Stops at the first that is refused; those before it are done.
    pub fn run(&mut self, alloc: Global, events: Vec<Event>) -> Result<(), Illegal>
        ensures { Runs self.old events.items result self.new }
    {
        let mut waiting = VecDeque::from_vec(events);
        while let Some(event) = waiting.pop_front() {
            self.step(alloc, event)?;
        }
        Ok(())
    }

    fn pop(&mut self, alloc: Global, worker: u32) -> Result<Reply, Illegal>
        ensures { Answers self.old (Pop worker) result self.new }
    {
        let at = worker as usize;
        if at >= self.workers.len() {
            return Err(Illegal::NoSuchWorker);
        }
        let name = self.workers[at].pop(alloc)?;
        Ok(Reply::Name(name))
    }

    fn steal(&mut self, alloc: Global, worker: u32, other: u32) -> Result<Reply, Illegal>
        ensures { Answers self.old (Steal worker other) result self.new }
    {
        let (at, from) = (worker as usize, other as usize);
        let count = self.workers.len();
        if at >= count || from >= count || at == from {
            return Err(Illegal::NoSuchWorker);
        }
        if !self.workers[at].is_idle() {
            return Err(Illegal::WrongHand);
        }
        let (name, copy) = self.workers[from].lose_first(alloc)?;
        self.workers[at].receive(name);
        Ok(Reply::Name(copy))
    }

    fn look(&mut self, worker: u32) -> Result<Reply, Illegal>
        ensures { Answers self.old (Look worker) result self.new }
    {
        let at = worker as usize;
        if at >= self.workers.len() {
            return Err(Illegal::NoSuchWorker);
        }
        let best = self.best;
        self.workers[at].look(best)?;
        Ok(Reply::Best(best))
    }

    fn work(&mut self, alloc: Global, worker: u32, worked: Worked) -> Result<Reply, Illegal>
        ensures { Answers self.old (Work worker worked) result self.new }
    {
        let at = worker as usize;
        if at >= self.workers.len() {
            return Err(Illegal::NoSuchWorker);
        }
        self.workers[at].work(alloc, worked)?;
        Ok(Reply::Done)
    }

    fn push(&mut self, alloc: Global, worker: u32) -> Result<Reply, Illegal>
        ensures { Answers self.old (Push worker) result self.new }
    {
        let at = worker as usize;
        if at >= self.workers.len() {
            return Err(Illegal::NoSuchWorker);
        }
        self.workers[at].push(alloc)?;
        Ok(Reply::Done)
    }

    fn offer(&mut self, worker: u32) -> Result<Reply, Illegal>
        ensures { Answers self.old (Offer worker) result self.new }
    {
        let at = worker as usize;
        if at >= self.workers.len() {
            return Err(Illegal::NoSuchWorker);
        }
        let value = self.workers[at].offer()?;
        self.best = self.best.min(value);
        Ok(Reply::Best(self.best))
    }

    fn rest(&mut self, alloc: Global, worker: u32) -> Result<Reply, Illegal>
        ensures { Answers self.old (Rest worker) result self.new }
    {
        let at = worker as usize;
        if at >= self.workers.len() {
            return Err(Illegal::NoSuchWorker);
        }
        self.workers[at].rest(alloc)?;
        Ok(Reply::Done)
    }
}
