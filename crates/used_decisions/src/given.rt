//! What did earlier steps of a leaf give?

ghost use Rattle.std.specs.Prelude.{◌≡◌, ◌∷◌, List, false, true, length, replicate, slice_set, IfOk};
ghost use Rattle.ttp_model.specs.declared.step.Step.{Step};
ghost use Rattle.ttp_model.specs.Instance.{Instance};
ghost use Rattle.tt_infer.specs.Targets.{target};
ghost use Rattle.used_decisions.specs.Tables.{order_place};
ghost use Rattle.used_decisions.specs.Given.{nothing_given, gives_least, gives_greatest, gives_before};
ghost use Rattle.used_decisions.specs.Steps.{HasFlags, IsGivenBy};

use crate::flags::Flags;
use std::alloc::Global;
use tt_infer::Fact;
use ttp_model::{Instance, MemoryFault};

/// What steps of the leaf that is read gave, which a branch above it needn't give then.
#[derive(Drop)]
pub struct Given {
    /// How many processes there are.
    processes: u32,
    /// By message, its least round.
    least: Flags,
    /// By message, its greatest round.
    greatest: Flags,
    /// By two processes, a row for each first one, that it goes before the second.
    before: Flags,
}

impl Given {
    /// In front of all leaves.
    pub fn nothing(alloc: Global, instance: &Instance) -> Result<Given, MemoryFault>
        ensures { IfOk result (λ given. given ≡ nothing_given (length instance.now.processes) (length instance.now.messages)) }
    {
        let messages = instance.messages().len();
        let processes = instance.processes().len() as u32;
        let pairs = processes as usize * processes as usize;
        Ok(Given {
            processes,
            least: Flags::down(alloc, messages)?,
            greatest: Flags::down(alloc, messages)?,
            before: Flags::down(alloc, pairs)?,
        })
    }

    /// Goes on to the next leaf, of which no step gave anything yet.
    pub fn begin_leaf(&mut self)
        ensures processes { self.new.processes ≡ self.old.processes }
        ensures least { self.new.least ≡ replicate (length self.old.least) false }
        ensures greatest { self.new.greatest ≡ replicate (length self.old.greatest) false }
        ensures before { self.new.before ≡ replicate (length self.old.before) false }
    {
        self.least.take_down();
        self.greatest.take_down();
        self.before.take_down();
    }

    /// A step gives a message's least round.
    fn give_least(&mut self, m: u32)
        ensures { self.new ≡ record self.old { least = slice_set self.old.least m true } }
    {
        self.least.put_up(m as usize);
    }

    /// A step gives a message's greatest round.
    fn give_greatest(&mut self, m: u32)
        ensures { self.new ≡ record self.old { greatest = slice_set self.old.greatest m true } }
    {
        self.greatest.put_up(m as usize);
    }

    /// Where the flag of an order stands: behind all flags, where a process isn't there.
    fn place(&self, p: u32, q: u32) -> usize
        ensures { result ≡ order_place self.now.processes p q }
    {
        let count = self.processes as usize;
        if p < self.processes && q < self.processes {
            p as usize * count + q as usize
        } else {
            count * count
        }
    }

    /// A step gives that a process goes before another.
    fn give_before(&mut self, p: u32, q: u32)
        ensures { self.new ≡ record self.old { before = slice_set self.old.before (order_place self.old.processes p q) true } }
    {
        let place = self.place(p, q);
        self.before.put_up(place);
    }

    /// A step gives a fact.
    pub fn give(&mut self, fact: Fact)
        ensures flags { (i : Instance) → HasFlags i self.old → HasFlags i self.new }
        ensures given { (i : Instance) (before : List Step) (step : Step) → fact ≡ target i step
            → IsGivenBy i self.old before → IsGivenBy i self.new (step ∷ before) }
    {
        match fact {
            Fact::Start(_) => {}
            Fact::End(_) => {}
            Fact::FirstRound(m) => self.give_least(m),
            Fact::LateRound(m) => self.give_greatest(m),
            Fact::Order(p, q) => self.give_before(p, q),
            Fact::Closed => {}
        }
    }

    pub fn has_least(&self, m: u32) -> bool
        ensures { result ≡ gives_least self.now m }
    {
        self.least.is_up(m as usize)
    }

    pub fn has_greatest(&self, m: u32) -> bool
        ensures { result ≡ gives_greatest self.now m }
    {
        self.greatest.is_up(m as usize)
    }

    pub fn has_before(&self, p: u32, q: u32) -> bool
        ensures { result ≡ gives_before self.now p q }
    {
        self.before.is_up(self.place(p, q))
    }
}
