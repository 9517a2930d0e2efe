//! What is known of the plans that are sought, and how is it sharpened?

ghost use Rattle.std.specs.Prelude.{◌≡◌, ℕ, ◌+◌, ◌<◌, ◌≤◌, length, min, max, map, replicate, IfOk, OnOk};
ghost use Rattle.ttp_model.specs.declared.limits.TheConstants.{MOST_TICKS};
ghost use Rattle.tt_choice.specs.Choice.{IsChoice, greatest_round};
ghost use Rattle.sought_plans.specs.Known.{Known, Fits, es_of, le_of, lo_of, top_of, bef_of, first_facts};
ghost use Rattle.sought_plans.specs.Conclusions.{StartsFrom, EndsUntil, SentFrom, SentBefore, GoesFirst, NothingLeft, sharpened};

use crate::rooms::refill;
use std::alloc::Global;
use std::marker::Model;
use tt_choice::{Choice, Precedence};
use ttp_model::{Instance, MemoryFault};

/// Known on starts, ends and rounds, and which processes go before which.
#[derive(Drop)]
pub struct Known {
    /// By process, when it starts at least.
    es: Vec<u32>,
    /// By process, when it ends at most.
    le: Vec<u32>,
    /// By message, its least round.
    lo: Vec<u32>,
    /// By message, the first round that is too late.
    top: Vec<u32>,
    bef: Precedence,
    closed: bool,
}

impl Model for Known {
    ghost use Rattle.sought_plans.specs.Known.{Known};

    ghost Value = { Known };

    ghost view = { λ s. record { es = s.es.items; le = s.le.items; lo = s.lo.items; top = s.top.items; bef = s.bef; closed = s.closed } };
}

/// The lesser of two times, the second of which may be long.
fn lesser(a: u32, b: u64) -> u32
    ensures { result ≡ min a b }
{
    if u64::from(a) <= b { a } else { b as u32 }
}

/// Puts so many times the same number in place of those that are there.
fn fill_alike(numbers: &mut Vec<u32>, number: u32, count: usize) -> Result<(), MemoryFault>
    ensures { OnOk result (numbers.new.items ≡ replicate count number) }
{
    numbers.clear();
    numbers.resize(count, number)?;
    Ok(())
}

/// Puts the least round of each message in place of those that are there.
fn fill_least(rounds: &mut Vec<u32>, choice: &Choice, messages: u32) -> Result<(), MemoryFault>
    requires { length choice.now.lo ≡ messages }
    ensures { OnOk result (rounds.new.items ≡ choice.now.lo) }
{
    rounds.clear();
    rounds.reserve(messages as usize)?;
    for m in 0..messages {
        rounds.push(choice.lo(m))?;
    }
    Ok(())
}

/// Puts the first round of each message that is too late in place of those that are there.
fn fill_late(rounds: &mut Vec<u32>, choice: &Choice, messages: u32) -> Result<(), MemoryFault>
    requires all { length choice.now.hi ≡ messages }
    requires early { (m : ℕ) → m < messages → greatest_round choice.now m < MOST_TICKS }
    ensures { OnOk result (rounds.new.items ≡ map (λ r. r + 1) choice.now.hi) }
{
    rounds.clear();
    rounds.reserve(messages as usize)?;
    for m in 0..messages {
        rounds.push(choice.hi(m) + 1)?;
    }
    Ok(())
}

impl Known {
    /// What is known at first.
    pub fn first(alloc: Global, instance: &Instance, choice: &Choice) -> Result<Self, MemoryFault>
        requires { IsChoice instance.now choice.now }
        ensures { IfOk result (λ f. f ≡ first_facts instance.now choice.now) }
    {
        let nothing = Known {
            es: Vec::new(alloc),
            le: Vec::new(alloc),
            lo: Vec::new(alloc),
            top: Vec::new(alloc),
            bef: Precedence::none(alloc, 0)?,
            closed: false,
        };
        nothing.restarted(instance, choice)
    }

    /// What is known at first, in the room of what was known.
    pub fn restarted(self, instance: &Instance, choice: &Choice) -> Result<Self, MemoryFault>
        requires { IsChoice instance.now choice.now }
        ensures { IfOk result (λ f. f ≡ first_facts instance.now choice.now) }
    {
        let mut known = self;
        match known.restart(instance, choice) {
            Ok(()) => Ok(known),
            Err(fault) => {
                drop(known);
                Err(fault)
            }
        }
    }

    /// Becomes what is known at first, in the memory that it has where that suffices. After a refusal it is of use no more.
    fn restart(&mut self, instance: &Instance, choice: &Choice) -> Result<(), MemoryFault>
        requires { IsChoice instance.now choice.now }
        ensures { OnOk result (self.new ≡ first_facts instance.now choice.now) }
    {
        let processes = instance.processes().len();
        let messages = instance.messages().len() as u32;
        self.bef.set_to(choice.precedence())?;
        fill_alike(&mut self.es, 0, processes)?;
        fill_alike(&mut self.le, instance.cluster().horizon, processes)?;
        fill_least(&mut self.lo, choice, messages)?;
        fill_late(&mut self.top, choice, messages)?;
        self.closed = false;
        Ok(())
    }

    /// The same as is known elsewhere, in the room of what was known.
    pub fn set_to(self, other: &Known) -> Result<Self, MemoryFault>
        ensures { IfOk result (λ f. f ≡ other.now) }
    {
        let mut known = self;
        match known.become_same(other) {
            Ok(()) => Ok(known),
            Err(fault) => {
                drop(known);
                Err(fault)
            }
        }
    }

    /// Becomes the same as is known elsewhere, in the memory that it has where that suffices. After a refusal it is of use no
    /// more.
    fn become_same(&mut self, other: &Known) -> Result<(), MemoryFault>
        ensures { OnOk result (self.new ≡ other.now) }
    {
        self.bef.set_to(&other.bef)?;
        refill(&mut self.es, other.es.as_slice())?;
        refill(&mut self.le, other.le.as_slice())?;
        refill(&mut self.lo, other.lo.as_slice())?;
        refill(&mut self.top, other.top.as_slice())?;
        self.closed = other.closed;
        Ok(())
    }

    /// Process `p` starts at this time or later.
    pub fn es(&self, p: u32) -> u32
        requires { p < length self.now.es }
        ensures { result ≡ es_of self.now p }
    {
        self.es[p as usize]
    }

    /// Process `p` ends at this time or earlier.
    pub fn le(&self, p: u32) -> u32
        requires { p < length self.now.le }
        ensures { result ≡ le_of self.now p }
    {
        self.le[p as usize]
    }

    /// Message `m` is sent in this round or later.
    pub fn lo(&self, m: u32) -> u32
        requires { m < length self.now.lo }
        ensures { result ≡ lo_of self.now m }
    {
        self.lo[m as usize]
    }

    /// Message `m` is sent in an earlier round.
    pub fn top(&self, m: u32) -> u32
        requires { m < length self.now.top }
        ensures { result ≡ top_of self.now m }
    {
        self.top[m as usize]
    }

    /// By process, when it starts at least.
    pub fn starts(&self) -> &[u32]
        ensures { result.now ≡ self.now.es }
    {
        self.es.as_slice()
    }

    /// By process, when it ends at most.
    pub fn ends(&self) -> &[u32]
        ensures { result.now ≡ self.now.le }
    {
        self.le.as_slice()
    }

    /// By message, its least round.
    pub fn first_rounds(&self) -> &[u32]
        ensures { result.now ≡ self.now.lo }
    {
        self.lo.as_slice()
    }

    /// By message, the first round that is too late.
    pub fn late_rounds(&self) -> &[u32]
        ensures { result.now ≡ self.now.top }
    {
        self.top.as_slice()
    }

    /// Whether process `p` is known to end before `q` starts.
    pub fn bef(&self, p: u32, q: u32) -> bool
        ensures { result ≡ bef_of self.now p q }
    {
        self.bef.goes_before(p, q)
    }

    /// Whether no plan is left.
    pub fn is_closed(&self) -> bool
        ensures { result ≡ self.now.closed }
    {
        self.closed
    }

    /// Process `p` starts at `time` or later.
    pub fn start_from(&mut self, instance: &Instance, p: u32, time: u64)
        requires { p < length self.old.es }
        ensures { self.new ≡ sharpened instance.now self.old (StartsFrom p time) }
    {
        let new = self.es[p as usize].max(lesser(instance.past_horizon(), time));
        self.es[p as usize] = new;
    }

    /// Process `p` ends at `time` or earlier.
    pub fn end_until(&mut self, instance: &Instance, p: u32, time: u64)
        requires { p < length self.old.le }
        ensures { self.new ≡ sharpened instance.now self.old (EndsUntil p time) }
    {
        let new = lesser(self.le[p as usize], time);
        self.le[p as usize] = new;
    }

    /// Message `m` is sent in round `r` or later.
    pub fn sent_from(&mut self, instance: &Instance, m: u32, r: u64)
        requires { m < length self.old.lo }
        ensures { self.new ≡ sharpened instance.now self.old (SentFrom m r) }
    {
        let new = self.lo[m as usize].max(lesser(instance.past_horizon(), r));
        self.lo[m as usize] = new;
    }

    /// Message `m` is sent in a round before `r`.
    pub fn sent_before(&mut self, instance: &Instance, m: u32, r: u64)
        requires { m < length self.old.top }
        ensures { self.new ≡ sharpened instance.now self.old (SentBefore m r) }
    {
        let new = lesser(self.top[m as usize], r);
        self.top[m as usize] = new;
    }

    /// Process `p` ends before `q` starts.
    pub fn go_first(&mut self, instance: &Instance, p: u32, q: u32)
        requires fits { Fits instance.now self.old }
        requires first { p < length instance.now.processes }
        requires second { q < length instance.now.processes }
        ensures { self.new ≡ sharpened instance.now self.old (GoesFirst p q) }
    {
        self.bef.put(p, q);
    }

    /// No plan is left.
    pub fn close(&mut self, instance: &Instance)
        ensures { self.new ≡ sharpened instance.now self.old NothingLeft }
    {
        self.closed = true;
    }
}
