//! Which plans are sought, and when can messages be sent in them?

ghost use Rattle.std.specs.Prelude.{◌≡◌, ℕ, ◌+◌, ◌^◌, ◌<◌, ◌≤◌, ◌↔◌, [], IfOk, OnOk, length};
ghost use Rattle.ttp_model.specs.declared.limits.TheConstants.{MOST_BYTES, MOST_DURATION};
ghost use Rattle.tt_choice.specs.Choice.{IsChoice, bare};
ghost use Rattle.tt_choice.specs.Decisions.{choice_after, IsOpenDecision};
ghost use Rattle.tt_choice.specs.Extremes.{start_least, start_most, end_least, end_most, cap_least, cap_most, dur_least};
ghost use Rattle.sought_plans.specs.Setting.{AreSlotTimes, AreShort, AreSlots};

use crate::rooms::refilled;
use crate::slots::{SlotTimes, slots_of};
use std::alloc::Global;
use std::marker::Model;
use tt_choice::{Choice, Decision};
use ttp_model::{Instance, MemoryFault};

/// The plans of a choice with a delay below a goal, and how far their slots move.
#[derive(Drop)]
pub struct Setting<'a> {
    instance: &'a Instance,
    choice: Choice,
    /// In ticks.
    goal: u32,
    /// By node.
    slots: Vec<SlotTimes>,
}

impl<'a> Model for Setting<'a> {
    ghost use Rattle.sought_plans.specs.Setting.{Setting, IsSetting};

    ghost Value = { Setting };

    ghost view = { λ s. record { instance = s.instance.now; choice = s.choice; goal = s.goal } };

    ghost invariant = { λ s. IsSetting (record {
      instance = s.instance.now;
      choice = s.choice;
      goal = s.goal;
    }) s.slots.items };
}

/// The slots of all nodes after a decision, in this room. Where slots stand and how long they are changes with a place and a
/// capacity alone.
fn slots_after(
    room: Vec<SlotTimes>,
    before: &Setting,
    choice: &Choice,
    decision: Decision,
) -> Result<Vec<SlotTimes>, MemoryFault>
    requires of { IsChoice before.now.instance choice.now }
    requires after { choice.now ≡ choice_after before.now.instance before.now.choice decision }
    ensures { IfOk result (λ slots. AreSlots before.now.instance choice.now slots.items) }
{
    match decision {
        Decision::Place(_) | Decision::Cap(_, _) => slots_of(room, before.instance(), choice),
        Decision::Before(_, _)
        | Decision::AtMost(_, _)
        | Decision::AtLeast(_, _)
        | Decision::Channel(_, _) => refilled(room, before.slots.as_slice()),
    }
}

/// The choice becomes that of a setting after a decision: the slots of all nodes there, in this room. After a refusal it is of use no
/// more.
fn become_after(
    alloc: Global,
    choice: &mut Choice,
    room: Vec<SlotTimes>,
    before: &Setting,
    decision: Decision,
) -> Result<Vec<SlotTimes>, MemoryFault>
    requires bare { choice.old.kept ≡ [] }
    requires open { IsOpenDecision before.now.instance before.now.choice decision }
    ensures of { OnOk result (IsChoice before.now.instance choice.new) }
    ensures after { OnOk result (choice.new ≡ choice_after before.now.instance before.now.choice decision) }
    ensures slots { IfOk result (λ slots. AreSlots before.now.instance choice.new slots.items) }
{
    let instance = before.instance();
    choice.set_to(before.choice())?;
    choice.change(alloc, instance, decision)?;
    slots_after(room, before, choice, decision)
}

impl<'a> Setting<'a> {
    /// Keeps a copy of the choice.
    pub fn new(
        alloc: Global,
        instance: &'a Instance,
        choice: &Choice,
        goal: u32,
    ) -> Result<Setting<'a>, MemoryFault>
        requires of { IsChoice instance.now choice.now }
        ensures { IfOk result (λ s. s ≡ record {
          instance = instance.now;
          choice = choice.now;
          goal = goal;
        }) }
    {
        let _nodes = instance.nodes();
        let slots = slots_of(Vec::new(alloc), instance, choice)?;
        Ok(Setting {
            instance,
            choice: choice.whole_copy(alloc)?,
            goal,
            slots,
        })
    }

    /// The plans of another one that are as decided, in the room of this one.
    pub fn after(
        self,
        alloc: Global,
        before: &Setting<'a>,
        decision: Decision,
    ) -> Result<Setting<'a>, MemoryFault>
        requires { IsOpenDecision before.now.instance before.now.choice decision }
        ensures { IfOk result (λ s. s ≡ record {
          instance = before.now.instance;
          choice = choice_after before.now.instance before.now.choice decision;
          goal = before.now.goal;
        }) }
    {
        let instance = before.instance();
        let Setting { choice, slots, .. } = self;
        let mut choice = choice.bare();
        match become_after(alloc, &mut choice, slots, before, decision) {
            Ok(slots) => Ok(Setting {
                instance,
                choice,
                goal: before.goal,
                slots,
            }),
            Err(fault) => {
                drop(choice);
                Err(fault)
            }
        }
    }

    /// The same plans as of another one, in the room of this one. No decision is kept.
    pub fn set_to(self, before: &Setting<'a>) -> Result<Setting<'a>, MemoryFault>
        ensures { IfOk result (λ s. s ≡ record {
          instance = before.now.instance;
          choice = bare before.now.choice;
          goal = before.now.goal;
        }) }
    {
        let mut choice = self.choice.bare();
        choice.set_to(before.choice())?;
        let slots = refilled(self.slots, before.slots.as_slice())?;
        Ok(Setting {
            instance: before.instance,
            choice,
            goal: before.goal,
            slots,
        })
    }

    /// The plans of another choice of the instance with a delay below another goal, in the room of this one. No decision is kept.
    pub fn turned(self, choice: &Choice, goal: u32) -> Result<Setting<'a>, MemoryFault>
        requires of { IsChoice self.instance choice.now }
        ensures { IfOk result (λ s. s ≡ record {
          instance = self.entry.instance;
          choice = bare choice.now;
          goal = goal;
        }) }
    {
        let instance = self.instance;
        let mut own = self.choice.bare();
        own.set_to(choice)?;
        let slots = slots_of(self.slots, instance, &own)?;
        Ok(Setting {
            instance,
            choice: own,
            goal,
            slots,
        })
    }

    pub fn instance(&self) -> &'a Instance
        ensures { result.now ≡ self.now.instance }
    {
        self.instance
    }

    pub fn choice(&self) -> &Choice
        ensures value { result.now ≡ self.now.choice }
        ensures of { IsChoice self.now.instance self.now.choice }
    {
        &self.choice
    }

    pub fn goal(&self) -> u32
        ensures { result ≡ self.now.goal }
    {
        self.goal
    }

    /// The slot of node `n`.
    fn slot(&self, n: u32) -> &SlotTimes
        requires { n < length self.now.instance.nodes }
        ensures times { AreSlotTimes self.now.instance self.now.choice n result.now }
        ensures short { AreShort result.now }
    {
        &self.slots[n as usize]
    }

    /// When the slot of node `n` begins in round `r` at least, in ticks.
    pub fn start_least(&self, n: u32, r: u32) -> u64
        requires { n < length self.now.instance.nodes }
        ensures value { result ≡ start_least self.now.instance self.now.choice n r }
        ensures bound { result < 2 ^ 58 }
    {
        let slot = self.slot(n);
        u64::from(r) * slot.round_least + slot.offset_least
    }

    /// When the slot of node `n` begins in round `r` at most, in ticks.
    pub fn start_most(&self, n: u32, r: u32) -> u64
        requires { n < length self.now.instance.nodes }
        ensures value { result ≡ start_most self.now.instance self.now.choice n r }
        ensures bound { result < 2 ^ 58 }
    {
        let slot = self.slot(n);
        u64::from(r) * slot.round_most + slot.offset_most
    }

    /// When the slot of node `n` ends in round `r` at least, in ticks.
    pub fn end_least(&self, n: u32, r: u32) -> u64
        requires { n < length self.now.instance.nodes }
        ensures value { result ≡ end_least self.now.instance self.now.choice n r }
        ensures bound { result < 2 ^ 59 }
    {
        let slot = self.slot(n);
        u64::from(r) * slot.round_least + slot.offset_least + slot.dur_least
    }

    /// When the slot of node `n` ends in round `r` at most, in ticks.
    pub fn end_most(&self, n: u32, r: u32) -> u64
        requires { n < length self.now.instance.nodes }
        ensures value { result ≡ end_most self.now.instance self.now.choice n r }
        ensures bound { result < 2 ^ 59 }
    {
        self.start_most(n, r) + self.slot(n).dur_most
    }

    /// The least duration of the slot of node `n`, in ticks.
    pub fn dur_least(&self, n: u32) -> u64
        requires { n < length self.now.instance.nodes }
        ensures value { result ≡ dur_least self.now.instance self.now.choice n }
        ensures bound { result ≤ MOST_DURATION }
    {
        self.slot(n).dur_least
    }

    /// The bytes that the slot of node `n` carries at least.
    pub fn cap_least(&self, n: u32) -> u32
        requires { n < length self.now.instance.nodes }
        ensures value { result ≡ cap_least self.now.instance self.now.choice n }
        ensures bound { result ≤ MOST_BYTES }
    {
        self.slot(n).cap_least
    }

    /// The bytes that the slot of node `n` carries at most.
    pub fn cap_most(&self, n: u32) -> u32
        requires { n < length self.now.instance.nodes }
        ensures value { result ≡ cap_most self.now.instance self.now.choice n }
        ensures bound { result ≤ MOST_BYTES }
    {
        self.slot(n).cap_most
    }

    /// The first round whose slot of node `n` may begin at `time` or later. One division.
    pub fn first_round_from(&self, n: u32, time: u64) -> u64
        requires { n < length self.now.instance.nodes }
        ensures late_enough { time ≤ start_most self.now.instance self.now.choice n result }
        ensures least { (r : ℕ) → time ≤ start_most self.now.instance self.now.choice n r → result ≤ r }
    {
        let slot = self.slot(n);
        if time <= slot.offset_most {
            0
        } else {
            (time - slot.offset_most - 1) / slot.round_most + 1
        }
    }

    /// The rounds whose slot of node `n` may end so early that `time` is no less than `wait` later
    /// are those below the answer. One division.
    pub fn rounds_until(&self, n: u32, wait: u64, time: u32) -> u64
        requires node { n < length self.now.instance.nodes }
        requires short { wait < 2 ^ 33 }
        ensures { (r : ℕ) → (r < result) ↔ (end_least self.now.instance self.now.choice n r + wait ≤ time) }
    {
        let slot = self.slot(n);
        let first = slot.offset_least + slot.dur_least + wait;
        let time = u64::from(time);
        if time < first {
            0
        } else {
            (time - first) / slot.round_least + 1
        }
    }
}
