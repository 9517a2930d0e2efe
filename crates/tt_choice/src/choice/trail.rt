//! How are decisions kept, and taken back?

ghost use Rattle.std.specs.Prelude.{◌≡◌, ◌<◌, length, slice_set, OnOk, OnErr};
ghost use Rattle.ttp_model.specs.Instance.{Instance};
ghost use Rattle.tt_choice.specs.declared.decision.Decision.{Decision};
ghost use Rattle.tt_choice.specs.Choice.{Choice, IsChoice};
ghost use Rattle.tt_choice.specs.Decisions.{IsOpenDecision, reversal_of, kept_after, taken_back, IsUndone};

use crate::choice::Choice;
use crate::decision::Decision;
use crate::reversal::Reversal;
use std::alloc::Global;
use std::mem;
use ttp_model::{Instance, MemoryFault};

/// Writes an item at a place, where that is there.
fn write_at<T: Copy>(items: &mut Vec<T>, place: u32, item: T)
    ensures { items.new.items ≡ slice_set items.old.items place item }
{
    if (place as usize) < items.len() {
        items[place as usize] = item;
    }
}

impl Choice {
    /// How many decisions are kept: as often `undo` can be called.
    pub fn kept(&self) -> usize
        ensures { result ≡ length self.now.kept }
    {
        self.kept.len()
    }

    /// Makes an open decision and keeps it, so that `undo` can take it back. Unchanged after a refusal.
    pub fn decide(
        &mut self,
        alloc: Global,
        instance: &Instance,
        decision: Decision,
    ) -> Result<(), MemoryFault>
        requires of { IsChoice instance.now self.old }
        requires is_open { IsOpenDecision instance.now self.old decision }
        ensures ok { OnOk result (self.new ≡ kept_after instance.now self.old decision) }
        ensures choice { OnOk result (IsChoice instance.now self.new) }
        ensures err { OnErr result (self.new ≡ self.old) }
    {
        let reversal = self.reversal(instance, decision);
        self.kept.reserve(1)?;
        // What is kept stands aside while the choice changes.
        let mut kept = mem::replace(&mut self.kept, Vec::new(alloc));
        let made = self.change(alloc, instance, decision);
        if made.is_ok() {
            kept.push_reserved(reversal);
        }
        self.kept = kept;
        made
    }

    /// Takes the last kept decision back. Takes no memory.
    pub fn undo(&mut self)
        requires { 0 < length self.old.kept }
        ensures value { IsUndone self.old self.new }
        ensures back { (i : Instance) (c : Choice) (decision : Decision)
            → IsChoice i c → IsOpenDecision i c decision
            → self.old ≡ kept_after i c decision → self.new ≡ c }
    {
        let reversal = self.kept.take_last();
        self.take_back(reversal);
    }

    /// What takes a decision back that is to be made.
    fn reversal(&self, instance: &Instance, decision: Decision) -> Reversal
        requires of { IsChoice instance.now self.now }
        requires is_open { IsOpenDecision instance.now self.now decision }
        ensures { result ≡ reversal_of self.now decision }
    {
        match decision {
            Decision::Place(_) => Reversal::Unplace,
            Decision::Cap(n, _) => Reversal::Free(n),
            Decision::Before(p, q) => Reversal::Unorder {
                first: p,
                second: q,
                unordered: self.unordered,
            },
            Decision::AtMost(m, _) => Reversal::Most(m, self.hi(m)),
            Decision::AtLeast(m, _) => Reversal::Least(m, self.lo(m)),
            Decision::Channel(m, _) => Reversal::FreeChannel(m),
        }
    }

    /// Changes what a decision changed to what it was. Those that are kept stay so.
    fn take_back(&mut self, reversal: Reversal)
        ensures { self.new ≡ record (taken_back self.old reversal) { kept = self.old.kept } }
    {
        match reversal {
            Reversal::Unplace => {
                let _last = self.prefix.pop();
            }
            Reversal::Free(n) => write_at(&mut self.fixed, n, None),
            Reversal::Unorder {
                first,
                second,
                unordered,
            } => {
                self.before.take_back(first, second);
                self.unordered = unordered;
            }
            Reversal::Most(m, r) => write_at(&mut self.hi, m, r),
            Reversal::Least(m, r) => write_at(&mut self.lo, m, r),
            Reversal::FreeChannel(m) => write_at(&mut self.channels, m, None),
        }
    }
}
