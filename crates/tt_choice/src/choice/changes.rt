//! What does one more decision change? A choice that keeps decisions is changed by `decide` and `undo` alone.

ghost use Rattle.std.specs.Prelude.{◌≡◌, ◌<◌, ◌≤◌, ◌↔◌, [], length, slice_index, None, IsOk, OnOk, OnErr};
ghost use Rattle.ttp_model.specs.Instance.{Instance, node_at};
ghost use Rattle.ttp_model.specs.Limits.{both_channels};
ghost use Rattle.ttp_model.specs.Plans.{EndsBefore, channel_of, round_of};
ghost use Rattle.ttp_model.specs.declared.plan.Plan.{Plan};
ghost use Rattle.tt_choice.specs.Choice.{IsChoice, IsIn, fixed_channel, least_round, greatest_round};
ghost use Rattle.tt_choice.specs.Decisions.{choice_after, IsOpenDecision};
ghost use Rattle.tt_choice.specs.Branches.{IsUnplaced, IsOpen, place_next, fix_option, order_pair, at_most, at_least, fix_channel};

use crate::choice::Choice;
use crate::decision::Decision;
use std::alloc::Global;
use ttp_model::{Instance, Kind, MemoryFault};

/// The option of node `n` at place `k`.
fn option_at(instance: &Instance, n: u32, k: u32) -> u32
    requires node { n < length instance.now.nodes }
    requires option { k < length (node_at instance.now n).capacities }
    ensures { result ≡ slice_index (node_at instance.now n).capacities k }
{
    instance.nodes()[n as usize].capacities.as_slice()[k as usize]
}

impl Choice {
    /// Makes an open decision. Unchanged after a refusal.
    pub fn change(
        &mut self,
        alloc: Global,
        instance: &Instance,
        decision: Decision,
    ) -> Result<(), MemoryFault>
        requires of { IsChoice instance.now self.old }
        requires bare { self.old.kept ≡ [] }
        requires open { IsOpenDecision instance.now self.old decision }
        ensures ok { OnOk result (self.new ≡ choice_after instance.now self.old decision) }
        ensures choice { OnOk result (IsChoice instance.now self.new) }
        ensures err { OnErr result (self.new ≡ self.old) }
    {
        let _messages = instance.messages();
        match decision {
            Decision::Place(n) => self.place(alloc, instance, n),
            Decision::Cap(n, k) => self.fix_cap(alloc, instance, n, k),
            Decision::Before(p, q) => self.before(alloc, instance, p, q),
            Decision::AtMost(m, r) => {
                self.rounds_at_most(m, r);
                Ok(())
            }
            Decision::AtLeast(m, r) => {
                self.rounds_at_least(m, r);
                Ok(())
            }
            Decision::Channel(m, k) => {
                self.fix_channel(m, k);
                Ok(())
            }
        }
    }

    /// Puts node `n` next in the slot order. Unchanged after a refusal.
    pub fn place(&mut self, _alloc: Global, instance: &Instance, n: u32) -> Result<(), MemoryFault>
        requires of { IsChoice instance.now self.old }
        requires bare { self.old.kept ≡ [] }
        requires unplaced { IsUnplaced instance.now self.old n }
        ensures ok { OnOk result (self.new ≡ place_next self.old n) }
        ensures choice { OnOk result (IsChoice instance.now self.new) }
        ensures plans { OnOk result ((plan : Plan) → IsIn instance.now self.new plan
            ↔ (IsIn instance.now self.old plan
            × (slice_index plan.order (length self.old.prefix) ≡ n))) }
        ensures err { OnErr result (self.new ≡ self.old) }
    {
        let _nodes = instance.nodes();
        self.prefix.push(n)?;
        Ok(())
    }

    /// Fixes the capacity of node `n` to the one at place `k` of its options. Takes no memory, so
    /// the answer is always `Ok`.
    pub fn fix_cap(
        &mut self,
        _alloc: Global,
        instance: &Instance,
        n: u32,
        k: u32,
    ) -> Result<(), MemoryFault>
        requires of { IsChoice instance.now self.old }
        requires bare { self.old.kept ≡ [] }
        requires open { IsOpen instance.now self.old (Kind.Cap n) }
        requires option { k < length (node_at instance.now n).capacities }
        ensures done { IsOk result }
        ensures ok { OnOk result (self.new ≡ fix_option instance.now self.old n k) }
        ensures choice { OnOk result (IsChoice instance.now self.new) }
        ensures plans { OnOk result ((plan : Plan) → IsIn instance.now self.new plan
            ↔ (IsIn instance.now self.old plan
            × (slice_index plan.caps n ≡ slice_index (node_at instance.now n).capacities k))) }
    {
        self.fixed[n as usize] = Some(option_at(instance, n, k));
        Ok(())
    }

    /// Lets process `p` go before `q`. Takes no memory, so the answer is always `Ok`.
    pub fn before(
        &mut self,
        _alloc: Global,
        instance: &Instance,
        p: u32,
        q: u32,
    ) -> Result<(), MemoryFault>
        requires of { IsChoice instance.now self.old }
        requires bare { self.old.kept ≡ [] }
        requires open { IsOpen instance.now self.old (Kind.Pair p q) }
        ensures done { IsOk result }
        ensures ok { OnOk result (self.new ≡ order_pair self.old p q) }
        ensures choice { OnOk result (IsChoice instance.now self.new) }
        ensures plans { OnOk result ((plan : Plan) → IsIn instance.now self.new plan
            ↔ (IsIn instance.now self.old plan × EndsBefore instance.now plan p q)) }
    {
        let _processes = instance.processes();
        self.before.put(p, q);
        self.unordered -= 1;
        Ok(())
    }

    /// Lets message `m` be sent in round `r` at most. Takes no memory.
    pub fn rounds_at_most(&mut self, m: u32, r: u32)
        requires message { m < length self.old.hi }
        requires bare { self.old.kept ≡ [] }
        requires from { least_round self.old m ≤ r }
        requires below { r < greatest_round self.old m }
        ensures value { self.new ≡ at_most self.old m r }
        ensures choice { (i : Instance) → IsChoice i self.old → IsChoice i self.new }
        ensures plans { (i : Instance) (plan : Plan) → IsChoice i self.old
            → IsIn i self.new plan ↔ (IsIn i self.old plan × (round_of plan m ≤ r)) }
    {
        self.hi[m as usize] = r;
    }

    /// Lets message `m` be sent in round `r` at least. Takes no memory.
    pub fn rounds_at_least(&mut self, m: u32, r: u32)
        requires message { m < length self.old.lo }
        requires bare { self.old.kept ≡ [] }
        requires above { least_round self.old m < r }
        requires to { r ≤ greatest_round self.old m }
        ensures value { self.new ≡ at_least self.old m r }
        ensures choice { (i : Instance) → IsChoice i self.old → IsChoice i self.new }
        ensures plans { (i : Instance) (plan : Plan) → IsChoice i self.old
            → IsIn i self.new plan ↔ (IsIn i self.old plan × (r ≤ round_of plan m)) }
    {
        self.lo[m as usize] = r;
    }

    /// Fixes the channel of message `m`, or both where `k` is 2. Takes no memory.
    pub fn fix_channel(&mut self, m: u32, k: u32)
        requires message { m < length self.old.channels }
        requires bare { self.old.kept ≡ [] }
        requires free { fixed_channel self.old m ≡ None }
        requires known { k ≤ both_channels }
        ensures value { self.new ≡ fix_channel self.old m k }
        ensures choice { (i : Instance) → IsChoice i self.old → IsChoice i self.new }
        ensures plans { (i : Instance) (plan : Plan) → IsChoice i self.old
            → IsIn i self.new plan ↔ (IsIn i self.old plan × (channel_of plan m ≡ k)) }
    {
        self.channels[m as usize] = Some(k);
    }
}
