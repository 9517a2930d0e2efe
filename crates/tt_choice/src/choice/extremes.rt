//! When can a slot begin and end, and how much can it carry?

ghost use Rattle.std.specs.Prelude.{◌≡◌, ℕ, ◌+◌, ◌*◌, ◌^◌, ◌<◌, ◌≤◌, length, Option};
ghost use Rattle.ttp_model.specs.Rules.{IsClusterInRange};
ghost use Rattle.ttp_model.specs.Slots.{slot_duration};
ghost use Rattle.ttp_model.specs.Totals.{total};
ghost use Rattle.tt_choice.specs.Choice.{IsChoice, IsOption};
ghost use Rattle.tt_choice.specs.Extremes.{IsLeastOf, IsMostOf, start_at, end_at, cap_at, dur_at, least_option, most_option, cap_least, cap_most, dur_least, dur_most, offset_least, offset_most, start_least, start_most, end_least, end_most};

use crate::choice::Choice;
use ttp_model::{Instance, MOST_BYTES, MOST_DURATION, MOST_ROUND, slot_duration};

impl Choice {
    /// The least capacity of node `n` in bytes, over all orders and capacities that agree.
    pub fn cap_least(&self, instance: &Instance, n: u32) -> u32
        requires of { IsChoice instance.now self.now }
        requires node { n < length instance.now.nodes }
        ensures value { result ≡ cap_least instance.now self.now n }
        ensures least { IsLeastOf instance.now self.now (cap_at n) result }
        ensures small { result ≤ MOST_BYTES }
    {
        let _nodes = instance.nodes();
        least_option(instance, n, self.fixed_cap(n))
    }

    /// The greatest capacity of node `n` in bytes.
    pub fn cap_most(&self, instance: &Instance, n: u32) -> u32
        requires of { IsChoice instance.now self.now }
        requires node { n < length instance.now.nodes }
        ensures value { result ≡ cap_most instance.now self.now n }
        ensures most { IsMostOf instance.now self.now (cap_at n) result }
        ensures small { result ≤ MOST_BYTES }
    {
        let _nodes = instance.nodes();
        most_option(instance, n, self.fixed_cap(n))
    }

    /// The least duration of the slot of node `n`, in ticks.
    pub fn dur_least(&self, instance: &Instance, n: u32) -> u64
        requires of { IsChoice instance.now self.now }
        requires node { n < length instance.now.nodes }
        ensures value { result ≡ dur_least instance.now self.now n }
        ensures least { IsLeastOf instance.now self.now (dur_at instance.now n) result }
        ensures bound { result ≤ MOST_DURATION }
    {
        slot_duration(instance.cluster(), self.cap_least(instance, n))
    }

    /// When the slot of node `n` begins in round `r` at least, in ticks. As the others of its kind
    /// it takes one pass over the nodes, for the round, and one along the prefix.
    pub fn start_least(&self, instance: &Instance, n: u32, r: u32) -> u64
        requires of { IsChoice instance.now self.now }
        requires node { n < length instance.now.nodes }
        ensures value { result ≡ start_least instance.now self.now n r }
        ensures least { IsLeastOf instance.now self.now (start_at instance.now n r) result }
        ensures bound { result < 2 ^ 57 }
    {
        let _nodes = instance.nodes();
        u64::from(r) * self.round_least(instance) + self.offset_least(instance, n)
    }

    /// When the slot of node `n` begins in round `r` at most, in ticks.
    pub fn start_most(&self, instance: &Instance, n: u32, r: u32) -> u64
        requires of { IsChoice instance.now self.now }
        requires node { n < length instance.now.nodes }
        ensures value { result ≡ start_most instance.now self.now n r }
        ensures most { IsMostOf instance.now self.now (start_at instance.now n r) result }
        ensures bound { result < 2 ^ 57 }
    {
        let _nodes = instance.nodes();
        u64::from(r) * self.round_most(instance) + self.offset_most(instance, n)
    }

    /// When the slot of node `n` ends in round `r` at least, in ticks.
    pub fn end_least(&self, instance: &Instance, n: u32, r: u32) -> u64
        requires of { IsChoice instance.now self.now }
        requires node { n < length instance.now.nodes }
        ensures value { result ≡ end_least instance.now self.now n r }
        ensures least { IsLeastOf instance.now self.now (end_at instance.now n r) result }
        ensures bound { result < 2 ^ 58 }
    {
        let _nodes = instance.nodes();
        self.start_least(instance, n, r) + self.dur_least(instance, n)
    }

    /// When the slot of node `n` ends in round `r` at most, in ticks.
    pub fn end_most(&self, instance: &Instance, n: u32, r: u32) -> u64
        requires of { IsChoice instance.now self.now }
        requires node { n < length instance.now.nodes }
        ensures value { result ≡ end_most instance.now self.now n r }
        ensures most { IsMostOf instance.now self.now (end_at instance.now n r) result }
        ensures bound { result < 2 ^ 58 }
    {
        let _nodes = instance.nodes();
        self.start_most(instance, n, r) + self.dur_most(instance, n)
    }

    /// The greatest duration of the slot of node `n`, in ticks.
    fn dur_most(&self, instance: &Instance, n: u32) -> u64
        requires of { IsChoice instance.now self.now }
        requires node { n < length instance.now.nodes }
        ensures value { result ≡ dur_most instance.now self.now n }
        ensures bound { result ≤ MOST_DURATION }
    {
        slot_duration(instance.cluster(), self.cap_most(instance, n))
    }

    /// The least duration of a round, in ticks. One pass over the nodes.
    pub fn round_least(&self, instance: &Instance) -> u64
        requires of { IsChoice instance.now self.now }
        ensures value { result
            ≡ total (dur_least instance.now self.now) (length instance.now.nodes) }
        ensures bound { result ≤ MOST_ROUND }
    {
        let count = instance.nodes().len() as u32;
        let mut sum = 0;
        for n in 0..count {
            sum += self.dur_least(instance, n);
        }
        sum
    }

    /// The greatest duration of a round, in ticks. One pass over the nodes.
    pub fn round_most(&self, instance: &Instance) -> u64
        requires of { IsChoice instance.now self.now }
        ensures value { result
            ≡ total (dur_most instance.now self.now) (length instance.now.nodes) }
        ensures some { 0 < result }
        ensures bound { result ≤ MOST_ROUND }
    {
        let count = instance.nodes().len() as u32;
        let mut sum = 0;
        for n in 0..count {
            sum += self.dur_most(instance, n);
        }
        sum
    }

    /// How far into a round the slot of node `n` begins at least, in ticks. One pass along the prefix.
    pub fn offset_least(&self, instance: &Instance, n: u32) -> u64
        requires of { IsChoice instance.now self.now }
        ensures value { result ≡ offset_least instance.now self.now n }
        ensures bound { result ≤ MOST_ROUND }
    {
        let _nodes = instance.nodes();
        let mut sum = 0;
        for m in self.prefix() {
            if *m == n {
                return sum;
            }
            sum += self.dur_least(instance, *m);
        }
        sum
    }

    /// How far into a round the slot of node `n` begins at most, in ticks: after all others where
    /// it isn't placed. One pass along the prefix, and then one over the nodes.
    pub fn offset_most(&self, instance: &Instance, n: u32) -> u64
        requires of { IsChoice instance.now self.now }
        requires node { n < length instance.now.nodes }
        ensures value { result ≡ offset_most instance.now self.now n }
        ensures bound { result ≤ MOST_ROUND }
    {
        let _nodes = instance.nodes();
        let mut sum = 0;
        for m in self.prefix() {
            if *m == n {
                return sum;
            }
            sum += self.dur_most(instance, *m);
        }
        let round = self.round_most(instance);
        let own = self.dur_most(instance, n);
        round - own
    }
}

/// The capacity that is fixed, or the least option of node `n`.
fn least_option(instance: &Instance, n: u32, fixed: Option<u32>) -> u32
    requires node { n < length instance.now.nodes }
    requires own { IsOption instance.now n fixed }
    ensures value { result ≡ least_option instance.now n fixed }
    ensures small { result ≤ MOST_BYTES }
{
    let capacities = instance.nodes()[n as usize].capacities.as_slice();
    match fixed {
        Some(capacity) => capacity,
        None => capacities[0],
    }
}

/// The capacity that is fixed, or the greatest option of node `n`.
fn most_option(instance: &Instance, n: u32, fixed: Option<u32>) -> u32
    requires node { n < length instance.now.nodes }
    requires own { IsOption instance.now n fixed }
    ensures value { result ≡ most_option instance.now n fixed }
    ensures small { result ≤ MOST_BYTES }
{
    let capacities = instance.nodes()[n as usize].capacities.as_slice();
    match fixed {
        Some(capacity) => capacity,
        None => capacities[capacities.len() - 1],
    }
}
