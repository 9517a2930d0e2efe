//! What of a choice is still open?

ghost use Rattle.std.specs.Prelude.{◌≡◌, ℕ, ◌*◌, ◌<◌, ◌≤◌, ◌↔◌, IsTrue, IsSome, length, count_by, is_none, Some, None};
ghost use Rattle.ttp_model.specs.declared.limits.TheConstants.{MOST_NODES, MOST_MESSAGES};
ghost use Rattle.ttp_model.specs.Limits.{both_channels};
ghost use Rattle.ttp_model.specs.Totals.{total};
ghost use Rattle.tt_choice.specs.Choice.{IsChoice, IsComplete, fixed_cap, fixed_channel, least_round, greatest_round};
ghost use Rattle.tt_choice.specs.Branches.{IsUnplaced, IsUnorderedPair, CutsRange};
ghost use Rattle.tt_choice.specs.Decisions.{IsFreeOption, CutsFirst, IsOpenDecision};
ghost use Rattle.tt_choice.specs.Sizes.{size_left, range_size, binary_digits};

use crate::choice::Choice;
use crate::decision::Decision;
use ttp_model::{BOTH_CHANNELS, Instance};

/// How many binary digits a number has.
fn binary_digits(n: u32) -> usize
    ensures value { result ≡ binary_digits n }
    ensures few { result ≤ 32 }
{
    (32 - n.leading_zeros()) as usize
}

impl Choice {
    /// Whether a decision is open: what it decides is there and isn't decided yet. Costs the same for each choice, but for a
    /// place, which takes a pass along the prefix.
    pub fn is_open_decision(&self, instance: &Instance, decision: Decision) -> bool
        requires of { IsChoice instance.now self.now }
        ensures { IsTrue result ↔ IsOpenDecision instance.now self.now decision }
    {
        match decision {
            Decision::Place(n) => self.is_unplaced(instance, n),
            Decision::Cap(n, k) => self.is_free_option(instance, n, k),
            Decision::Before(p, q) => self.is_unordered_pair(instance, p, q),
            Decision::AtMost(m, r) => self.cuts_range(m, r),
            Decision::AtLeast(m, r) => self.cuts_first(m, r),
            Decision::Channel(m, k) => self.is_free_on(m, k),
        }
    }

    /// Whether node `n` is there and isn't placed. One pass along the prefix.
    fn is_unplaced(&self, instance: &Instance, n: u32) -> bool
        ensures { IsTrue result ↔ IsUnplaced instance.now self.now n }
    {
        if (n as usize) >= instance.nodes().len() {
            return false;
        }
        !self.prefix().contains(&n)
    }

    /// Whether the capacity of node `n` is free and has an option `k`.
    fn is_free_option(&self, instance: &Instance, n: u32, k: u32) -> bool
        requires of { IsChoice instance.now self.now }
        ensures { IsTrue result ↔ IsFreeOption instance.now self.now n k }
    {
        if !self.is_free(n) {
            return false;
        }
        (k as usize) < instance.nodes()[n as usize].capacities.as_slice().len()
    }

    /// Whether node `n` is there and its capacity is free.
    pub(crate) fn is_free(&self, n: u32) -> bool
        ensures { IsTrue result ↔ ((n < length self.now.fixed) × (fixed_cap self.now n ≡ None)) }
    {
        (n as usize) < self.fixed.len() && self.fixed[n as usize].is_none()
    }

    /// Whether two processes stand on one node and are in neither order.
    pub(crate) fn is_unordered_pair(&self, instance: &Instance, p: u32, q: u32) -> bool
        requires of { IsChoice instance.now self.now }
        ensures { IsTrue result ↔ IsUnorderedPair instance.now self.now p q }
    {
        let count = instance.processes().len();
        if (p as usize) >= count || (q as usize) >= count || p == q {
            return false;
        }
        if instance.node_of(p as usize) != instance.node_of(q as usize) {
            return false;
        }
        !self.is_before(p, q) && !self.is_before(q, p)
    }

    /// Whether message `m` is there and round `r` cuts its range in two.
    pub(crate) fn cuts_range(&self, m: u32, r: u32) -> bool
        requires { length self.now.lo ≡ length self.now.hi }
        ensures { IsTrue result
            ↔ ((m < length self.now.hi) × (least_round self.now m ≤ r) × (r < greatest_round self.now m)) }
    {
        (m as usize) < self.hi.len() && self.lo[m as usize] <= r && r < self.hi[m as usize]
    }

    /// Whether message `m` is there and round `r` takes the first rounds from its range, and leaves some.
    fn cuts_first(&self, m: u32, r: u32) -> bool
        requires { length self.now.lo ≡ length self.now.hi }
        ensures { IsTrue result
            ↔ ((m < length self.now.hi) × (least_round self.now m < r) × (r ≤ greatest_round self.now m)) }
    {
        (m as usize) < self.hi.len() && self.lo[m as usize] < r && r <= self.hi[m as usize]
    }

    /// Whether the channel of message `m` is free, and `k` is a channel, or 2 for both.
    fn is_free_on(&self, m: u32, k: u32) -> bool
        ensures { IsTrue result ↔ ((m < length self.now.channels)
            × (fixed_channel self.now m ≡ None) × (k ≤ both_channels)) }
    {
        self.is_free_channel(m) && k <= BOTH_CHANNELS
    }

    /// Whether message `m` is there and its channel is free.
    pub(crate) fn is_free_channel(&self, m: u32) -> bool
        ensures { IsTrue result ↔ ((m < length self.now.channels) × (fixed_channel self.now m ≡ None)) }
    {
        (m as usize) < self.channels.len() && self.channels[m as usize].is_none()
    }

    /// Whether nothing but the starts is left to choose. One pass over the nodes and two over the
    /// messages.
    pub fn is_complete(&self, instance: &Instance) -> bool
        requires of { IsChoice instance.now self.now }
        ensures { IsTrue result ↔ IsComplete instance.now self.now }
    {
        if self.prefix().len() < instance.nodes().len() {
            return false;
        }
        if self.unordered > 0 {
            return false;
        }
        if !self.all_fixed() {
            return false;
        }
        if !self.all_on_channels() {
            return false;
        }
        self.all_rounds()
    }

    /// Whether each capacity is fixed.
    fn all_fixed(&self) -> bool
        ensures { IsTrue result
            ↔ ((n : ℕ) → n < length self.now.fixed → IsSome (fixed_cap self.now n)) }
    {
        for n in 0..self.fixed.len() {
            if self.fixed[n].is_none() {
                return false;
            }
        }
        true
    }

    /// Whether the channel of each message is fixed.
    fn all_on_channels(&self) -> bool
        ensures { IsTrue result
            ↔ ((m : ℕ) → m < length self.now.channels → IsSome (fixed_channel self.now m)) }
    {
        for m in 0..self.channels.len() {
            if self.channels[m].is_none() {
                return false;
            }
        }
        true
    }

    /// Whether each range is one round.
    fn all_rounds(&self) -> bool
        requires { length self.now.lo ≡ length self.now.hi }
        ensures { IsTrue result
            ↔ ((m : ℕ) → m < length self.now.hi → least_round self.now m ≡ greatest_round self.now m) }
    {
        for m in 0..self.hi.len() {
            if self.lo[m] != self.hi[m] {
                return false;
            }
        }
        true
    }

    /// How much is left to choose: unplaced nodes, free capacities, pairs of one node in neither
    /// order, for each message the binary digits of how far its range goes, and free channels. One pass
    /// over the nodes and two over the messages; the pairs are counted as they are ordered.
    pub fn size_left(&self, instance: &Instance) -> usize
        requires of { IsChoice instance.now self.now }
        ensures { result ≡ size_left instance.now self.now }
    {
        let unplaced = instance.nodes().len() - self.prefix.len();
        unplaced
            + self.free_caps(instance)
            + self.unordered as usize
            + self.range_sizes(instance)
            + self.free_channels(instance)
    }

    /// How many capacities are free.
    fn free_caps(&self, instance: &Instance) -> usize
        requires of { IsChoice instance.now self.now }
        ensures value { result ≡ count_by is_none self.now.fixed }
        ensures few { result ≤ MOST_NODES }
    {
        let _nodes = instance.nodes();
        let mut free = 0;
        for fixed in self.fixed.as_slice() {
            if fixed.is_none() {
                free += 1;
            }
        }
        free
    }

    /// How many channels are free.
    fn free_channels(&self, instance: &Instance) -> usize
        requires of { IsChoice instance.now self.now }
        ensures value { result ≡ count_by is_none self.now.channels }
        ensures few { result ≤ MOST_MESSAGES }
    {
        let _messages = instance.messages();
        let mut free = 0;
        for channel in self.channels.as_slice() {
            if channel.is_none() {
                free += 1;
            }
        }
        free
    }

    /// The sizes of all ranges.
    fn range_sizes(&self, instance: &Instance) -> usize
        requires of { IsChoice instance.now self.now }
        ensures value { result ≡ total (range_size self.now) (length instance.now.messages) }
        ensures few { result ≤ MOST_MESSAGES * 32 }
    {
        let mut sizes = 0;
        let count = instance.messages().len() as u32;
        for m in 0..count {
            sizes += binary_digits(self.hi(m) - self.lo(m));
        }
        sizes
    }
}
