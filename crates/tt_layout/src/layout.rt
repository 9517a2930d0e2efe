//! When does each node's slot begin and end, in each round?

ghost use Rattle.std.specs.Prelude.{◌≡◌, ℕ, ◌^◌, ◌<◌, ◌≤◌, All, length};
ghost use Rattle.tt_layout.specs.Bounds.{IsBounded};
ghost use Rattle.ttp_model.specs.Lists.{EachBelow};
ghost use Rattle.ttp_model.specs.Plans.{IsNodeOrder, HasOwnCapacity};
ghost use Rattle.ttp_model.specs.Rules.{IsClusterInRange};
ghost use Rattle.ttp_model.specs.Slots.{duration, offset, round_length, slot_duration, slot_start, slot_end};

use std::marker::Model;
use ttp_model::{
    Cluster, Instance, MOST_BYTES, MOST_DURATION, MOST_NODES, MOST_ROUND, slot_duration,
};

/// The slots of an order of the nodes and of a capacity for each node: one slot for each node in
/// every round, one slot after another without a gap.
///
/// Nodes and rounds are numbered from 0. All times are ticks from the start of round 0.
#[derive(Drop)]
pub struct Layout<'a> {
    instance: &'a Instance,
    /// The nodes, in the order of their slots.
    order: &'a [u32],
    /// The capacity of each node's frames in bytes, by node.
    caps: &'a [u32],
    /// How long a round is, in ticks.
    round: u64,
}

impl<'a> Model for Layout<'a> {
    ghost use Rattle.tt_layout.specs.Layout.{Layout, timing};
    ghost use Rattle.tt_layout.specs.Bounds.{IsBounded, IsRoundLength};

    ghost Value = { Layout };

    ghost view = { λ s. timing s.instance.now.cluster s.order.now s.caps.now };

    ghost invariant = { λ s. IsBounded s.instance.now.cluster s.order.now s.caps.now
        × IsRoundLength s.instance.now.cluster s.caps.now s.round };
}

impl<'a> Layout<'a> {
    ghost use Rattle.tt_layout.specs.Layout.{timing, IsFirstRound};

    /// The slots of an order and of capacities, by node. Takes no memory; one pass over the
    /// capacities.
    pub fn of(instance: &'a Instance, order: &'a [u32], caps: &'a [u32]) -> Self
        requires order { IsNodeOrder (length instance.now.nodes) order.now }
        requires length { length caps.now ≡ length instance.now.nodes }
        requires capacities { EachBelow (length instance.now.nodes) (HasOwnCapacity instance.now caps.now) }
        ensures { result ≡ timing instance.now.cluster order.now caps.now }
    {
        let round = all_slots(instance.cluster(), caps);
        Layout {
            instance,
            order,
            caps,
            round,
        }
    }

    /// How long a round is, in ticks. One step.
    pub fn round_length(&self) -> u64
        ensures length { result ≡ round_length self.now.cluster self.now.caps }
        ensures some { 0 < result }
        ensures bound { result ≤ MOST_ROUND }
    {
        self.round
    }

    /// How long the slot of node `n` is, in ticks. One step.
    pub fn duration(&self, n: u32) -> u64
        requires { n < length self.now.caps }
        ensures value { result ≡ duration self.now.cluster self.now.caps n }
        ensures bound { result ≤ MOST_DURATION }
    {
        slot_duration(self.instance.cluster(), self.caps[n as usize])
    }

    /// When the slot of node `n` begins in round `r`. One pass over the slots before it.
    pub fn slot_start(&self, n: u32, r: u32) -> u64
        requires { n < length self.now.caps }
        ensures value { result ≡ slot_start self.now.cluster self.now.order self.now.caps n r }
        ensures bound { result < 2 ^ 57 }
    {
        u64::from(r) * self.round + slots_before(self.instance.cluster(), self.order, self.caps, n)
    }

    /// When the slot of node `n` ends in round `r`: the first tick after it. One pass over the
    /// slots before it.
    pub fn slot_end(&self, n: u32, r: u32) -> u64
        requires { n < length self.now.caps }
        ensures value { result ≡ slot_end self.now.cluster self.now.order self.now.caps n r }
        ensures bound { result < 2 ^ 58 }
    {
        self.slot_start(n, r) + self.duration(n)
    }

    /// The first round whose slot of node `n` begins at tick `t` or later. It may be one past
    /// 4,294,967,295, which no plan can name. One pass over the slots before it.
    pub fn first_round_at(&self, n: u32, t: u64) -> u64
        requires { n < length self.now.caps }
        ensures { IsFirstRound self.now n t result }
    {
        let offset = slots_before(self.instance.cluster(), self.order, self.caps, n);
        if t <= offset {
            0
        } else {
            (t - offset - 1) / self.round + 1
        }
    }
}

/// How long all slots together are, in ticks.
fn all_slots(c: &Cluster, caps: &[u32]) -> u64
    requires ranges { IsClusterInRange c.now }
    requires few { length caps.now ≤ MOST_NODES }
    requires small { All (λ capacity. capacity ≤ MOST_BYTES) caps.now }
    ensures length { result ≡ round_length c.now caps.now }
    ensures bound { result ≤ MOST_ROUND }
{
    let mut total = 0;
    for capacity in caps {
        total += slot_duration(c, *capacity);
    }
    total
}

/// How long the slots before that of node `n` are, in ticks.
fn slots_before(c: &Cluster, order: &[u32], caps: &[u32], n: u32) -> u64
    requires { IsBounded c.now order.now caps.now }
    ensures length { result ≡ offset c.now order.now caps.now n }
    ensures bound { result ≤ MOST_ROUND }
{
    let mut total = 0;
    for m in order {
        if *m == n {
            return total;
        }
        total += slot_duration(c, caps[*m as usize]);
    }
    total
}
