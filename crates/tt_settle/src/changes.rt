//! A plan with one of its numbers changed, or two of them exchanged.

ghost use Rattle.std.specs.Prelude.{◌≡◌, ◌<◌, length, swap};
ghost use Rattle.ttp_model.specs.Moves.{started, sent, swapped};

use ttp_model::{Numbers, Plan};

/// The plan with another start of process `p`.
pub fn start_at(mut plan: Plan, p: usize, start: u32) -> Plan
    requires { p < length plan.starts }
    ensures { result ≡ started plan p start }
{
    let mut starts = plan.starts.into_vec();
    starts[p] = start;
    plan.starts = Numbers::new(starts);
    plan
}

/// The plan with another round of message `m`.
pub fn send_in(mut plan: Plan, m: usize, round: u32) -> Plan
    requires { m < length plan.rounds }
    ensures { result ≡ sent plan m round }
{
    let mut rounds = plan.rounds.into_vec();
    rounds[m] = round;
    plan.rounds = Numbers::new(rounds);
    plan
}

/// The plan with the starts of two processes exchanged.
pub fn swap_starts(mut plan: Plan, p: usize, q: usize) -> Plan
    requires first { p < length plan.starts }
    requires second { q < length plan.starts }
    ensures { result ≡ swapped plan p q }
{
    let mut starts = plan.starts.into_vec();
    starts.swap(p, q);
    plan.starts = Numbers::new(starts);
    plan
}

/// The plan with the nodes at positions `j` and `k` exchanged, and the capacities of `u` and `v`.
pub fn swap_nodes(mut plan: Plan, j: usize, k: usize, u: usize, v: usize) -> Plan
    requires first { j < length plan.order }
    requires second { k < length plan.order }
    requires one { u < length plan.caps }
    requires other { v < length plan.caps }
    ensures { result ≡ record plan { order = swap plan.order j k; caps = swap plan.caps u v } }
{
    let mut order = plan.order.into_vec();
    order.swap(j, k);
    plan.order = Numbers::new(order);
    let mut caps = plan.caps.into_vec();
    caps.swap(u, v);
    plan.caps = Numbers::new(caps);
    plan
}
