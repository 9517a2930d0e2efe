//! Which twins can exchange their places?

ghost use Rattle.std.specs.Prelude.{◌≡◌, ◌==◌, ◌<◌, length};
ghost use Rattle.std.specs.List.{position_or_len};
ghost use Rattle.ttp_model.specs.Lists.{EachBelow};
ghost use Rattle.ttp_model.specs.Rules.{IsInstance};
ghost use Rattle.ttp_model.specs.Plans.{IsValid};
ghost use Rattle.ttp_model.specs.Moves.{position_of};
ghost use Rattle.tt_settle.specs.Settling.{IsTried, RestAsTwins, RestsAmongTwins, RestAsSilentTwins};

use crate::changes::{swap_nodes, swap_starts};
use tt_moves::{silent_twins, twins};
use ttp_model::{Instance, Plan};

/// Lets each two twins exchange their starts where that puts the first first, and tells whether
/// any do. An exchange of twins keeps a plan valid.
pub fn order_twins(instance: &Instance, mut plan: Plan) -> (Plan, bool)
    requires { IsValid instance.now plan }
    ensures { IsTried instance.now plan
        (λ r. EachBelow (length instance.now.processes) (RestsAmongTwins instance.now r))
        result.0 result.1 }
{
    let mut moved = false;
    let count = instance.processes().len() as u32;
    for p in 0..count {
        let (next, earlier) = order_twins_of(instance, plan, p);
        plan = next;
        moved |= earlier;
    }
    (plan, moved)
}

/// The same of process `p` and each twin after it in the list, the last one first: so few
/// exchanges put starts in order that fall along the list.
fn order_twins_of(instance: &Instance, mut plan: Plan, p: u32) -> (Plan, bool)
    requires valid { IsValid instance.now plan }
    requires inside { p < length instance.now.processes }
    ensures { IsTried instance.now plan (λ r. RestsAmongTwins instance.now r p) result.0 result.1 }
{
    let mut moved = false;
    let count = instance.processes().len() as u32;
    for k in 0..count - p - 1 {
        let (next, earlier) = order_pair(instance, plan, p, count - 1 - k);
        plan = next;
        moved |= earlier;
    }
    (plan, moved)
}

/// The same of two processes.
fn order_pair(instance: &Instance, plan: Plan, p: u32, q: u32) -> (Plan, bool)
    requires instance { IsInstance instance.now }
    requires valid { IsValid instance.now plan }
    requires in_order { p < q }
    requires inside { q < length instance.now.processes }
    ensures { IsTried instance.now plan (λ r. RestAsTwins instance.now r p q) result.0 result.1 }
{
    let starts = plan.starts.as_slice();
    if starts[p as usize] <= starts[q as usize] || !twins(instance, p, q) {
        return (plan, false);
    }
    (swap_starts(plan, p as usize, q as usize), true)
}

/// Lets each two silent twins exchange their positions and capacities where that puts the first
/// first, and tells whether any do.
pub fn order_silent_twins(instance: &Instance, mut plan: Plan) -> (Plan, bool)
    requires { IsValid instance.now plan }
    ensures { IsTried instance.now plan
        (λ r. EachBelow (length instance.now.nodes) (λ v. EachBelow v (λ u. RestAsSilentTwins instance.now r u v)))
        result.0 result.1 }
{
    let mut moved = false;
    let count = instance.nodes().len() as u32;
    for v in 0..count {
        let (next, earlier) = order_silent_twins_of(instance, plan, v);
        plan = next;
        moved |= earlier;
    }
    (plan, moved)
}

/// The same of node `v` and each silent twin before it in the list.
fn order_silent_twins_of(instance: &Instance, mut plan: Plan, v: u32) -> (Plan, bool)
    requires instance { IsInstance instance.now }
    requires valid { IsValid instance.now plan }
    requires inside { v < length instance.now.nodes }
    ensures { IsTried instance.now plan (λ r. EachBelow v (λ u. RestAsSilentTwins instance.now r u v))
        result.0 result.1 }
{
    let mut moved = false;
    for u in 0..v {
        let (next, earlier) = order_silent_pair(instance, plan, u, v);
        plan = next;
        moved |= earlier;
    }
    (plan, moved)
}

/// The same of two nodes.
fn order_silent_pair(instance: &Instance, plan: Plan, u: u32, v: u32) -> (Plan, bool)
    requires instance { IsInstance instance.now }
    requires valid { IsValid instance.now plan }
    requires in_order { u < v }
    requires inside { v < length instance.now.nodes }
    ensures { IsTried instance.now plan (λ r. RestAsSilentTwins instance.now r u v) result.0 result.1 }
{
    let order = plan.order.as_slice();
    let first = position_of(order, u);
    let second = position_of(order, v);
    if first <= second || !silent_twins(instance, u, v) {
        return (plan, false);
    }
    let swapped = swap_nodes(plan, first, second, u as usize, v as usize);
    (swapped, true)
}

/// Where a node stands in an order: the order's length where it doesn't.
fn position_of(order: &[u32], n: u32) -> usize
    ensures { result ≡ position_or_len (λ m. m == n) order.now }
{
    for k in 0..order.len() {
        if order[k] == n {
            return k;
        }
    }
    order.len()
}
