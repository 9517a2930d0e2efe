//! Do a plan's lists have their lengths, its order the nodes, and its capacities those to choose from?

ghost use Rattle.std.specs.Prelude.{◌≡◌, ◌<◌, ◌≤◌, ◌↔◌, Contains, IsTrue, MatchOption, length};
ghost use Rattle.ttp_model.specs.Lists.{FindsFailure, IsFirstFailure};
ghost use Rattle.ttp_model.specs.Plans.{HasCapacitiesLength, HasLengths, HasOrderLength, HasOwnCapacity, IsNewNode, IsNodeOrder};
ghost use Rattle.ttp_model.specs.Faults.{IsFirstWrongList};

use ttp_model::{Instance, Plan, PlanPart};

/// The first list of a wrong length.
pub fn first_wrong_length(instance: &Instance, plan: &Plan) -> Option<PlanPart>
    ensures { MatchOption result
        (HasLengths instance.now plan.now)
        (IsFirstWrongList instance.now plan.now) }
{
    let nodes = instance.nodes().len();
    if plan.order.len() != nodes {
        return Some(PlanPart::Order);
    }
    if plan.caps.len() != nodes {
        return Some(PlanPart::Capacities);
    }
    if plan.starts.len() != instance.processes().len() {
        return Some(PlanPart::Starts);
    }
    if plan.rounds.len() != instance.messages().len() {
        return Some(PlanPart::Rounds);
    }
    if plan.channels.len() != instance.messages().len() {
        return Some(PlanPart::Channels);
    }
    None
}

/// The first position of the order without a new node.
pub fn first_wrong_position(instance: &Instance, plan: &Plan) -> Option<u32>
    requires { HasOrderLength instance.now plan.now }
    ensures { MatchOption result
        (IsNodeOrder (length instance.now.nodes) plan.now.order)
        (IsFirstFailure (length instance.now.nodes)
        (IsNewNode (length instance.now.nodes) plan.now.order)) }
{
    let count = instance.nodes().len();
    let order = plan.order.as_slice();
    for k in 0..count {
        if !is_new_node(order, count, k) {
            return Some(k as u32);
        }
    }
    None
}

/// Whether a node stands at the position, and not before it.
fn is_new_node(order: &[u32], count: usize, k: usize) -> bool
    requires { k < length order.now }
    ensures { IsTrue result ↔ IsNewNode count order.now k }
{
    for j in 0..k {
        if order[j] == order[k] {
            return false;
        }
    }
    (order[k] as usize) < count
}

/// The first node with a capacity that is none of its own.
pub fn first_wrong_capacity(instance: &Instance, plan: &Plan) -> Option<u32>
    requires { HasCapacitiesLength instance.now plan.now }
    ensures { FindsFailure (length instance.now.nodes)
        (HasOwnCapacity instance.now plan.now.caps) result }
{
    let count = instance.nodes().len();
    for n in 0..count {
        if !has_own_capacity(instance, plan, n) {
            return Some(n as u32);
        }
    }
    None
}

/// Whether a node's capacity is one of its own.
fn has_own_capacity(instance: &Instance, plan: &Plan, n: usize) -> bool
    requires length { HasCapacitiesLength instance.now plan.now }
    requires inside { n < length instance.now.nodes }
    ensures { IsTrue result ↔ HasOwnCapacity instance.now plan.now.caps n }
{
    let capacity = plan.caps.as_slice()[n];
    instance.nodes()[n].capacities.contains(capacity)
}
