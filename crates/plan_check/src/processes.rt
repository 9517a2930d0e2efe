//! Do processes keep their times, their nodes and their links?

ghost use Rattle.std.specs.Prelude.{◌<◌, ◌↔◌, IsTrue, MatchOption, ℕ, length};
ghost use Rattle.ttp_model.specs.Lists.{EachBelow, FindsFailure};
ghost use Rattle.ttp_model.specs.Plans.{AreApart, EndsBefore, EndsInTime, HasLengths, IsApartFromLater, IsReleased, KeepsLink};
ghost use Rattle.ttp_model.specs.Faults.{IsFirstOverlap};

use ttp_model::{Instance, Plan, end_of};

/// The first process that starts before its release.
pub fn first_too_early(instance: &Instance, plan: &Plan) -> Option<u32>
    requires { HasLengths instance.now plan.now }
    ensures { FindsFailure (length instance.now.processes) (IsReleased instance.now plan.now) result }
{
    let starts = plan.starts.as_slice();
    for p in 0..instance.processes().len() {
        if starts[p] < instance.process_at(p).release {
            return Some(p as u32);
        }
    }
    None
}

/// The first process that ends after its deadline or the horizon.
pub fn first_too_late(instance: &Instance, plan: &Plan) -> Option<u32>
    requires { HasLengths instance.now plan.now }
    ensures { FindsFailure (length instance.now.processes) (EndsInTime instance.now plan.now) result }
{
    let horizon = u64::from(instance.cluster().horizon);
    for p in 0..instance.processes().len() {
        let end = end_of(instance, plan, p);
        if end > u64::from(instance.process_at(p).deadline) || end > horizon {
            return Some(p as u32);
        }
    }
    None
}

/// The first two processes of one node that overlap.
pub fn first_overlap(instance: &Instance, plan: &Plan) -> Option<(u32, u32)>
    requires { HasLengths instance.now plan.now }
    ensures { MatchOption result
        (EachBelow (length instance.now.processes) (IsApartFromLater instance.now plan.now))
        (λ pair. IsFirstOverlap instance.now plan.now pair.0 pair.1) }
{
    let count = instance.processes().len();
    for p in 0..count {
        if let Some(q) = first_overlap_of(instance, plan, p) {
            return Some((p as u32, q));
        }
    }
    None
}

/// The first process after `p` that overlaps with it.
fn first_overlap_of(instance: &Instance, plan: &Plan, p: usize) -> Option<u32>
    requires lengths { HasLengths instance.now plan.now }
    requires inside { p < length instance.now.processes }
    ensures { MatchOption result
        (IsApartFromLater instance.now plan.now p)
        (λ q. (p < q) × (q < length instance.now.processes) × ¬ AreApart instance.now plan.now p q
        × ((k : ℕ) → p < k → k < q → AreApart instance.now plan.now p k)) }
{
    let count = instance.processes().len();
    for q in p + 1..count {
        if !are_apart(instance, plan, p, q) {
            return Some(q as u32);
        }
    }
    None
}

/// Whether two processes are on two nodes, or one ends before the other starts or just then.
fn are_apart(instance: &Instance, plan: &Plan, p: usize, q: usize) -> bool
    requires lengths { HasLengths instance.now plan.now }
    requires first { p < length instance.now.processes }
    requires second { q < length instance.now.processes }
    ensures { IsTrue result ↔ AreApart instance.now plan.now p q }
{
    instance.node_of(p) != instance.node_of(q)
        || ends_before(instance, plan, p, q)
        || ends_before(instance, plan, q, p)
}

/// The first link whose process before doesn't end before the one after starts.
pub fn first_broken_link(instance: &Instance, plan: &Plan) -> Option<u32>
    requires { HasLengths instance.now plan.now }
    ensures { FindsFailure (length instance.now.links) (KeepsLink instance.now plan.now) result }
{
    for l in 0..instance.links().len() {
        let link = instance.link_at(l);
        if !ends_before(instance, plan, link.before as usize, link.after as usize) {
            return Some(l as u32);
        }
    }
    None
}

/// Whether `p` ends before `q` starts, or just then.
fn ends_before(instance: &Instance, plan: &Plan, p: usize, q: usize) -> bool
    requires lengths { HasLengths instance.now plan.now }
    requires first { p < length instance.now.processes }
    requires second { q < length instance.now.processes }
    ensures { IsTrue result ↔ EndsBefore instance.now plan.now p q }
{
    end_of(instance, plan, p) <= u64::from(plan.starts.as_slice()[q])
}
