//! Is a plan valid? What is its delay, or which rule does it break first?

ghost use Rattle.std.specs.Prelude.{◌≡◌, IfOk, IfErr, IsOk, OnOk, MatchResult, length};
ghost use Rattle.ttp_model.specs.Lists.{IsFirstFailure};
ghost use Rattle.ttp_model.specs.Plans.{FitsFrame, FitsOn, Frames, HasLengths, IsValid, Readiness, Releases};
ghost use Rattle.ttp_model.specs.Delays.{delay};
ghost use Rattle.ttp_model.specs.Faults.{IsFirstFault, KeepsBefore};

use crate::{channels, frames, lists, messages, processes};
use tt_layout::Layout;
use ttp_model::{Instance, Plan, PlanFault, delay};

/// The delay of a valid plan in ticks, or else the first rule that the plan breaks, at its first
/// place. Any table of numbers may be handed in as a plan: lists of other lengths, nodes that
/// aren't there, times up to 4,294,967,295.
///
/// The rules are judged in this order: lengths, order, capacities, releases, ends, overlaps,
/// links, readiness, arrivals, frames, channels. Takes no memory. Costs at most a step for each two
/// processes, each two messages, each message and node, each message and receiver, and each link.
pub fn check(instance: &Instance, plan: &Plan) -> Result<u64, PlanFault>
    ensures ok { OnOk result (IsValid instance.now plan.now) }
    ensures delay { IfOk result (λ ticks. ticks ≡ delay instance.now plan.now) }
    ensures err { IfErr result (IsFirstFault instance.now plan.now) }
    ensures only { IsValid instance.now plan.now → IsOk result }
{
    check_lists(instance, plan)?;
    check_processes(instance, plan)?;
    check_messages(instance, plan)?;
    Ok(delay(instance, plan))
}

/// The rules on lengths, the order and the capacities.
fn check_lists(instance: &Instance, plan: &Plan) -> Result<(), PlanFault>
    ensures { MatchResult result
        (λ _. KeepsBefore instance.now plan.now Releases)
        (IsFirstFault instance.now plan.now) }
{
    if let Some(part) = lists::first_wrong_length(instance, plan) {
        return Err(PlanFault::WrongLength(part));
    }
    if let Some(k) = lists::first_wrong_position(instance, plan) {
        return Err(PlanFault::WrongOrder(k));
    }
    if let Some(n) = lists::first_wrong_capacity(instance, plan) {
        return Err(PlanFault::WrongCapacity(n));
    }
    Ok(())
}

/// The rules on processes.
fn check_processes(instance: &Instance, plan: &Plan) -> Result<(), PlanFault>
    requires { KeepsBefore instance.now plan.now Releases }
    ensures { MatchResult result
        (λ _. KeepsBefore instance.now plan.now Readiness)
        (IsFirstFault instance.now plan.now) }
{
    if let Some(p) = processes::first_too_early(instance, plan) {
        return Err(PlanFault::TooEarly(p));
    }
    if let Some(p) = processes::first_too_late(instance, plan) {
        return Err(PlanFault::TooLate(p));
    }
    if let Some((p, q)) = processes::first_overlap(instance, plan) {
        return Err(PlanFault::Overlap(p, q));
    }
    if let Some(l) = processes::first_broken_link(instance, plan) {
        return Err(PlanFault::BrokenLink(l));
    }
    Ok(())
}

/// The rules on messages, of a plan that keeps all others.
fn check_messages(instance: &Instance, plan: &Plan) -> Result<(), PlanFault>
    requires { KeepsBefore instance.now plan.now Readiness }
    ensures { MatchResult result
        (λ _. IsValid instance.now plan.now)
        (IsFirstFault instance.now plan.now) }
{
    let layout = Layout::of(instance, plan.order.as_slice(), plan.caps.as_slice());
    if let Some(m) = messages::first_not_ready(instance, plan, &layout) {
        return Err(PlanFault::NotReady(m));
    }
    if let Some((m, q)) = messages::first_not_arrived(instance, plan, &layout) {
        return Err(PlanFault::NotArrived(m, q));
    }
    if let Some((m, c)) = frames::first_overfull(instance, plan) {
        return Err(overfull(instance, plan, m, c));
    }
    if let Some(m) = channels::first_wrong_channel(instance, plan) {
        return Err(PlanFault::WrongChannel(m));
    }
    Ok(())
}

/// The fault that tells of the frame of message `m`, overfull on channel `c`: which channel is told where
/// there are two.
fn overfull(instance: &Instance, plan: &Plan, m: usize, c: u32) -> PlanFault
    requires lengths { HasLengths instance.now plan.now }
    requires before { KeepsBefore instance.now plan.now Frames }
    requires message { IsFirstFailure (length instance.now.messages) (FitsFrame instance.now plan.now) m }
    requires channel { IsFirstFailure instance.now.cluster.channels (FitsOn instance.now plan.now m) c }
    ensures { IsFirstFault instance.now plan.now result }
{
    let n = instance.source_of(m);
    let r = plan.rounds.as_slice()[m];
    if instance.cluster().channels == 1 {
        PlanFault::Overfull(n, r)
    } else {
        PlanFault::OverfullOn(n, r, c)
    }
}
