//! Whether tables keep the rules of an instance, in the order in which refusals are told.

ghost use Rattle.std.specs.Prelude.{MatchResult};
ghost use Rattle.ttp_model.specs.Parts.{instance_of};
ghost use Rattle.ttp_model.specs.Rules.{Lengths, Indices, ReceiversAway, Deadlines, Cycles, Channels, IsInstance};
ghost use Rattle.ttp_model.specs.Refusals.{KeepsRulesBefore, IsRefusal};

mod channels;
mod conditions;
mod indices;
mod lengths;
mod names;
mod ranges;

use crate::error::ModelError;
use crate::graph;
use crate::parts::Parts;
use std::alloc::Global;

/// Whether the tables keep all rules, or the first that they break.
pub fn judge(alloc: Global, parts: &Parts) -> Result<(), ModelError>
    ensures { MatchResult result
        (λ _. IsInstance (instance_of parts.now))
        (λ e. IsRefusal (instance_of parts.now) e) }
{
    judge_lists(parts)?;
    judge_numbers(parts)?;
    judge_cluster(parts)?;
    judge_relations(parts)?;
    judge_order(alloc, parts)?;
    if let Some(m) = channels::both_of_one(parts) {
        return Err(ModelError::BothOfOne(m));
    }
    Ok(())
}

/// The rules on lengths and names.
fn judge_lists(parts: &Parts) -> Result<(), ModelError>
    ensures { MatchResult result
        (λ _. KeepsRulesBefore (instance_of parts.now) Indices)
        (λ e. IsRefusal (instance_of parts.now) e) }
{
    if let Some(part) = lengths::wrong_length(parts) {
        return Err(ModelError::Length(part));
    }
    if let Some(m) = lengths::without_receiver(parts) {
        return Err(ModelError::NoReceiver(m));
    }
    if let Some(at) = names::unnamed(parts) {
        return Err(ModelError::NameForm(at));
    }
    if let Some(at) = names::repeated(parts) {
        return Err(ModelError::NameRepeated(at));
    }
    Ok(())
}

/// The rules on single numbers.
fn judge_numbers(parts: &Parts) -> Result<(), ModelError>
    requires { KeepsRulesBefore (instance_of parts.now) Indices }
    ensures { MatchResult result
        (λ _. KeepsRulesBefore (instance_of parts.now) ReceiversAway)
        (λ e. IsRefusal (instance_of parts.now) e) }
{
    if let Some(at) = indices::missing(parts) {
        return Err(ModelError::NoSuchIndex(at));
    }
    if let Some(at) = ranges::out_of_range(parts) {
        return Err(ModelError::OutOfRange(at));
    }
    if let Some(n) = ranges::wrong_capacities(parts) {
        return Err(ModelError::Capacities(n));
    }
    Ok(())
}

/// The rules on the bus.
fn judge_cluster(parts: &Parts) -> Result<(), ModelError>
    requires { KeepsRulesBefore (instance_of parts.now) ReceiversAway }
    ensures { MatchResult result
        (λ _. KeepsRulesBefore (instance_of parts.now) Deadlines)
        (λ e. IsRefusal (instance_of parts.now) e) }
{
    if let Some(m) = conditions::receiver_on_sender(parts) {
        return Err(ModelError::ReceiverOnSender(m));
    }
    if u64::from(parts.cluster.lead) < 2 * u64::from(parts.cluster.precision) {
        return Err(ModelError::ShortLead);
    }
    if parts.cluster.trail < parts.cluster.precision {
        return Err(ModelError::ShortTrail);
    }
    Ok(())
}

/// The rules between processes, but for cycles.
fn judge_relations(parts: &Parts) -> Result<(), ModelError>
    requires { KeepsRulesBefore (instance_of parts.now) Deadlines }
    ensures { MatchResult result
        (λ _. KeepsRulesBefore (instance_of parts.now) Cycles)
        (λ e. IsRefusal (instance_of parts.now) e) }
{
    if let Some(p) = conditions::late_process(parts) {
        return Err(ModelError::Deadline(p));
    }
    if let Some(l) = conditions::link_across(parts) {
        return Err(ModelError::LinkAcross(l));
    }
    if let Some(m) = conditions::receiver_twice(parts) {
        return Err(ModelError::ReceiverTwice(m));
    }
    Ok(())
}

/// The rule on cycles, whose search takes memory.
fn judge_order(alloc: Global, parts: &Parts) -> Result<(), ModelError>
    requires { KeepsRulesBefore (instance_of parts.now) Cycles }
    ensures { MatchResult result
        (λ _. KeepsRulesBefore (instance_of parts.now) Channels)
        (λ e. IsRefusal (instance_of parts.now) e) }
{
    if let Some(cycle) = graph::cycle(alloc, parts)? {
        return Err(ModelError::Cycle(cycle));
    }
    Ok(())
}
