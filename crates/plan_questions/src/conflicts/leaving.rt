//! Which constraints can be left out so that there is still no plan, and which of them are needed?

ghost use Rattle.std.specs.Prelude.{◌≡◌, ◌-◌, ◌<◌, ◌≤◌, ◌++◌, [], IfOk, IfSome, None, OnOk, drop, length, option_to_list};
ghost use Rattle.certificate.specs.Versions.{answer_version};
ghost use Rattle.plan_questions.specs.Conflicts.{IsNarrowing};
ghost use Rattle.plan_questions.specs.Leaving.{IsTolder, LeavesOut, left_to_do};

use super::carrying::without;
use super::conflict::Conflict;
use super::turning::turn;
use crate::asking::Asking;
use crate::sought::Sought;
use instance_variants::Constraint;
use planner::{Gate, SolveFault};
use std::alloc::Global;
use std::marker::Sync;
use std::sync::Wait;
use std::thread::Threads;
use ttp_model::{Instance, MemoryFault};

/// What there is without some of the constraints.
#[derive(Clone, Copy, PartialEq, Eq)]
enum Without {
    /// No plan either: they are left out.
    NoPlan,
    /// A valid plan.
    SomePlan,
    /// It isn't known: a search was stopped.
    Unknown,
}

/// Leaves constraints out, where there is no plan without them either.
fn leave_out<R: Threads + Wait + Sync, G: Gate + Sync>(
    rt: &R,
    asking: &Asking<'_, G>,
    instance: &Instance,
    conflict: &mut Conflict,
    part: &[Constraint],
) -> Result<Without, SolveFault>
    requires { conflict.old.cert.version ≡ answer_version instance.now }
    ensures { IfOk result (LeavesOut instance.now asking.now.options conflict.old part.now conflict.new) }
{
    let mut fewer = conflict.kept.copy(asking.alloc)?;
    fewer.leave_all_out(part);
    match without(rt, asking, instance, conflict, &fewer)? {
        Sought::Absent { cert } => {
            conflict.kept = fewer;
            conflict.cert = cert;
            Ok(Without::NoPlan)
        }
        Sought::Found { .. } => Ok(Without::SomePlan),
        Sought::Open { .. } => Ok(Without::Unknown),
    }
}

/// Takes note of a constraint that is needed: it is told, once.
fn note(conflict: &mut Conflict, constraint: Constraint) -> Result<Option<Constraint>, MemoryFault>
    ensures { IfOk result (IsTolder conflict.old constraint conflict.new) }
{
    if conflict.needed.as_slice().contains(&constraint) {
        return Ok(None);
    }
    conflict.needed.push(constraint)?;
    Ok(Some(constraint))
}

/// Decides the last one of what is pending: it is left out, or told where it is needed.
fn decide<R: Threads + Wait + Sync, G: Gate + Sync>(
    rt: &R,
    asking: &Asking<'_, G>,
    instance: &Instance,
    conflict: &mut Conflict,
) -> Result<Option<Constraint>, SolveFault>
    requires narrowing { IsNarrowing instance.now asking.now.options conflict.old }
    requires pending { 0 < length conflict.old.pending.items }
    ensures narrowing { OnOk result (IsNarrowing instance.now asking.now.options conflict.new) }
    ensures told { IfOk result (λ found. conflict.new.needed.items ≡ conflict.old.needed.items ++ option_to_list found) }
    ensures closer { OnOk result (left_to_do conflict.new < left_to_do conflict.old) }
{
    let _nodes = instance.nodes();
    let Some(constraint) = conflict.pending.pop() else {
        return Ok(None);
    };
    match leave_out(rt, asking, instance, conflict, &[constraint])? {
        Without::NoPlan => {
            turn(asking.alloc, instance, conflict)?;
            Ok(None)
        }
        Without::SomePlan => Ok(note(conflict, constraint)?),
        Without::Unknown => Ok(None),
    }
}

/// The last ones of what is pending, as many as this.
fn last_ones(
    alloc: Global,
    pending: &[Constraint],
    count: usize,
) -> Result<Vec<Constraint>, MemoryFault>
    requires { count ≤ length pending.now }
    ensures { IfOk result (λ part. part.items ≡ drop (length pending.now - count) pending.now) }
{
    let (_, part) = pending.split_at(pending.len() - count);
    Ok(Vec::from_slice(alloc, part)?)
}

/// Leaves out the last ones of what is pending, as many as this, where there is no plan without them either; else fewer are tried next.
fn shorten<R: Threads + Wait + Sync, G: Gate + Sync>(
    rt: &R,
    asking: &Asking<'_, G>,
    instance: &Instance,
    conflict: &mut Conflict,
    count: usize,
) -> Result<(), SolveFault>
    requires narrowing { IsNarrowing instance.now asking.now.options conflict.old }
    requires some { 1 < count }
    requires pending { count ≤ length conflict.old.pending.items }
    requires stride { count ≤ conflict.old.stride }
    ensures narrowing { OnOk result (IsNarrowing instance.now asking.now.options conflict.new) }
    ensures needed { OnOk result (conflict.new.needed ≡ conflict.old.needed) }
    ensures closer { OnOk result (left_to_do conflict.new < left_to_do conflict.old) }
{
    let _nodes = instance.nodes();
    let rest = conflict.pending.len() - count;
    let part = last_ones(asking.alloc, conflict.pending.as_slice(), count)?;
    match leave_out(rt, asking, instance, conflict, part.as_slice())? {
        Without::NoPlan => {
            conflict.pending.truncate(rest);
            turn(asking.alloc, instance, conflict)?;
            Ok(())
        }
        Without::SomePlan | Without::Unknown => {
            conflict.stride = count / 2;
            Ok(())
        }
    }
}

/// Leaves out what it can of what is pending by one search, or decides one.
fn step<R: Threads + Wait + Sync, G: Gate + Sync>(
    rt: &R,
    asking: &Asking<'_, G>,
    instance: &Instance,
    conflict: &mut Conflict,
) -> Result<Option<Constraint>, SolveFault>
    requires narrowing { IsNarrowing instance.now asking.now.options conflict.old }
    requires pending { 0 < length conflict.old.pending.items }
    ensures narrowing { OnOk result (IsNarrowing instance.now asking.now.options conflict.new) }
    ensures told { IfOk result (λ found. conflict.new.needed.items ≡ conflict.old.needed.items ++ option_to_list found) }
    ensures closer { OnOk result (left_to_do conflict.new < left_to_do conflict.old) }
{
    let count = conflict.stride.min(conflict.pending.len());
    if count < 2 {
        return decide(rt, asking, instance, conflict);
    }
    shorten(rt, asking, instance, conflict, count)?;
    Ok(None)
}

/// Leaves constraints out until one is known to be needed, which is told once; none once all are decided. The later ones of times, messages and
/// links in this order are left out rather than the earlier ones: all at once that a certificate doesn't mention, and else one by one.
/// Where a check of the certificate at hand says that there is no plan without them either, nothing is searched. Each search has the budget, and ends once it has found a plan. After a fault the conflict isn't to be used.
pub fn next_need<R: Threads + Wait + Sync, G: Gate + Sync>(
    rt: &R,
    asking: &Asking<'_, G>,
    instance: &Instance,
    conflict: &mut Conflict,
) -> Result<Option<Constraint>, SolveFault>
    requires { IsNarrowing instance.now asking.now.options conflict.old }
    ensures narrowing { OnOk result (IsNarrowing instance.now asking.now.options conflict.new) }
    ensures told { IfOk result (λ found. conflict.new.needed.items ≡ conflict.old.needed.items ++ option_to_list found) }
    ensures end { IfOk result (λ found. found ≡ None → conflict.new.pending.items ≡ []) }
    ensures closer { IfOk result (λ found. IfSome found (λ _. left_to_do conflict.new < left_to_do conflict.old)) }
{
    'searches: while !conflict.pending.is_empty() {
        let found = step(rt, asking, instance, conflict)?;
        if found.is_some() {
            return Ok(found);
        }
    }
    Ok(None)
}
