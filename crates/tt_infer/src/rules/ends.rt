//! When does a process end at most?

ghost use Rattle.std.specs.Prelude.{IsFalse};
ghost use Rattle.ttp_model.specs.declared.step.Step.TheVariants.{LeOwn, LeLink, LeBefore, LeMessage, LeSend};
ghost use Rattle.tt_infer.specs.Setting.{TakesOf};
ghost use Rattle.sought_plans.specs.Known.{Fits};

use crate::fault::StepFault;
use crate::indices::{are_pair, receives};
use sought_plans::{Known, Setting, most_start};

/// A process ends by its deadline, within the horizon and before the goal.
pub fn le_own(known: &mut Known, setting: &Setting, p: u32) -> Result<(), StepFault>
    requires fits { Fits setting.now.instance known.old }
    requires open { IsFalse known.old.closed }
    ensures { TakesOf setting.now known.old (LeOwn p) known.new result }
{
    if p as usize >= setting.instance().processes().len() {
        return Err(StepFault::NoSuchIndex);
    }
    let instance = setting.instance();
    let limit = instance
        .process_at(p as usize)
        .deadline
        .min(instance.cluster().horizon)
        .min(setting.goal().saturating_sub(1));
    known.end_until(instance, p, u64::from(limit));
    Ok(())
}

/// The first process of a link ends when the second has to start, or earlier.
pub fn le_link(known: &mut Known, setting: &Setting, l: u32) -> Result<(), StepFault>
    requires fits { Fits setting.now.instance known.old }
    requires open { IsFalse known.old.closed }
    ensures { TakesOf setting.now known.old (LeLink l) known.new result }
{
    if l as usize >= setting.instance().links().len() {
        return Err(StepFault::NoSuchIndex);
    }
    let instance = setting.instance();
    let link = instance.link_at(l as usize);
    let start = most_start(known, instance, link.after);
    known.end_until(instance, link.before, u64::from(start));
    Ok(())
}

/// A process ends when one that it goes before has to start, or earlier.
pub fn le_before(known: &mut Known, setting: &Setting, p: u32, q: u32) -> Result<(), StepFault>
    requires fits { Fits setting.now.instance known.old }
    requires open { IsFalse known.old.closed }
    ensures { TakesOf setting.now known.old (LeBefore p q) known.new result }
{
    if !are_pair(setting.instance(), p, q) {
        return Err(StepFault::NoSuchIndex);
    }
    if !known.bef(p, q) {
        return Err(StepFault::NoPremise);
    }
    let instance = setting.instance();
    let start = most_start(known, instance, q);
    known.end_until(instance, p, u64::from(start));
    Ok(())
}

/// A sender ends so early that the message can be copied out, sent and copied in before a receiver
/// has to start.
pub fn le_message(known: &mut Known, setting: &Setting, m: u32, q: u32) -> Result<(), StepFault>
    requires fits { Fits setting.now.instance known.old }
    requires open { IsFalse known.old.closed }
    ensures { TakesOf setting.now known.old (LeMessage m q) known.new result }
{
    if !receives(setting.instance(), m, q) {
        return Err(StepFault::NoSuchIndex);
    }
    let instance = setting.instance();
    let cluster = instance.cluster();
    let start = u64::from(most_start(known, instance, q));
    let duration = setting.dur_least(instance.source_of(m as usize));
    let limit = start
        .saturating_sub(u64::from(cluster.copy_in))
        .saturating_sub(duration)
        .saturating_sub(u64::from(cluster.copy_out));
    known.end_until(instance, instance.message_at(m as usize).sender, limit);
    Ok(())
}

/// A sender ends so early that the message can be copied out before the slot of its greatest round
/// begins.
pub fn le_send(known: &mut Known, setting: &Setting, m: u32) -> Result<(), StepFault>
    requires fits { Fits setting.now.instance known.old }
    requires open { IsFalse known.old.closed }
    ensures { TakesOf setting.now known.old (LeSend m) known.new result }
{
    if m as usize >= setting.instance().messages().len() {
        return Err(StepFault::NoSuchIndex);
    }
    let top = known.top(m);
    if top == 0 {
        return Err(StepFault::NoPremise);
    }
    let instance = setting.instance();
    let start = setting.start_most(instance.source_of(m as usize), top - 1);
    let limit = start.saturating_sub(u64::from(instance.cluster().copy_out));
    known.end_until(instance, instance.message_at(m as usize).sender, limit);
    Ok(())
}
