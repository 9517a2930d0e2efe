//! When does a process start at least?

ghost use Rattle.std.specs.Prelude.{IsFalse};
ghost use Rattle.ttp_model.specs.declared.step.Step.TheVariants.{EsRelease, EsLink, EsBefore, EsArrive, EsMessage};
ghost use Rattle.tt_infer.specs.Setting.{TakesOf};
ghost use Rattle.sought_plans.specs.Known.{Fits};

use crate::fault::StepFault;
use crate::indices::{are_pair, receives};
use sought_plans::{Known, Setting, least_end, least_ready};

/// A process starts at its release or later.
pub fn es_release(known: &mut Known, setting: &Setting, p: u32) -> Result<(), StepFault>
    requires fits { Fits setting.now.instance known.old }
    requires open { IsFalse known.old.closed }
    ensures { TakesOf setting.now known.old (EsRelease p) known.new result }
{
    if p as usize >= setting.instance().processes().len() {
        return Err(StepFault::NoSuchIndex);
    }
    let instance = setting.instance();
    known.start_from(
        instance,
        p,
        u64::from(instance.process_at(p as usize).release),
    );
    Ok(())
}

/// The second process of a link starts when the first can have ended, or later.
pub fn es_link(known: &mut Known, setting: &Setting, l: u32) -> Result<(), StepFault>
    requires fits { Fits setting.now.instance known.old }
    requires open { IsFalse known.old.closed }
    ensures { TakesOf setting.now known.old (EsLink l) known.new result }
{
    if l as usize >= setting.instance().links().len() {
        return Err(StepFault::NoSuchIndex);
    }
    let instance = setting.instance();
    let link = instance.link_at(l as usize);
    let end = least_end(known, instance, link.before);
    known.start_from(instance, link.after, end);
    Ok(())
}

/// A process starts when one that goes before it can have ended, or later.
pub fn es_before(known: &mut Known, setting: &Setting, p: u32, q: u32) -> Result<(), StepFault>
    requires fits { Fits setting.now.instance known.old }
    requires open { IsFalse known.old.closed }
    ensures { TakesOf setting.now known.old (EsBefore p q) known.new result }
{
    if !are_pair(setting.instance(), p, q) {
        return Err(StepFault::NoSuchIndex);
    }
    if !known.bef(p, q) {
        return Err(StepFault::NoPremise);
    }
    let instance = setting.instance();
    let end = least_end(known, instance, p);
    known.start_from(instance, q, end);
    Ok(())
}

/// A receiver starts when the slot of the message's least round can have ended and the message was
/// copied in, or later.
pub fn es_arrive(known: &mut Known, setting: &Setting, m: u32, q: u32) -> Result<(), StepFault>
    requires fits { Fits setting.now.instance known.old }
    requires open { IsFalse known.old.closed }
    ensures { TakesOf setting.now known.old (EsArrive m q) known.new result }
{
    if !receives(setting.instance(), m, q) {
        return Err(StepFault::NoSuchIndex);
    }
    let instance = setting.instance();
    let end = setting.end_least(instance.source_of(m as usize), known.lo(m));
    known.start_from(instance, q, end + u64::from(instance.cluster().copy_in));
    Ok(())
}

/// A receiver starts when the message can have been copied out, sent and copied in, or later.
pub fn es_message(known: &mut Known, setting: &Setting, m: u32, q: u32) -> Result<(), StepFault>
    requires fits { Fits setting.now.instance known.old }
    requires open { IsFalse known.old.closed }
    ensures { TakesOf setting.now known.old (EsMessage m q) known.new result }
{
    if !receives(setting.instance(), m, q) {
        return Err(StepFault::NoSuchIndex);
    }
    let instance = setting.instance();
    let ready = least_ready(known, instance, m);
    let sent = ready + setting.dur_least(instance.source_of(m as usize));
    known.start_from(instance, q, sent + u64::from(instance.cluster().copy_in));
    Ok(())
}
