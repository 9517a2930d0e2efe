//! In which rounds can a message be sent?

ghost use Rattle.std.specs.Prelude.{IsFalse};
ghost use Rattle.ttp_model.specs.declared.step.Step.TheVariants.{LoSend, HiArrive};
ghost use Rattle.tt_infer.specs.Setting.{TakesOf};
ghost use Rattle.sought_plans.specs.Known.{Fits};

use crate::fault::StepFault;
use crate::indices::receives;
use sought_plans::{Known, Setting, least_ready};

/// A message is sent in the first round whose slot may begin once it can be copied out, or later.
pub fn lo_send(known: &mut Known, setting: &Setting, m: u32) -> Result<(), StepFault>
    requires fits { Fits setting.now.instance known.old }
    requires open { IsFalse known.old.closed }
    ensures { TakesOf setting.now known.old (LoSend m) known.new result }
{
    if m as usize >= setting.instance().messages().len() {
        return Err(StepFault::NoSuchIndex);
    }
    let instance = setting.instance();
    let ready = least_ready(known, instance, m);
    let r = setting.first_round_from(instance.source_of(m as usize), ready);
    known.sent_from(instance, m, r);
    Ok(())
}

/// A message is sent in a round whose slot can end so early that it reaches a receiver in time.
pub fn hi_arrive(known: &mut Known, setting: &Setting, m: u32, q: u32) -> Result<(), StepFault>
    requires fits { Fits setting.now.instance known.old }
    requires open { IsFalse known.old.closed }
    ensures { TakesOf setting.now known.old (HiArrive m q) known.new result }
{
    if !receives(setting.instance(), m, q) {
        return Err(StepFault::NoSuchIndex);
    }
    let instance = setting.instance();
    let wcet = u64::from(instance.process_at(q as usize).wcet);
    let wait = u64::from(instance.cluster().copy_in) + wcet;
    let r = setting.rounds_until(instance.source_of(m as usize), wait, known.le(q));
    known.sent_before(instance, m, r);
    Ok(())
}
