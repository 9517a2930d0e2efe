//! Which of two processes goes first?

ghost use Rattle.std.specs.Prelude.{IsFalse};
ghost use Rattle.ttp_model.specs.declared.step.Step.TheVariants.{OrdWindow};
ghost use Rattle.tt_infer.specs.Setting.{TakesOf};
ghost use Rattle.sought_plans.specs.Known.{Fits};

use crate::fault::StepFault;
use crate::indices::are_pair;
use sought_plans::{Known, Setting, least_end};

/// A process goes before another of its node where the two together would end too late the other
/// way round.
pub fn ord_window(known: &mut Known, setting: &Setting, p: u32, q: u32) -> Result<(), StepFault>
    requires fits { Fits setting.now.instance known.old }
    requires open { IsFalse known.old.closed }
    ensures { TakesOf setting.now known.old (OrdWindow p q) known.new result }
{
    if !are_pair(setting.instance(), p, q) {
        return Err(StepFault::NoSuchIndex);
    }
    let instance = setting.instance();
    let wcet = u64::from(instance.process_at(p as usize).wcet);
    if u64::from(known.le(p)) >= least_end(known, instance, q) + wcet {
        return Err(StepFault::NoPremise);
    }
    known.go_first(instance, p, q);
    Ok(())
}
