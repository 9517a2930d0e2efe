//! What is true of settled plans alone?

ghost use Rattle.std.specs.Prelude.{◌↔◌, IsFalse, IsTrue};
ghost use Rattle.ttp_model.specs.declared.step.Step.TheVariants.{OrdTwin, UsSettled, XLate, XSilent, XMirror};
ghost use Rattle.sought_plans.specs.Dominance.{StandsFirst};
ghost use Rattle.tt_infer.specs.Setting.{TakesOf};
ghost use Rattle.sought_plans.specs.Known.{Fits};

use crate::fault::StepFault;
use crate::indices::are_pair;
use sought_plans::{Known, Setting, could_be_earlier, greatest_wait, is_mirrored};
use tt_moves::{silent_twins, twins};

/// Of twins the first goes first: else they would exchange their starts.
pub fn ord_twin(known: &mut Known, setting: &Setting, p: u32, q: u32) -> Result<(), StepFault>
    requires fits { Fits setting.now.instance known.old }
    requires open { IsFalse known.old.closed }
    ensures { TakesOf setting.now known.old (OrdTwin p q) known.new result }
{
    let instance = setting.instance();
    if !are_pair(instance, p, q) {
        return Err(StepFault::NoSuchIndex);
    }
    if p > q || !twins(instance, p, q) {
        return Err(StepFault::NoPremise);
    }
    known.go_first(instance, p, q);
    Ok(())
}

/// A process starts as soon as nothing is left that it may have to wait for: else it would start a
/// tick earlier.
pub fn us_settled(known: &mut Known, setting: &Setting, p: u32) -> Result<(), StepFault>
    requires fits { Fits setting.now.instance known.old }
    requires open { IsFalse known.old.closed }
    ensures { TakesOf setting.now known.old (UsSettled p) known.new result }
{
    let instance = setting.instance();
    if p as usize >= instance.processes().len() {
        return Err(StepFault::NoSuchIndex);
    }
    let Some(time) = greatest_wait(known, setting, p) else {
        return Err(StepFault::NoPremise);
    };
    let wcet = u64::from(instance.process_at(p as usize).wcet);
    known.end_until(instance, p, wcet + time);
    Ok(())
}

/// A message that could be sent in an earlier round is.
pub fn x_late(known: &mut Known, setting: &Setting, m: u32, r: u32) -> Result<(), StepFault>
    requires fits { Fits setting.now.instance known.old }
    requires open { IsFalse known.old.closed }
    ensures { TakesOf setting.now known.old (XLate m r) known.new result }
{
    if m as usize >= setting.instance().messages().len() {
        return Err(StepFault::NoSuchIndex);
    }
    if !could_be_earlier(known, setting, m, r) {
        return Err(StepFault::NoPremise);
    }
    known.close(setting.instance());
    Ok(())
}

/// Whether `v` stands in an order, and `u` doesn't stand before it.
fn stands_first(order: &[u32], v: u32, u: u32) -> bool
    ensures { IsTrue result ↔ StandsFirst order.now v u }
{
    for k in 0..order.len() {
        if order[k] == v {
            return true;
        }
        if order[k] == u {
            return false;
        }
    }
    false
}

/// Of silent twins the first is placed first: else they would exchange their positions and
/// capacities.
pub fn x_silent(known: &mut Known, setting: &Setting, u: u32, v: u32) -> Result<(), StepFault>
    requires fits { Fits setting.now.instance known.old }
    requires open { IsFalse known.old.closed }
    ensures { TakesOf setting.now known.old (XSilent u v) known.new result }
{
    let instance = setting.instance();
    let count = instance.nodes().len();
    if u as usize >= count || v as usize >= count {
        return Err(StepFault::NoSuchIndex);
    }
    if u >= v || !stands_first(setting.choice().prefix(), v, u) || !silent_twins(instance, u, v) {
        return Err(StepFault::NoPremise);
    }
    known.close(instance);
    Ok(())
}

/// No message leads a turned frame: else the frame's channels would be exchanged.
pub fn x_mirror(known: &mut Known, setting: &Setting, m: u32) -> Result<(), StepFault>
    requires fits { Fits setting.now.instance known.old }
    requires open { IsFalse known.old.closed }
    ensures { TakesOf setting.now known.old (XMirror m) known.new result }
{
    if m as usize >= setting.instance().messages().len() {
        return Err(StepFault::NoSuchIndex);
    }
    if !is_mirrored(known, setting, m) {
        return Err(StepFault::NoPremise);
    }
    known.close(setting.instance());
    Ok(())
}
