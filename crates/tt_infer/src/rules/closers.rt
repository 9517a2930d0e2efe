//! Where is no plan left?

ghost use Rattle.std.specs.Prelude.{◌<◌, ◌≤◌, ◌↔◌, length, slice_index, IsTrue, IsFalse};
ghost use Rattle.ttp_model.specs.declared.step.Step.TheVariants.{XWindow, XRound, XCycle, XFrame};
ghost use Rattle.ttp_model.specs.Lists.{EachBelow};
ghost use Rattle.sought_plans.specs.Premises.{IsRing};
ghost use Rattle.tt_infer.specs.Table.{IsProcess};
ghost use Rattle.tt_infer.specs.Setting.{TakesOf};
ghost use Rattle.sought_plans.specs.Known.{Fits};

use crate::fault::StepFault;
use sought_plans::{Known, Setting, is_ahead, least_end};
use ttp_model::{Instance, Ring};

/// A process can't end in time.
pub fn x_window(known: &mut Known, setting: &Setting, p: u32) -> Result<(), StepFault>
    requires fits { Fits setting.now.instance known.old }
    requires open { IsFalse known.old.closed }
    ensures { TakesOf setting.now known.old (XWindow p) known.new result }
{
    if p as usize >= setting.instance().processes().len() {
        return Err(StepFault::NoSuchIndex);
    }
    let instance = setting.instance();
    if u64::from(known.le(p)) >= least_end(known, instance, p) {
        return Err(StepFault::NoPremise);
    }
    known.close(instance);
    Ok(())
}

/// A message has no round.
pub fn x_round(known: &mut Known, setting: &Setting, m: u32) -> Result<(), StepFault>
    requires fits { Fits setting.now.instance known.old }
    requires open { IsFalse known.old.closed }
    ensures { TakesOf setting.now known.old (XRound m) known.new result }
{
    if m as usize >= setting.instance().messages().len() {
        return Err(StepFault::NoSuchIndex);
    }
    if known.lo(m) < known.top(m) {
        return Err(StepFault::NoPremise);
    }
    known.close(setting.instance());
    Ok(())
}

/// Whether each of them is a process that is there.
fn are_there(instance: &Instance, processes: &[u32]) -> bool
    ensures { IsTrue result
        ↔ EachBelow (length processes.now) (λ k. IsProcess instance.now (slice_index processes.now k)) }
{
    let count = instance.processes().len();
    for k in 0..processes.len() {
        if processes[k] as usize >= count {
            return false;
        }
    }
    true
}

/// Whether each process goes before the next, and the last before the first.
fn is_ring(known: &Known, instance: &Instance, processes: &[u32]) -> bool
    requires { 2 ≤ length processes.now }
    ensures { IsTrue result ↔ IsRing instance.now known.now processes.now }
{
    for k in 1..processes.len() {
        if !is_ahead(known, instance, processes[k - 1], processes[k]) {
            return false;
        }
    }
    let last = processes[processes.len() - 1];
    is_ahead(known, instance, last, processes[0])
}

/// Processes wait for each other. A pass over the links and one over the messages for each two
/// neighbours.
pub fn x_cycle(known: &mut Known, setting: &Setting, ring: &Ring) -> Result<(), StepFault>
    requires fits { Fits setting.now.instance known.old }
    requires open { IsFalse known.old.closed }
    ensures { TakesOf setting.now known.old (XCycle ring.now) known.new result }
{
    let processes = ring.as_slice();
    if !are_there(setting.instance(), processes) {
        return Err(StepFault::NoSuchIndex);
    }
    if !is_ring(known, setting.instance(), processes) {
        return Err(StepFault::NoPremise);
    }
    known.close(setting.instance());
    Ok(())
}

/// A message fits no frame of its node.
pub fn x_frame(known: &mut Known, setting: &Setting, m: u32) -> Result<(), StepFault>
    requires fits { Fits setting.now.instance known.old }
    requires open { IsFalse known.old.closed }
    ensures { TakesOf setting.now known.old (XFrame m) known.new result }
{
    if m as usize >= setting.instance().messages().len() {
        return Err(StepFault::NoSuchIndex);
    }
    let instance = setting.instance();
    let bytes = instance.message_at(m as usize).bytes;
    if bytes <= setting.cap_most(instance.source_of(m as usize)) {
        return Err(StepFault::NoPremise);
    }
    known.close(instance);
    Ok(())
}
